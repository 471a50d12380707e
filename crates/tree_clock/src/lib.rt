//! Interval tree clocks, the first clock kind.
//!
//! A pen is an id, a clock an event tree, both over 4,096 places. They are plain
//! values that this crate alone makes; an operation gives a new one or a refusal
//! and changes none.
//!
//! ```text
//! let (bridge, launch) = TreePen::seed().fork()?;
//! let start = TreeClock::blank();
//! let mine = start.event(&bridge)?;
//! let theirs = start.event(&launch)?;
//! mine.compare(&theirs)                          // Conflict
//! mine.join(&theirs)?.event(&bridge)?            // settles it
//! ```

#![tactic(auto)]

mod clocks;
mod covers;
mod event;
mod fault;
mod fill;
mod grow;
mod ids;
mod join;
mod kind;
mod nodes;
mod norm;
mod pens;
mod show;
mod split;
mod stored;
mod sum;
mod tree;

use clock::Clock;
pub use clocks::TreeClock;
pub use pens::TreePen;
