//! Two counts, the ship's and the launch's: the smallest clock kind, and the
//! example of `docs/how-to/add-a-clock-kind.md`.
//!
//! ```text
//! let (ship, launch) = PairClock::fork(&PairClock::seed())?;
//! let start = PairClock::blank();
//! let mine = start.event(&ship)?;
//! let theirs = start.event(&launch)?;
//! let verdict = mine.compare(&theirs);   // Conflict
//! ```

#![tactic(auto)]

mod clocks;
mod kind;
mod pens;

pub use clocks::PairClock;
pub use pens::PairPen;
