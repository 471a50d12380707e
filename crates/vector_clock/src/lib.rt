//! Names and counts: the second clock kind.
//!
//! A pen is a set of names, a clock a count for each name. A pen may make the
//! marks of its names; a clock knows as many marks of a name as it counts.
//! Everything is written for any number of names; the kind is used with `NAMES`.
//!
//! ```text
//! let seed = VectorClock::seed();             // {0,1,2,..,15}
//! let (mine, theirs) = VectorClock::fork(&seed)?;
//! let clock = VectorClock::blank().event(&theirs)?;
//! println!(rt; "{theirs} {clock}")?;          // {8,9,..,15} [0,0,0,0,0,0,0,0,1,0,..]
//! ```

#![tactic(auto)]

mod clocks;
mod items;
mod kind;
mod pens;

use clock::Clock;
pub use clocks::Counts;
pub use kind::{NAMES, VectorClock, VectorPen};
pub use pens::Names;
