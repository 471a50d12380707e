//! A season: a yard that holds its own tables and its card, so that a caller
//! needs none of its own and asks for nothing.
//!
//! ```text
//! let mut season = Season::<OpenCard, TreeClock, Valve>::open(alloc, 2, &[Valve::shut()])?;
//! season.fork(0, 1)?;
//! season.edit(0, 0, Valve::open())?;
//! let verdict = season.judge(1, 0, 0)?;      // Verdict::Stale
//! ```
//!
//! Every season is one that some list of calls leads to, so the law of
//! histories holds of it: each verdict compares the edits behind two copies.

#![tactic(auto)]

mod errors;
mod law;
mod opening;
mod reading;
mod seasons;
mod writing;

pub use errors::OpenError;
pub use seasons::Season;
