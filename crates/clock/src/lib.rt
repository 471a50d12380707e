//! What every clock kind shares: its trait, verdicts, and the refusals of a yard.
//!
//! A clock kind judges two copies of a sheet by the marks behind them, and
//! never by a date. Code above this crate is written once against the trait
//! `Clock`, and `compare` turns two clocks into a verdict:
//!
//! ```text
//! let verdict = mine.compare(&theirs);   // Equal, Stale, Ahead or Conflict
//! ```

#![tactic(auto)]

mod causes;
mod faults;
mod kind;
mod verdicts;

pub use causes::Cause;
pub use faults::Fault;
pub use kind::Clock;
pub use verdicts::Verdict;
