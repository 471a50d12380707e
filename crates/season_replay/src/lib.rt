//! Carries out the calls of a log on a season.
//!
//! ```text
//! let yard = Yard::Open(season);
//! let (yard, answered) = yard.carry_out("judge", call);      // Ok(Ok(Reply::Answered { .. })), a refusal, or a mistake
//! ```

#![tactic(auto)]

mod yards;

pub use yards::{Answered, Yard};
