//! Payload kinds: what a copy of a sheet carries, and when two are alike.
//!
//! A payload is a plain value. Code that only moves payloads asks for `Copy`;
//! code that compares them asks for the trait `Payload`:
//!
//! ```text
//! let twins = mine.alike(&theirs);
//! ```
//!
//! `Ticket` is a digest with a length, `Valve` the state of a valve. Both are
//! written and read as one word of a log.

#![tactic(auto)]

mod decimals;
mod kinds;
mod tickets;
mod valves;

pub use decimals::{DecimalError, decimal};
pub use kinds::Payload;
pub use tickets::{Ticket, TicketError};
pub use valves::{Case, Valve, ValveError};
