//! Seasons of random calls on a yard, beside a model of edit sets. Every answer,
//! buffer, state, payload and verdict is compared with what the model says, and so
//! is every refusal; a difference is an error that says where it is.
//!
//! ```text
//! season::<TreeClock, Trees, Label>(rt, &plan, &mut total)?;
//! ```

#![tactic(auto)]

mod answers;
mod cards;
mod drawing;
mod generator;
mod openings;
mod pair;
mod plans;
mod samples;
mod scripts;
mod seasons;
mod tables;
mod tally;

pub use openings::try_openings;
pub use plans::{LIMITS, NAME_COUNT, ORDINARIES, Plan, TREE_COUNT, Weights};
pub use samples::{Label, Sample};
pub use scripts::Script;
pub use seasons::season;
pub use tally::Tally;
