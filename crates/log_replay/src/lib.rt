//! Replays a season log line by line, on the yard of its latest `open`: at each
//! clock kind and payload kind.
//!
//! ```text
//! replay_log(&rt, BufReader::new(alloc, file)?)?       // a whole log, to standard output
//! replay.line("fork 0 1", &mut out)?                   // one line, its answer into `out`
//! ```

#![tactic(auto)]

mod any_yards;
mod errors;
mod kind_yards;
mod lines;
mod logs;
mod openings;
mod replays;

pub use any_yards::AnyYard;
pub use errors::{LineError, LogError};
pub use kind_yards::KindYard;
pub use logs::replay_log;
pub use openings::AfterOpen;
pub use replays::Replay;
