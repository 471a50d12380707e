//! A yard's tables, what each call documents, and the law of histories.
//!
//! The definitions that the calls are proved against stand in `specs/`: what a
//! call answers and leaves for every input, which edits are behind a copy, and
//! the law that ties the two together. `history_law` is that law, proved for
//! every sound clock kind and every payload type.
//!
//! ```text
//! let mut berths = [Berth { state: State::Empty, pen }; 4];
//! let mut copies = [Record { clock, payload }; 8];   // 4 berths × 2 files
//! ```

#![tactic(auto)]

mod answers;
mod calls;
mod histories;
mod tables;

pub use answers::Answer;
pub use calls::{Call, Reading, Writing};
pub use histories::history_law;
pub use tables::{Berth, Record, Sizes, State};
