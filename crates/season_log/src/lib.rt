//! A season log's lines: the call that a line asks for, or why it is none, and
//! the answer as the log prints it.
//!
//! A line is some words parted by spaces. Its first names a call, the others are
//! berths, files and payloads, which are words of the yard's payload kind:
//!
//! ```text
//! Opening::read(&["tree", "valve", "2", "shut", "flow:300"])?    // two berths, two files
//! read_call::<Valve>("edit", &["0", "1", "part:40"])?            // Writing::Edit { a: 0, f: 1, payload }
//! ```

#![tactic(auto)]

mod answers;
mod forms;
mod mistakes;
mod no_yard;
mod numbers;
mod openings;
mod reading;

pub use answers::{Buffer, Reply};
pub use forms::{FORMS, Form};
pub use mistakes::{Mistake, PayloadError};
pub use no_yard::without_yard;
pub use openings::{Kind, Opening, PayloadKind};
pub use reading::{read_call, read_payload};
