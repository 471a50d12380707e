//! The calls of a yard: replicas of a set of files that are copied, edited and
//! judged against one another by proved clocks.
//!
//! The caller lends the tables, a yard keeps nothing. `open` answers a card, the
//! right to change the yard; every call takes it and answers or refuses, and a
//! refusal changes nothing. `seal` trades the card for one that only reads.
//!
//! ```text
//! let card = open::<K, P>(&mut berths, &mut copies, &payloads)?;
//! fork::<K, P>(&card, &mut berths, &mut copies, 0, 1)?;
//! edit::<K, P>(&card, &berths, &mut copies, 0, 0, payload)?;
//! let (taken, conflicts) = pull::<K, P>(&card, &berths, &mut copies, &mut bytes, 0, 1)?;
//! let card = seal(card);
//! let verdict = judge::<SealedCard, K, P>(&card, &berths, &copies, 0, 1, 0)?;
//! ```
//!
//! What the contracts say:
//!
//! - `result`, of every call but `seal`: for every input, refused too, the answer,
//!   the tables and the buffer are exactly the documented ones.
//! - `made`: the pens and clocks of the tables are well made. Every call but `open`
//!   and `seal` asks it of the tables that it is lent, and nothing else. The calls
//!   that change a table ensure it again, `open` where it is accepted; `judge` and
//!   `report` change none, and have no such clause.
//! - `history`, of every call but `seal`: whatever calls led to the tables as they
//!   were lent, the law of histories holds of them, of the call and of what it
//!   leaves, so that each verdict that it gives or uses compares the edits behind
//!   two copies. That of `open` speaks of the yard that it leaves.
//! - `seal` has one clause, with no name: its card has the sizes of the one given.

#![tactic(auto)]

mod blanks;
mod cards;
mod carrying;
mod checks;
mod counting;
mod dropping;
mod editing;
mod fault_places;
mod forking;
mod judging;
mod open_card;
mod opening;
mod pulling;
mod records;
mod reporting;
mod retiring;
mod sealed_card;
mod sealing;
mod settling;
mod showing;
mod taking;
mod telling;

pub use blanks::{blank_berth, blank_copy};
pub use cards::Card;
pub use carrying::{read, write};
pub use dropping::drop;
pub use editing::edit;
pub use forking::fork;
pub use judging::judge;
pub use open_card::OpenCard;
pub use opening::open;
pub use pulling::pull;
pub use reporting::report;
pub use retiring::retire;
pub use sealed_card::SealedCard;
pub use sealing::seal;
pub use settling::settle;
pub use showing::show;

// What the calls share, for a call of one's own over the same tables: the checks, one for each
// refusal 1 to 6, where the records stand, the count of a verdict, and the berth and file that are
// added to a clock kind's refusal on its way up.
pub use checks::{
    check_berth, check_buffer, check_copy, check_empty, check_file, check_sizes, check_two,
    check_working, refuse_if,
};
pub use counting::count_verdict;
pub use fault_places::Place;
pub use records::{place, row};
