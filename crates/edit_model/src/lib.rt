//! A yard by the edits behind every copy, from the documented rules: nothing is
//! read from a yard's tables, and from the yard's crates comes the list of its
//! calls alone. Its pens and clocks are a second account of the clock kinds, in
//! another form.
//!
//! ```text
//! let mut model = Model::<Trees>::open(heap, 4, 3, words)?;      // four berths, three files
//! let fork = Call::<Label>::Writes(Writing::Fork { a: 0, b: 1 });
//! let expected = model.answer::<Numbers, Label>(&fork, false, &mut bytes)?;
//! ```

#![tactic(auto)]

mod answers;
mod applying;
mod edit_sets;
mod heights;
mod kinds;
mod model;
mod names;
mod needs;
mod numbering;
mod places;
mod trees;

pub use answers::{Answer, Refusal};
pub use edit_sets::EditSet;
pub use kinds::{Kind, Made};
pub use model::{Kept, Model, Row};
pub use names::Names;
pub use needs::Needs;
pub use numbering::Numbering;
pub use trees::Trees;
