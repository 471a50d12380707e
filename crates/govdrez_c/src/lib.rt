//! The library for programs in other languages, as far as its benchmark needs it: whole runs of operations on
//! clocks and whole seasons of a yard, so that the cost of a call from outside does not count.
//!
//! The library keeps nothing between two calls. The caller lends a list of steps, which are plain numbers; the
//! tables lie on the stack of the call. `bench/` calls these functions, and does the same steps on other
//! implementations.
//!
//! ```text
//! size_t govdrez_tree_steps(const Step *steps, size_t count, uint8_t *text, size_t room);
//! uint64_t govdrez_tree_rounds(const Step *before, size_t m, uint32_t call,
//!                              const Step *work, size_t n, uint32_t times);
//! ```

#![tactic(auto)]

mod answers;
mod calls;
mod exports;
mod outcomes;
mod rounds;
mod seasons;
mod steps;
mod telling;

pub use calls::YardCall;
pub use exports::{
    govdrez_record_copies, govdrez_tree_rounds, govdrez_tree_season, govdrez_tree_seasons,
    govdrez_tree_steps, govdrez_vector_rounds, govdrez_vector_season, govdrez_vector_seasons,
    govdrez_vector_steps,
};
pub use steps::Step;
