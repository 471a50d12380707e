//! Tests of the clock kinds through their public surface: trees, vectors, and the
//! two counts, these in a yard too. A refusal is read by its number.

#![tactic(auto)]

#[cfg(test)]
mod made_trees;
#[cfg(test)]
mod pair_clocks;
#[cfg(test)]
mod pair_yards;
#[cfg(test)]
mod tree_clocks;
#[cfg(test)]
mod tree_pens;
#[cfg(test)]
mod vector_clocks;
#[cfg(test)]
mod vector_pens;

// The number of the cause with which an answer is refused: the expected values are
// numbers.
#[cfg(test)]
fn refused_with<T: Drop>(answer: Result<T, clock::Fault>) -> Option<u8> {
    answer.err().map(|fault| u8::from(fault.cause))
}
