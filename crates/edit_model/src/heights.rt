use crate::places::{all, any, is_constant};
use std::alloc::AllocError;

/// The largest value of an interval.
pub fn largest(values: &[u32]) -> u32 {
    values.iter().copied().max().unwrap_or(0)
}

/// The smallest value of an interval.
pub fn smallest(values: &[u32]) -> u32 {
    values.iter().copied().min().unwrap_or(0)
}

/// Fills an interval of values under the same interval of a pen.
pub fn fill(held: &[bool], values: &mut [u32]) {
    if !any(held) {
        return;
    }
    if all(held) {
        let top = largest(values);
        values.fill(top);
        return;
    }
    if held.len() < 2 || is_constant(values) {
        return;
    }
    let (held_lower, held_upper) = held.split_at(held.len() / 2);
    let (lower, upper) = values.split_at_mut(values.len() / 2);
    if all(held_lower) {
        fill(held_upper, upper);
        let level = largest(lower).max(smallest(upper));
        lower.fill(level);
    } else if all(held_upper) {
        fill(held_lower, lower);
        let level = largest(upper).max(smallest(lower));
        upper.fill(level);
    } else {
        fill(held_lower, lower);
        fill(held_upper, upper);
    }
}

// Whether the lower half grows: not where its half of the pen is empty, yes where
// the other is, and else where it costs less.
fn lower_grows(held: (&[bool], &[bool]), costs: (u32, u32)) -> bool {
    if !any(held.0) {
        false
    } else if !any(held.1) {
        true
    } else {
        costs.0 < costs.1
    }
}

// What growing an interval costs.
fn cost(held: &[bool], values: &[u32]) -> u32 {
    if held.len() < 2 || all(held) || !any(held) {
        return 0;
    }
    let held_halves = held.split_at(held.len() / 2);
    let (lower, upper) = values.split_at(values.len() / 2);
    let costs = (cost(held_halves.0, lower), cost(held_halves.1, upper));
    let branch = if lower_grows(held_halves, costs) {
        costs.0
    } else {
        costs.1
    };
    let step = if is_constant(values) { 1001 } else { 1 };
    branch.saturating_add(step)
}

/// Grows an interval of values at one place of the pen, where that costs least.
pub fn grow(held: &[bool], values: &mut [u32]) {
    if held.len() < 2 || all(held) {
        for value in values.iter_mut() {
            *value = value.saturating_add(1);
        }
        return;
    }
    let held_halves = held.split_at(held.len() / 2);
    let (lower, upper) = values.split_at_mut(values.len() / 2);
    let costs = (cost(held_halves.0, lower), cost(held_halves.1, upper));
    if lower_grows(held_halves, costs) {
        grow(held_halves.0, lower);
    } else {
        grow(held_halves.1, upper);
    }
}

/// Writes the event tree with exactly these values, of which `above` stands in
/// the bases above.
pub fn write_tree(word: &mut String, values: &[u32], above: u32) -> Result<(), AllocError> {
    let low = smallest(values);
    let base = low.saturating_sub(above);
    if is_constant(values) || values.len() < 2 {
        return write!(word, "{base}");
    }
    let (lower, upper) = values.split_at(values.len() / 2);
    write!(word, "({base},")?;
    write_tree(word, lower, low)?;
    word.push_str(",")?;
    write_tree(word, upper, low)?;
    word.push_str(")")
}
