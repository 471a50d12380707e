use std::alloc::AllocError;

// A table has an entry for each of the 4,096 places, and here an interval of it is
// a slice: the whole, or a half of an interval. In normal form a tree has a leaf
// exactly over an interval of one value, so everything about it follows from the
// table.

/// How many places there are.
pub const PLACES: usize = 4096;

/// The most nodes that a tree has.
pub const MOST_NODES: usize = 63;

/// Whether every entry has the same value.
pub fn is_constant<T: PartialEq>(table: &[T]) -> bool {
    match table.split_first() {
        None => true,
        Some((first, rest)) => rest.iter().all(|value| *value == *first),
    }
}

/// How many nodes the tree over this interval has.
pub fn nodes<T: PartialEq>(table: &[T]) -> usize {
    if table.len() < 2 || is_constant(table) {
        return 1;
    }
    let (lower, upper) = table.split_at(table.len() / 2);
    nodes(lower).saturating_add(nodes(upper)).saturating_add(1)
}

/// Whether some place is held.
pub fn any(held: &[bool]) -> bool {
    held.iter().any(|place| *place)
}

/// Whether every place is held.
pub fn all(held: &[bool]) -> bool {
    held.iter().all(|place| *place)
}

/// The place at which a fork cuts the pen in two; none where it cannot be cut.
/// `from` is the first place of the interval.
pub fn cut(held: &[bool], from: usize) -> Option<usize> {
    if held.len() < 2 {
        return None;
    }
    let middle = from.saturating_add(held.len() / 2);
    let (lower, upper) = held.split_at(held.len() / 2);
    match (any(lower), any(upper)) {
        (false, false) => None,
        (true, false) => cut(lower, from),
        (false, true) => cut(upper, middle),
        (true, true) => Some(middle),
    }
}

/// Writes the id that has exactly these places.
pub fn write_id(word: &mut String, held: &[bool]) -> Result<(), AllocError> {
    if !any(held) {
        return word.push_str("0");
    }
    if all(held) || held.len() < 2 {
        return word.push_str("1");
    }
    let (lower, upper) = held.split_at(held.len() / 2);
    word.push_str("(")?;
    write_id(word, lower)?;
    word.push_str(",")?;
    write_id(word, upper)?;
    word.push_str(")")
}
