ghost use Rattle.std.specs.Prelude.{◌≡◌, ◌+◌, ◌≤◌, length, true, false, MatchOption};
ghost use Rattle.tree_rules.specs.Ids.{NormalId, id_size};
ghost use Rattle.tree_rules.specs.Shape.{shape};
ghost use Rattle.tree_rules.specs.Sum.{sum, overlap};
ghost use Rattle.tree_clock.specs.Flat.{Stands};
ghost use Rattle.tree_clock.specs.Trees.{is_leaf as leaf_test};

use crate::ids::IdTree;
use crate::nodes::Node;
use crate::norm::close;

// The sum of two ids, at the front of `out`; the answer is its size, or None where some place is 1 in
// both. One walk finds the overlap and writes the sum, and beside a 0 the other id is copied as it lies:
// to look for an overlap first and then join the two as trees took two to three times as long.
// Inlined with a function of its own for two pairs, as `join_into` is for branches.
#[inline(always)]
#[cycle(sum_into_sum_pairs)]
#[tactic(auto, using(crate::proofs::Summing::summing))]
pub(crate) fn sum_into(a: IdTree, b: IdTree, out: &mut [Node]) -> Option<usize>
    requires normal { (NormalId a) × (NormalId b) }
    requires room { (id_size a + id_size b ≤ length out.old + 1) × (id_size a + id_size b ≤ 1000) }
    ensures sum { MatchOption result
        (overlap a.entry b.entry ≡ true)
        (λ n. (overlap a.entry b.entry ≡ false) × Stands out.new n (shape (sum a.entry b.entry))) }
    ensures long { length out.new ≡ length out.old }
{
    if a.is_zero() {
        return Some(b.put(out));
    }
    if b.is_zero() {
        return Some(a.put(out));
    }
    // neither is 0, so each has some place: beside a 1 it is shared
    if a.is_leaf() || b.is_leaf() {
        return None;
    }
    sum_pairs(a, b, out)
}

// The same for two pairs.
#[cycle(sum_into_sum_pairs)]
#[tactic(auto, using(crate::proofs::Summing::summing))]
fn sum_pairs(a: IdTree, b: IdTree, out: &mut [Node]) -> Option<usize>
    requires normal { (NormalId a) × (NormalId b) }
    requires room { (id_size a + id_size b ≤ length out.old + 1) × (id_size a + id_size b ≤ 1000) }
    requires pairs { (leaf_test (shape a) ≡ false) × (leaf_test (shape b) ≡ false) }
    ensures sum { MatchOption result
        (overlap a.entry b.entry ≡ true)
        (λ n. (overlap a.entry b.entry ≡ false) × Stands out.new n (shape (sum a.entry b.entry))) }
    ensures long { length out.new ≡ length out.old }
{
    let mid = 1 + sum_into(a.lower_side(), b.lower_side(), &mut out[1..])?;
    let end = mid + sum_into(a.upper_side(), b.upper_side(), &mut out[mid..])?;
    Some(close(out, 0, mid, end))
}
