ghost use Rattle.std.specs.Prelude.{◌≡◌, ◌+◌, ◌≤◌, not, ◌&&◌, length, drop};
ghost use Rattle.tree_rules.specs.Ids.{pair, is_off, id_size, id_depth, NormalId};
ghost use Rattle.tree_rules.specs.Shape.{shape};
ghost use Rattle.tree_rules.specs.Split.{half, half_pair, unsplittable};
ghost use Rattle.tree_clock.specs.Halves.{is_second};
ghost use Rattle.tree_clock.specs.Flat.{Stands};

use crate::ids::IdTree;
use crate::nodes::{Node, leaf_into, root_into};

/// One of the two halves of an id.
#[derive(Clone, Copy)]
pub(crate) enum Half {
    First,
    Second,
}

// Whether the id is 0, or a half of it would be deeper than `left`.
pub(crate) fn cannot_split(id: IdTree, left: u8) -> bool
    requires { NormalId id × (id_depth id ≤ left) }
    ensures { result ≡ unsplittable left id.entry }
{
    if id.is_zero() {
        return true;
    }
    if id.is_leaf() {
        return left == 0;
    }
    let (l, r) = (id.lower_side(), id.upper_side());
    if l.is_zero() {
        return cannot_split(r, left - 1);
    }
    if r.is_zero() {
        return cannot_split(l, left - 1);
    }
    false
}

// Whether neither of two ids is 0.
fn neither_zero(l: &IdTree, r: &IdTree) -> bool
    ensures { result ≡ (not (is_off l.now) && not (is_off r.now)) }
{
    !l.is_zero() && !r.is_zero()
}

// The pair of two ids that lie elsewhere, at the front of `out`; the answer is its size.
#[tactic(auto, using(crate::proofs::Writing::writing))]
fn pair_into(l: IdTree, r: IdTree, out: &mut [Node]) -> usize
    requires { (id_size (pair l r) ≤ length out.old) × (length out.old ≤ 1000) }
    ensures stands { Stands out.new result (shape (pair l.entry r.entry)) }
    ensures rest { drop result out.new ≡ drop result out.old }
    ensures long { length out.new ≡ length out.old }
{
    let mid = 1 + l.put(&mut out[1..]);
    let end = mid + r.put(&mut out[mid..]);
    root_into(0, out, end)
}

// The pair (x,0), or (0,y) for the second half, at the front of `out`; the answer is its size.
fn side_into(x: IdTree, y: IdTree, which: Half, out: &mut [Node]) -> usize
    requires { (id_size (half_pair (is_second which) x y) ≤ length out.old) × (length out.old ≤ 1000) }
    ensures stands { Stands out.new result (shape (half_pair (is_second which) x.entry y.entry)) }
    ensures rest { drop result out.new ≡ drop result out.old }
    ensures long { length out.new ≡ length out.old }
{
    match which {
        Half::First => pair_into(x, IdTree::zero(), out),
        Half::Second => pair_into(IdTree::zero(), y, out),
    }
}

// A half of the id, at the front of `out`; the answer is its size.
#[tactic(auto, using(crate::proofs::Splitting::halving))]
pub(crate) fn half_into(id: IdTree, which: Half, out: &mut [Node]) -> usize
    requires { (id_size (half (is_second which) id) ≤ length out.old) × (length out.old ≤ 1000) }
    ensures stands { Stands out.new result (shape (half (is_second which) id.entry)) }
    ensures rest { drop result out.new ≡ drop result out.old }
    ensures long { length out.new ≡ length out.old }
{
    if id.is_zero() {
        return leaf_into(0, out);
    }
    if id.is_leaf() {
        return side_into(IdTree::one(), IdTree::one(), which, out);
    }
    let (l, r) = (id.lower_side(), id.upper_side());
    if neither_zero(&l, &r) {
        return side_into(l, r, which, out);
    }
    let mid = 1 + half_into(l, which, &mut out[1..]);
    let end = mid + half_into(r, which, &mut out[mid..]);
    root_into(0, out, end)
}
