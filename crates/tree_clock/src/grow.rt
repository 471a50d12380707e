ghost use Rattle.std.specs.Prelude.{◌≡◌, ◌*◌, ◌≤◌, false, length};
ghost use Rattle.tree_rules.specs.Events.{size as size_of, lo, hi};
ghost use Rattle.tree_rules.specs.Ids.{id_depth, is_off};
ghost use Rattle.tree_rules.specs.Shape.{shape};
ghost use Rattle.tree_rules.specs.Grow.{lowers, cost, grow};
ghost use Rattle.tree_rules.specs.Reach.{reached};
ghost use Rattle.tree_clock.specs.Flat.{Stands};
ghost use Rattle.tree_clock.specs.Growth.{Growth};
ghost use Rattle.tree_clock.specs.Trees.{is_leaf as leaf_test, id_lo, id_hi};

use crate::ids::IdTree;
use crate::nodes::{Node, leaf_into, root_into};
use crate::tree::Tree;

// What growing `e` under the id costs. A side that is 0 does not grow, so no cost of it is asked for.
#[tactic(auto, using(crate::proofs::GrowCost::costs))]
pub(crate) fn growth_cost(id: IdTree, e: Tree, left: u8) -> u32
    requires { id_depth id ≤ left }
    ensures cost { result ≡ cost id.entry e.entry }
    ensures most { result ≤ 1001 * left }
{
    if id.is_leaf() {
        return 0;
    }
    let extra = if e.is_leaf() { 1000 } else { 0 };
    if id.lower().is_zero() {
        return growth_cost(id.upper(), e.upper(), left - 1) + 1 + extra;
    }
    if id.upper().is_zero() {
        return growth_cost(id.lower(), e.lower(), left - 1) + 1 + extra;
    }
    let low = growth_cost(id.lower(), e.lower(), left - 1);
    let high = growth_cost(id.upper(), e.upper(), left - 1);
    low.min(high) + 1 + extra
}

// Whether the lower branch grows: not under (0,r), under (l,0), and else where it costs less.
#[tactic(auto, using(crate::proofs::GrowCost::costs))]
fn lower_grows(id: &IdTree, e: &Tree, left: u8) -> bool
    requires { (id_depth id.now ≤ left) × (leaf_test (shape id.now) ≡ false) }
    ensures { result ≡ lowers (is_off (id_lo id.now)) (is_off (id_hi id.now))
        (cost (id_lo id.now) (lo e.now)) (cost (id_hi id.now) (hi e.now)) }
{
    if id.lower().is_zero() {
        return false;
    }
    if id.upper().is_zero() {
        return true;
    }
    let low = growth_cost(id.lower(), e.lower(), left - 1);
    let high = growth_cost(id.upper(), e.upper(), left - 1);
    low < high
}

// Grows `e` under the id, at the front of `out`. The answer is the size of the
// grown tree and the value of the leaf that grew, `up` being the sum of the bases
// above; at 65,536 that value is past the limit, and the tree does not stand in `out`.
// No Result: 15 is tried before 16, so the size is asked even where the value is past the limit.
// A rule of the project: the leaf rule and the pair rule are two functions that call one another.
#[cycle(grow_leaf_grow_pair)]
#[tactic(auto, using(crate::proofs::GrowCode::growing))]
pub(crate) fn grow_leaf(id: IdTree, e: Tree, up: u32, left: u8, out: &mut [Node]) -> (usize, u32)
    requires { Growth left up id e (length out.old) }
    ensures size { result.0 ≡ size_of (grow id.entry e.entry) }
    ensures value { result.1 ≡ reached id.entry e.entry up }
    ensures stands { result.1 ≤ 65535 → Stands out.new result.0 (grow id.entry e.entry) }
    ensures long { length out.new ≡ length out.old }
{
    if id.is_leaf() {
        let value = up + e.base() as u32 + 1;
        return (leaf_into(e.base().saturating_add(1), out), value);
    }
    grow_pair(id, e, up, left, out)
}

// The same under a pair: one branch grows.
#[cycle(grow_leaf_grow_pair)]
#[tactic(auto, using(crate::proofs::GrowCode::growing))]
fn grow_pair(id: IdTree, e: Tree, up: u32, left: u8, out: &mut [Node]) -> (usize, u32)
    requires given { Growth left up id e (length out.old) }
    requires pair { leaf_test (shape id) ≡ false }
    ensures size { result.0 ≡ size_of (grow id.entry e.entry) }
    ensures value { result.1 ≡ reached id.entry e.entry up }
    ensures stands { result.1 ≤ 65535 → Stands out.new result.0 (grow id.entry e.entry) }
    ensures long { length out.new ≡ length out.old }
{
    let base = e.base();
    let at = up + base as u32;
    if lower_grows(&id, &e, left) {
        let (n, value) = grow_leaf(id.lower(), e.lower(), at, left - 1, &mut out[1..]);
        let mid = 1 + n;
        let end = mid + e.upper().put(&mut out[mid..]);
        (root_into(base, out, end), value)
    } else {
        let mid = 1 + e.lower().put(&mut out[1..]);
        let (m, value) = grow_leaf(id.upper(), e.upper(), at, left - 1, &mut out[mid..]);
        (root_into(base, out, mid + m), value)
    }
}
