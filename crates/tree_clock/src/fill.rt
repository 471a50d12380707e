ghost use Rattle.std.specs.Prelude.{◌≡◌, ℕ, ◌+◌, ◌<◌, ◌≤◌, max, false, length};
ghost use Rattle.tree_rules.specs.Events.{Event, leaf, base as base_of, size as size_of, top, Normal};
ghost use Rattle.tree_rules.specs.Ids.{is_on};
ghost use Rattle.tree_rules.specs.Shape.{shape};
ghost use Rattle.tree_rules.specs.Fill.{filled, fill};
ghost use Rattle.tree_clock.specs.Flat.{Laid, Stands};
ghost use Rattle.tree_clock.specs.Sides.{Sides, High};
ghost use Rattle.tree_clock.specs.Trees.{is_leaf as leaf_test, id_lo, id_hi};

use crate::ids::IdTree;
use crate::nodes::{Node, leaf_into};
use crate::norm::close;
use crate::tree::Tree;

// The largest value of a tree. Inlined with a function of its own for branches, as `fill_into` is.
#[inline(always)]
#[cycle(highest_highest_branch)]
fn highest(e: Tree) -> u16
    requires { top e ≤ 65535 }
    ensures { result ≡ top e.entry }
{
    if e.is_leaf() {
        return e.base();
    }
    highest_branch(e)
}

// The same for a triple.
#[cycle(highest_highest_branch)]
fn highest_branch(e: Tree) -> u16
    requires below { top e ≤ 65535 }
    requires triple { leaf_test e ≡ false }
    ensures { result ≡ top e.entry }
{
    e.base() + highest(e.lower_branch()).max(highest(e.upper_branch()))
}

// Raises the leaf at `at` to the base of the tree at `by`: one of them is the
// lower branch, which starts at 1, and the other the upper.
fn raise(out: &mut [Node], at: usize, by: usize)
    requires { (at < length out.old) × (by < length out.old) }
    ensures lower { (end c : ℕ) (r : Event) → at ≡ 1 → Laid out.old by end (leaf c) r →
        Laid out.new by end (leaf (max c (base_of r))) r }
    ensures upper { (end c : ℕ) (l : Event) → by ≡ 1 → Laid out.old at end l (leaf c) →
        Laid out.new at end l (leaf (max c (base_of l))) }
    ensures long { length out.new ≡ length out.old }
{
    let x = out[at];
    let y = out[by];
    out[at] = Node {
        base: x.base.max(y.base),
        size: x.size,
    };
}

// Closes the triple of `base` and two filled branches, as the side of the id that is 1 asks.
fn fill_close(id: &IdTree, base: u16, mid: usize, end: usize, out: &mut [Node]) -> usize
    requires pair { leaf_test (shape id.now) ≡ false }
    requires given { (l r : Event)
        × Sides out.old mid end (is_on (id_lo id.now)) (is_on (id_hi id.now)) l r
        × High base l r × (end ≤ 65535) }
    ensures stands { (l r : Event) →
        Sides out.old mid end (is_on (id_lo id.now)) (is_on (id_hi id.now)) l r →
        Stands out.new result
        (filled (is_on (id_lo id.now)) (is_on (id_hi id.now)) base l r l r) }
    ensures long { length out.new ≡ length out.old }
{
    if id.lower_side().is_one() {
        raise(out, 1, mid);
    } else if id.upper_side().is_one() {
        raise(out, mid, 1);
    }
    close(out, base, mid, end)
}

// Fills `e` under the id, at the front of `out`; the answer is the size.
// What needs no walk is done here and branches in a function of their own, so that this one
// is copied into each caller: half of all nodes are leaves, and a call costs more than a leaf.
#[inline(always)]
#[cycle(fill_into_fill_branches)]
#[tactic(auto, using(crate::proofs::Filling::filling))]
pub(crate) fn fill_into(id: IdTree, e: Tree, out: &mut [Node]) -> usize
    requires below { Normal e × (top e ≤ 65535) }
    requires room { (size_of e ≤ length out.old) × (length out.old ≤ 1000) }
    ensures stands { Stands out.new result (fill id.entry e.entry) }
    ensures long { length out.new ≡ length out.old }
{
    if e.is_leaf() {
        return leaf_into(e.base(), out);
    }
    if id.is_one() {
        return leaf_into(highest(e), out);
    }
    if id.is_leaf() {
        return e.put(out);
    }
    fill_branches(id, e, out)
}

// The same for a pair and a triple.
#[cycle(fill_into_fill_branches)]
#[tactic(auto, using(crate::proofs::Filling::filling))]
fn fill_branches(id: IdTree, e: Tree, out: &mut [Node]) -> usize
    requires below { Normal e × (top e ≤ 65535) }
    requires room { (size_of e ≤ length out.old) × (length out.old ≤ 1000) }
    requires branches { (leaf_test (shape id) ≡ false) × (leaf_test e ≡ false) }
    ensures stands { Stands out.new result (fill id.entry e.entry) }
    ensures long { length out.new ≡ length out.old }
{
    let mid = 1 + fill_into(id.lower_side(), e.lower_branch(), &mut out[1..]);
    let end = mid + fill_into(id.upper_side(), e.upper_branch(), &mut out[mid..]);
    fill_close(&id, e.base(), mid, end, out)
}
