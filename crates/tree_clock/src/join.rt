ghost use Rattle.std.specs.Prelude.{◌≡◌, ◌+◌, ◌<◌, ◌≤◌, length};
ghost use Rattle.tree_rules.specs.Events.{size, top};
ghost use Rattle.tree_rules.specs.Join.{join_up};
ghost use Rattle.tree_clock.specs.Flat.{Stands};

use crate::nodes::{Node, leaf_into};
use crate::norm::close;
use crate::tree::Tree;

// The join of `a` plus `up_a` and `b` plus `up_b`, at the front of `out`; the answer is its size.
// A tree and its `up` are two parameters for the reason that `covers_from` gives.
// Two leaves are joined here and branches in a function of their own, so that this one is
// copied into each caller: half of all nodes are leaves, and a call costs more than their join.
#[inline(always)]
#[cycle(join_into_join_branches)]
#[tactic(auto, using(crate::proofs::Joining::joining))]
pub(crate) fn join_into(a: Tree, up_a: u16, b: Tree, up_b: u16, out: &mut [Node]) -> usize
    requires below { (up_a + top a ≤ 65535) × (up_b + top b ≤ 65535) }
    requires room { (size a + size b ≤ length out.old + 1) × (size a + size b ≤ 1000) }
    ensures stands { Stands out.new result (join_up a.entry up_a b.entry up_b) }
    ensures long { length out.new ≡ length out.old }
{
    if a.is_leaf() && b.is_leaf() {
        return leaf_into((a.base() + up_a).max(b.base() + up_b), out);
    }
    join_branches(a, up_a, b, up_b, out)
}

// The same where not both are leaves.
#[cycle(join_into_join_branches)]
#[tactic(auto, using(crate::proofs::Joining::joining))]
fn join_branches(a: Tree, up_a: u16, b: Tree, up_b: u16, out: &mut [Node]) -> usize
    requires below { (up_a + top a ≤ 65535) × (up_b + top b ≤ 65535) }
    requires room { (size a + size b ≤ length out.old + 1) × (size a + size b ≤ 1000) }
    requires large { 2 < size a + size b }
    ensures stands { Stands out.new result (join_up a.entry up_a b.entry up_b) }
    ensures long { length out.new ≡ length out.old }
{
    let at_a = a.base() + up_a;
    let at_b = b.base() + up_b;
    let k = at_a.min(at_b);
    let mid = 1 + join_into(a.lower(), at_a - k, b.lower(), at_b - k, &mut out[1..]);
    let end = mid + join_into(a.upper(), at_a - k, b.upper(), at_b - k, &mut out[mid..]);
    close(out, k, mid, end)
}
