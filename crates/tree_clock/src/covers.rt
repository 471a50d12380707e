ghost use Rattle.std.specs.Prelude.{◌≡◌, ◌+◌, ◌≤◌, max, ◌&&◌, false};
ghost use Rattle.tree_rules.specs.Events.{lo, hi, top};
ghost use Rattle.tree_rules.specs.Walk.{fits_up};
ghost use Rattle.tree_clock.specs.Trees.{is_leaf as leaf_test};

use crate::tree::Tree;

// Whether `a` plus `up_a` has at least the sum of `b` plus `up_b` at each node
// of `b`, root first. It stops at the first node whose sum is above.
// A tree and its `up` are two parameters: as one struct they go
// through memory, and a run of events, joins and tests takes 1.6 times as long.
// What needs no walk is done here and branches in a function of their own, so that this one is
// copied into each caller: half of all nodes are leaves, and a call costs more than a leaf.
#[inline(always)]
#[cycle(covers_from_covers_branches)]
pub(crate) fn covers_from(a: Tree, up_a: u16, b: Tree, up_b: u16) -> bool
    requires { (up_a + top a ≤ 65535) × (up_b + top b ≤ 65535) }
    ensures { result ≡ fits_up a.entry up_a b.entry up_b }
{
    let at_a = up_a + a.base();
    let at_b = up_b + b.base();
    if at_b > at_a {
        return false;
    }
    if b.is_leaf() {
        return true;
    }
    covers_branches(a, at_a, b, at_b)
}

// The same for the branches of a triple, the sums at the roots being `at_a` and `at_b`.
#[cycle(covers_from_covers_branches)]
fn covers_branches(a: Tree, at_a: u16, b: Tree, at_b: u16) -> bool
    requires below { (at_a + max (top (lo a)) (top (hi a)) ≤ 65535)
        × (at_b + max (top (lo b)) (top (hi b)) ≤ 65535) }
    requires triple { leaf_test b ≡ false }
    ensures { result ≡
        (fits_up (lo a.entry) at_a (lo b.entry) at_b && fits_up (hi a.entry) at_a (hi b.entry) at_b) }
{
    if !covers_from(a.lower(), at_a, b.lower_branch(), at_b) {
        return false;
    }
    covers_from(a.upper(), at_a, b.upper_branch(), at_b)
}
