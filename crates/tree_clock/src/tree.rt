ghost use Rattle.std.specs.Prelude.{◌≡◌, ◌≤◌, false, length, drop};
ghost use Rattle.std.proofs.Common.{rules};
ghost use Rattle.std.specs.Cmp.Rules.{comparing};
ghost use Rattle.tree_rules.specs.Events.{Event, leaf, base as base_of, lo, hi, size as size_of};
ghost use Rattle.tree_clock.specs.Flat.{flat, Stands};
ghost use Rattle.tree_clock.specs.Trees.{same_event, is_leaf as leaf_test};

use crate::nodes::{Node, same_nodes};
use std::marker::Model;

const ZERO: [Node; 1] = [Node { base: 0, size: 1 }];

const ONE: [Node; 1] = [Node { base: 1, size: 1 }];

// An event tree that lies in an array. A clause sees the tree. A model with a
// lifetime cannot be `Copy`, so a view that is wanted twice is taken twice.
// A view is of any tree or id, also of one that is being built: `top e ≤ 65535`, `Normal` and
// `NormalId` hold only of stored ones, so they stand in contracts.
#[derive(Drop)]
pub(crate) struct Tree<'a> {
    nodes: &'a [Node],
}

impl<'a> Model for Tree<'a> {
    ghost use Rattle.std.specs.Prelude.{◌≡◌};
    ghost use Rattle.tree_rules.specs.Events.{Event};
    ghost use Rattle.tree_clock.specs.Flat.{flat};
    ghost use Rattle.tree_clock.specs.Trees.{event_code, tree_of};

    ghost Value = { Event };

    ghost coded = { event_code };

    ghost view = { λ t. tree_of t.nodes.now };

    ghost invariant = { λ t. t.nodes.now ≡ flat (tree_of t.nodes.now) };
}

// By hand: a type with a model and a lifetime takes no derived `==`.
impl<'a> PartialEq for Tree<'a> {
    ghost eq = { same_event };

    ghost laws = { Prim.search (comparing, rules) depth 9 };

    fn eq(&self, other: &Tree<'a>) -> bool {
        same_nodes(self.nodes, other.nodes)
    }
}

impl<'a> Tree<'a> {
    // The tree 0. It and 1 are two functions, as 0 and 1 are two words of the rules.
    pub(crate) fn zero() -> Tree<'static>
        ensures { result ≡ leaf 0 }
    {
        Tree { nodes: &ZERO }
    }

    // The tree 1.
    pub(crate) fn one() -> Tree<'static>
        ensures { result ≡ leaf 1 }
    {
        Tree { nodes: &ONE }
    }

    // The tree that lies at the front of `nodes`.
    pub(crate) fn front(nodes: &'a [Node], size: usize) -> Tree<'a>
        requires { (e : Event) × Stands nodes.now size e }
        ensures { (e : Event) → Stands nodes.now size e → result ≡ e }
    {
        Tree {
            nodes: &nodes[0..size],
        }
    }

    // How many nodes the tree has.
    #[inline]
    pub(crate) fn size(&self) -> usize
        ensures { result ≡ size_of self.now }
    {
        self.nodes.len()
    }

    // The base of the root.
    #[inline]
    pub(crate) fn base(&self) -> u16
        ensures { result ≡ base_of self.now }
    {
        self.nodes[0].base
    }

    #[inline]
    pub(crate) fn is_leaf(&self) -> bool
        ensures { result ≡ leaf_test self.now }
    {
        self.nodes[0].size == 1
    }

    // The lower branch; that of a leaf is 0. Lower and upper are two words of the rules.
    #[inline]
    pub(crate) fn lower(&self) -> Tree<'a>
        ensures { result ≡ lo self.now }
    {
        if self.is_leaf() {
            return Tree::zero();
        }
        self.lower_branch()
    }

    // The upper branch; that of a leaf is 0.
    #[inline]
    pub(crate) fn upper(&self) -> Tree<'a>
        ensures { result ≡ hi self.now }
    {
        if self.is_leaf() {
            return Tree::zero();
        }
        self.upper_branch()
    }

    // The lower branch of a tree that is known to be no leaf: nothing is tested again.
    #[inline]
    pub(crate) fn lower_branch(&self) -> Tree<'a>
        requires { leaf_test self.now ≡ false }
        ensures { result ≡ lo self.now }
    {
        Tree {
            nodes: &self.nodes[1..1 + self.nodes[1].size as usize],
        }
    }

    // The upper branch of a tree that is known to be no leaf.
    #[inline]
    pub(crate) fn upper_branch(&self) -> Tree<'a>
        requires { leaf_test self.now ≡ false }
        ensures { result ≡ hi self.now }
    {
        Tree {
            nodes: &self.nodes[1 + self.nodes[1].size as usize..],
        }
    }

    // Copies the tree to the front of `out` and answers its size.
    pub(crate) fn put(&self, out: &mut [Node]) -> usize
        requires { size_of self.now ≤ length out.old }
        ensures stands { Stands out.new result self.now }
        ensures rest { drop result out.new ≡ drop result out.old }
        ensures long { length out.new ≡ length out.old }
    {
        let nodes = self.nodes;
        // a single node by hand: a call of memcpy costs more
        if nodes.len() == 1 {
            out[0] = nodes[0];
            return 1;
        }
        out[0..nodes.len()].copy_from_slice(nodes);
        nodes.len()
    }
}
