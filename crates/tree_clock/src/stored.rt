ghost use Rattle.std.specs.Prelude.{◌≡◌, ◌≤◌, replicate};
ghost use Rattle.tree_rules.specs.Events.{Event, size as size_of};
ghost use Rattle.tree_clock.specs.Flat.{filler, stored, Stands};
ghost use Rattle.tree_clock.specs.Trees.{held};

use crate::nodes::{MOST_NODES, Node, fillers};
use crate::tree::Tree;

// A tree as pens and clocks hold it: its nodes and then fillers, so that equal
// trees are equal arrays. No Box and no Vec: the library has fixed memory and no heap.
#[derive(Clone, Copy, PartialEq, Eq, Debug)]
pub(crate) struct Stored {
    pub(crate) nodes: [Node; 63],
}

impl Stored {
    // Only fillers, for a tree that is written in its place.
    pub(crate) fn fillers() -> Stored
        ensures { result.nodes ≡ replicate 63 filler }
    {
        Stored { nodes: fillers() }
    }

    // A tree of at most 63 nodes, stored.
    pub(crate) fn of(tree: &Tree) -> Stored
        requires { size_of tree.now ≤ 63 }
        ensures { result ≡ record { nodes = stored tree.now } }
    {
        let mut nodes: [Node; 63] = fillers();
        tree.put(&mut nodes);
        Stored { nodes }
    }

    // Puts fillers behind a tree of `n` nodes that was written at the front.
    pub(crate) fn trim(&mut self, n: usize)
        requires { (e : Event) × Stands self.old.nodes n e }
        ensures { (e : Event) → Stands self.old.nodes n e → self.new.nodes ≡ stored e }
    {
        self.nodes[n..].fill(Node { base: 0, size: 0 });
    }

    // The tree that is stored.
    pub(crate) fn tree(&self) -> Tree
        requires { (self.now.nodes ≡ stored (held self.now.nodes))
            × (size_of (held self.now.nodes) ≤ 63) }
        ensures { result ≡ held self.now.nodes }
    {
        let nodes = &self.nodes;
        Tree::front(nodes, nodes[0].size as usize)
    }
}
