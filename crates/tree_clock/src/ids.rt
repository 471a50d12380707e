ghost use Rattle.std.specs.Prelude.{◌≡◌, ◌≤◌, false, length, drop};
ghost use Rattle.tree_rules.specs.Ids.{off, on, is_off, is_on, id_size};
ghost use Rattle.tree_rules.specs.Shape.{shape};
ghost use Rattle.tree_clock.specs.Flat.{Stands};
ghost use Rattle.tree_clock.specs.Trees.{as_id, is_leaf as leaf_test, id_lo, id_hi};

use crate::nodes::Node;
use crate::tree::Tree;
use std::marker::Model;

// An id that lies in an array, as the tree that is 1 where the id is. A clause
// sees the id.
#[derive(Drop)]
pub(crate) struct IdTree<'a> {
    tree: Tree<'a>,
}

impl<'a> Model for IdTree<'a> {
    ghost use Rattle.std.specs.Prelude.{◌≡◌};
    ghost use Rattle.tree_rules.specs.Ids.{Id};
    ghost use Rattle.tree_rules.specs.Shape.{shape};
    ghost use Rattle.tree_clock.specs.Trees.{id_code, as_id};

    ghost Value = { Id };

    ghost coded = { id_code };

    ghost view = { λ i. as_id i.tree };

    ghost invariant = { λ i. i.tree ≡ shape (as_id i.tree) };
}

impl<'a> IdTree<'a> {
    // The id that a tree is the shape of.
    pub(crate) fn of(tree: Tree<'a>) -> IdTree<'a>
        requires { tree ≡ shape (as_id tree) }
        ensures { result ≡ as_id tree.entry }
    {
        IdTree { tree }
    }

    // The id 0. It and 1 are two functions, as 0 and 1 are two words of the rules.
    pub(crate) fn zero() -> IdTree<'static>
        ensures { result ≡ off }
    {
        IdTree { tree: Tree::zero() }
    }

    // The id 1.
    pub(crate) fn one() -> IdTree<'static>
        ensures { result ≡ on }
    {
        IdTree { tree: Tree::one() }
    }

    #[inline]
    pub(crate) fn tree(self) -> Tree<'a>
        ensures { result ≡ shape self.entry }
    {
        self.tree
    }

    // How many nodes the id has.
    #[inline]
    pub(crate) fn size(&self) -> usize
        ensures { result ≡ id_size self.now }
    {
        self.tree.size()
    }

    // Whether the id is 0 or 1.
    #[inline]
    pub(crate) fn is_leaf(&self) -> bool
        ensures { result ≡ leaf_test (shape self.now) }
    {
        self.tree.is_leaf()
    }

    // Whether the id is 0. The tests for 0 and 1 are two functions, as they are two words of the rules.
    #[inline]
    pub(crate) fn is_zero(&self) -> bool
        ensures { result ≡ is_off self.now }
    {
        self.tree.is_leaf() && self.tree.base() == 0
    }

    // Whether the id is 1.
    #[inline]
    pub(crate) fn is_one(&self) -> bool
        ensures { result ≡ is_on self.now }
    {
        self.tree.is_leaf() && self.tree.base() == 1
    }

    // The lower side; that of 0 and 1 is 0. Lower and upper are two words of the rules.
    #[inline]
    pub(crate) fn lower(&self) -> IdTree<'a>
        ensures { result ≡ id_lo self.now }
    {
        IdTree {
            tree: self.tree.lower(),
        }
    }

    // The upper side; that of 0 and 1 is 0.
    #[inline]
    pub(crate) fn upper(&self) -> IdTree<'a>
        ensures { result ≡ id_hi self.now }
    {
        IdTree {
            tree: self.tree.upper(),
        }
    }

    // The lower side of an id that is known to be neither 0 nor 1: nothing is tested again.
    #[inline]
    pub(crate) fn lower_side(&self) -> IdTree<'a>
        requires { leaf_test (shape self.now) ≡ false }
        ensures { result ≡ id_lo self.now }
    {
        IdTree {
            tree: self.tree.lower_branch(),
        }
    }

    // The upper side of an id that is known to be neither 0 nor 1.
    #[inline]
    pub(crate) fn upper_side(&self) -> IdTree<'a>
        requires { leaf_test (shape self.now) ≡ false }
        ensures { result ≡ id_hi self.now }
    {
        IdTree {
            tree: self.tree.upper_branch(),
        }
    }

    // Copies the id to the front of `out` and answers its size.
    pub(crate) fn put(&self, out: &mut [Node]) -> usize
        requires { id_size self.now ≤ length out.old }
        ensures stands { Stands out.new result (shape self.now) }
        ensures rest { drop result out.new ≡ drop result out.old }
        ensures long { length out.new ≡ length out.old }
    {
        self.tree.put(out)
    }
}
