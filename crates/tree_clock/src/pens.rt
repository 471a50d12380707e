ghost use Rattle.std.specs.Prelude.{◌≡◌, ◌+◌, ◌≤◌, true, ◌↔◌, IfOk, replicate};
ghost use Rattle.clock.specs.Answers.{answered};
ghost use Rattle.clock.specs.Meaning.{Yes};
ghost use Rattle.clock.specs.Sound.{Forked, United};
ghost use Rattle.tree_rules.specs.Ids.{off, on, id_depth, id_size, NormalId};
ghost use Rattle.tree_rules.specs.Split.{half};
ghost use Rattle.tree_clock.specs.Flat.{filler};
ghost use Rattle.tree_clock.specs.Halves.{is_second};
ghost use Rattle.tree_clock.specs.Operations.{fork_answer, unite_answer};
ghost use Rattle.tree_clock.specs.Stored.{pen_of, id_of, pen_made, SameMakes, tree_kind};

use crate::fault::fault;
use crate::ids::IdTree;
use crate::nodes::{MOST_NODES, Node, ROOM, fillers};
use crate::split::{Half, cannot_split, half_into};
use crate::stored::Stored;
use crate::sum::sum_into;
use crate::tree::Tree;
use clock::{Cause, Fault};

/// A pen of the tree kind: an id, which says at which of the 4,096 places marks
/// may be made. Only this crate makes one.
// It and `TreeClock` are two structs, so that a pen cannot be taken for a clock.
#[derive(Clone, Copy, PartialEq, Eq, Debug)]
pub struct TreePen {
    pub(crate) stored: Stored,
}

// That a pen is well made stands in clauses: pens and clocks are plain data with no invariant in
// their types, a rule of the project.
impl TreePen {
    // Only fillers, for an id that is written in its place.
    fn unwritten() -> TreePen
        ensures { result.stored.nodes ≡ replicate 63 filler }
    {
        TreePen {
            stored: Stored::fillers(),
        }
    }

    // The pen that holds an id.
    #[tactic(auto, using(crate::proofs::Public::shapes))]
    fn of(id: IdTree) -> TreePen
        requires { id_size id ≤ 63 }
        ensures { result ≡ pen_of id.entry }
    {
        TreePen {
            stored: Stored::of(&id.tree()),
        }
    }

    // The id that the pen holds.
    pub(crate) fn id(&self) -> IdTree
        requires { Yes (pen_made self.now) }
        ensures id { result ≡ id_of self.now }
        ensures limits { NormalId result × (id_depth result ≤ 12) × (id_size result ≤ 63) }
    {
        IdTree::of(self.stored.tree())
    }

    // `seed` and `none` are two functions, as they are two words of the rules.
    /// The id 1: every place.
    pub fn seed() -> TreePen
        ensures result { result ≡ pen_of on }
        ensures made { Yes (pen_made result) }
    {
        TreePen::of(IdTree::one())
    }

    /// The id 0: no place.
    pub fn none() -> TreePen
        ensures result { result ≡ pen_of off }
        ensures made { Yes (pen_made result) }
    {
        TreePen::of(IdTree::zero())
    }

    /// Parts the id into two halves with no place in common, and together all of
    /// its places. Refused with 11 exactly where the id is 0 or a half would be
    /// deeper than 12.
    pub fn fork(&self) -> Result<(TreePen, TreePen), Fault>
        requires made { Yes (pen_made self.now) }
        ensures result { result ≡ fork_answer self.now }
        ensures marks { IfOk result (λ h. Forked tree_kind self.now h.0 h.1) }
    {
        if cannot_split(self.id(), 12) {
            return Err(fault(Cause::CannotSplit));
        }
        // each half is written where it stays: nothing is written behind it, so the fillers there are left
        let mut halves = (TreePen::unwritten(), TreePen::unwritten());
        half_into(self.id(), Half::First, &mut halves.0.stored.nodes);
        half_into(self.id(), Half::Second, &mut halves.1.stored.nodes);
        Ok(halves)
    }

    /// The id with the places of both. Refused with 12 exactly where some place
    /// is 1 in both, else with 13 exactly where it has more than 63 nodes.
    #[tactic(auto, using(crate::proofs::Public::shapes))]
    pub fn unite(&self, other: &TreePen) -> Result<TreePen, Fault>
        requires made { (Yes (pen_made self.now)) × (Yes (pen_made other.now)) }
        ensures result { result ≡ unite_answer self.now other.now }
        ensures marks { IfOk result (λ p. United tree_kind self.now other.now p) }
    {
        // one place for the pen, whichever way it is made: a `Result` that comes from two is moved more often
        let mut made = TreePen::unwritten();
        let refusal = if self.id().size() + other.id().size() <= MOST_NODES + 1 {
            self.unite_in_place(other, &mut made)
        } else {
            self.unite_aside(other, &mut made)
        };
        match refusal {
            None => Ok(made),
            Some(cause) => Err(fault(cause)),
        }
    }

    // Unites two pens whose sum fits where it stays.
    #[inline(always)]
    #[tactic(auto, using(crate::proofs::Public::shapes))]
    fn unite_in_place(&self, other: &TreePen, made: &mut TreePen) -> Option<Cause>
        requires made { (Yes (pen_made self.now)) × (Yes (pen_made other.now)) }
        requires small { id_size (id_of self.now) + id_size (id_of other.now) ≤ 64 }
        ensures { answered result made.new ≡ unite_answer self.now other.now }
    {
        let Some(n) = sum_into(self.id(), other.id(), &mut made.stored.nodes) else {
            return Some(Cause::PensOverlap);
        };
        made.stored.trim(n);
        None
    }

    // Unites any two. Not inlined, so that `unite` does not lay out its places.
    #[inline(never)]
    #[tactic(auto, using(crate::proofs::Public::shapes))]
    fn unite_aside(&self, other: &TreePen, made: &mut TreePen) -> Option<Cause>
        requires { (Yes (pen_made self.now)) × (Yes (pen_made other.now)) }
        ensures { answered result made.new ≡ unite_answer self.now other.now }
    {
        let mut out: [Node; ROOM] = fillers();
        let Some(n) = sum_into(self.id(), other.id(), &mut out) else {
            return Some(Cause::PensOverlap);
        };
        if n > MOST_NODES {
            return Some(Cause::PenTooLarge);
        }
        *made = TreePen::of(IdTree::of(Tree::front(&out, n)));
        None
    }

    /// Whether two pens are one value, which is so exactly where they may make
    /// the same marks.
    pub fn same(&self, other: &TreePen) -> bool
        requires made { (Yes (pen_made self.now)) × (Yes (pen_made other.now)) }
        ensures stored { (result ≡ true) ↔ (self.now ≡ other.now) }
        ensures marks { (result ≡ true) ↔ SameMakes self.now other.now }
    {
        // not `self == other`, which reads the fillers too: the times stand at `TreeClock::same`
        self.id().tree() == other.id().tree()
    }
}
