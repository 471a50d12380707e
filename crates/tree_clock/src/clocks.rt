ghost use Rattle.std.specs.Prelude.{◌≡◌, ◌≤◌, true, ◌↔◌, IfOk};
ghost use Rattle.clock.specs.Compare.{ComparesMarks};
ghost use Rattle.clock.specs.Meaning.{Yes};
ghost use Rattle.clock.specs.Sound.{Joined, Within};
ghost use Rattle.tree_rules.specs.Events.{leaf, size, top, Normal};
ghost use Rattle.tree_clock.specs.Operations.{join_answer, covers_answer, verdict_answer};
ghost use Rattle.tree_clock.specs.Stored.{clock_of, event_of, clock_made, SameKnows, tree_kind};

use crate::covers::covers_from;
use crate::fault::fault;
use crate::join::join_into;
use crate::nodes::{MOST_NODES, Node, ROOM, fillers};
use crate::stored::Stored;
use crate::tree::Tree;
use clock::{Cause, Fault, Verdict};

/// A clock of the tree kind: an event tree, which says how many marks are known
/// at each of the 4,096 places. Only this crate makes one.
// It and `TreePen` are two structs, so that a clock cannot be taken for a pen.
#[derive(Clone, Copy, PartialEq, Eq, Debug)]
pub struct TreeClock {
    pub(crate) stored: Stored,
}

// That a clock is well made stands in clauses: pens and clocks are plain data with no invariant in
// their types, a rule of the project.
impl TreeClock {
    // The clock that holds a tree.
    pub(crate) fn of(tree: &Tree) -> TreeClock
        requires { size tree.now ≤ 63 }
        ensures { result ≡ clock_of tree.now }
    {
        TreeClock {
            stored: Stored::of(tree),
        }
    }

    // The tree that the clock holds.
    pub(crate) fn tree(&self) -> Tree
        requires { Yes (clock_made self.now) }
        ensures tree { result ≡ event_of self.now }
        ensures limits { Normal result × (size result ≤ 63) × (top result ≤ 65535) }
    {
        self.stored.tree()
    }

    /// The tree 0, which knows no mark.
    pub fn blank() -> TreeClock
        ensures result { result ≡ clock_of (leaf 0) }
        ensures made { Yes (clock_made result) }
    {
        TreeClock::of(&Tree::zero())
    }

    /// The tree that knows exactly what either knows. Refused with 15 exactly
    /// where it has more than 63 nodes.
    pub fn join(&self, other: &TreeClock) -> Result<TreeClock, Fault>
        requires made { (Yes (clock_made self.now)) × (Yes (clock_made other.now)) }
        ensures result { result ≡ join_answer self.now other.now }
        ensures marks { IfOk result (λ c. Joined tree_kind self.now other.now c) }
    {
        let mut out: [Node; ROOM] = fillers();
        let n = join_into(self.tree(), 0, other.tree(), 0, &mut out);
        if n > MOST_NODES {
            return Err(fault(Cause::ClockTooLarge));
        }
        Ok(TreeClock::of(&Tree::front(&out, n)))
    }

    /// Whether this tree's value is at least the other's at every place. Never refused.
    pub fn covers(&self, other: &TreeClock) -> bool
        requires made { (Yes (clock_made self.now)) × (Yes (clock_made other.now)) }
        ensures result { result ≡ covers_answer self.now other.now }
        ensures marks { (result ≡ true) ↔ Within tree_kind other.now self.now }
    {
        covers_from(self.tree(), 0, other.tree(), 0)
    }

    /// Whether two clocks are one value, which is so exactly where they know
    /// the same marks.
    pub fn same(&self, other: &TreeClock) -> bool
        requires made { (Yes (clock_made self.now)) × (Yes (clock_made other.now)) }
        ensures stored { (result ≡ true) ↔ (self.now ≡ other.now) }
        ensures marks { (result ≡ true) ↔ SameKnows self.now other.now }
    {
        // not `self == other`, which reads the fillers too and tests each field by itself
        self.tree() == other.tree()
    }

    /// The verdict on this clock against the other.
    pub fn compare(&self, other: &TreeClock) -> Verdict
        requires made { (Yes (clock_made self.now)) × (Yes (clock_made other.now)) }
        ensures result { result ≡ verdict_answer self.now other.now }
        ensures marks { ComparesMarks tree_kind self.now other.now result }
    {
        // one value is the commonest case, and the cheapest to see
        if self.same(other) {
            return Verdict::Equal;
        }
        Verdict::of(self.covers(other), other.covers(self))
    }
}
