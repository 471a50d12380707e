ghost use Rattle.std.specs.Prelude.{◌≡◌, ◌≤◌, false, IfOk};
ghost use Rattle.clock.specs.Answers.{answered};
ghost use Rattle.clock.specs.Meaning.{Yes};
ghost use Rattle.clock.specs.Sound.{Evented};
ghost use Rattle.tree_rules.specs.Events.{size as size_of, top};
ghost use Rattle.tree_rules.specs.Grow.{grow as grow_of};
ghost use Rattle.tree_rules.specs.Ids.{NormalId, id_depth, is_off};
ghost use Rattle.tree_clock.specs.Growth.{past_limits};
ghost use Rattle.tree_clock.specs.Operations.{event_answer};
ghost use Rattle.tree_clock.specs.Stored.{clock_of, pen_made, clock_made, tree_kind};

use crate::clocks::TreeClock;
use crate::fault::fault;
use crate::fill::fill_into;
use crate::grow::grow_leaf;
use crate::ids::IdTree;
use crate::nodes::{MOST_NODES, MOST_VALUE, Node, ROOM, fillers};
use crate::pens::TreePen;
use crate::stored::Stored;
use crate::tree::Tree;
use clock::{Cause, Fault};

impl TreeClock {
    /// The tree with at least one more mark of the pen's: filled where filling
    /// changes it, else grown. Refused with 14 exactly where the id is 0, else
    /// with 15 exactly where it has more than 63 nodes, else with 16 exactly
    /// where a value passes 65,535.
    pub fn event(&self, pen: &TreePen) -> Result<TreeClock, Fault>
        requires made { (Yes (clock_made self.now)) × (Yes (pen_made pen.now)) }
        ensures result { result ≡ event_answer pen.now self.now }
        ensures marks { IfOk result (λ c. Evented tree_kind pen.now self.now c) }
    {
        // one place for the clock, whichever way it is made: a `Result` that comes from two is moved more often
        let mut made = TreeClock {
            stored: Stored::fillers(),
        };
        match self.event_into(pen, &mut made) {
            None => Ok(made),
            Some(cause) => Err(fault(cause)),
        }
    }

    // Leaves in `made` the clock after the event, or answers why there is none.
    #[inline(always)]
    #[tactic(auto, using(crate::proofs::Public::fills))]
    fn event_into(&self, pen: &TreePen, made: &mut TreeClock) -> Option<Cause>
        requires made { (Yes (clock_made self.now)) × (Yes (pen_made pen.now)) }
        ensures { answered result made.new ≡ event_answer pen.now self.now }
    {
        if pen.id().is_zero() {
            return Some(Cause::PenSpent);
        }
        let n = fill_into(pen.id(), self.tree(), &mut made.stored.nodes);
        if Tree::front(&made.stored.nodes, n) == self.tree() {
            return grown(pen.id(), self.tree(), made);
        }
        made.stored.trim(n);
        None
    }
}

// Leaves in `made` the tree grown under the id, or answers why there is none. Here and below an id
// and a tree are two parameters: a pen's id and a clock's tree are two things.
// Not inlined: `event` would lay out the places that it needs, also where nothing grows.
#[inline(never)]
#[tactic(auto, using(crate::proofs::Public::grows))]
fn grown(id: IdTree, e: Tree, made: &mut TreeClock) -> Option<Cause>
    requires id { NormalId id × (id_depth id ≤ 12) × (is_off id ≡ false) }
    requires tree { (size_of e ≤ 63) × (top e ≤ 65535) }
    ensures { answered result made.new ≡
        answered (past_limits (grow_of id.entry e.entry)) (clock_of (grow_of id.entry e.entry)) }
{
    let mut out: [Node; ROOM] = fillers();
    let (n, value) = grow_leaf(id, e, 0, 12, &mut out);
    if n > MOST_NODES {
        return Some(Cause::ClockTooLarge);
    }
    if value > MOST_VALUE {
        return Some(Cause::AtLimit);
    }
    *made = TreeClock::of(&Tree::front(&out, n));
    None
}
