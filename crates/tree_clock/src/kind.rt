ghost use Rattle.tree_clock.specs.Stored.{tree_kind};
ghost use Rattle.tree_clock.specs.StoredSound.{tree_kind_sound};

use crate::clocks::TreeClock;
use crate::pens::TreePen;
use clock::{Clock, Fault, Verdict};

/// Interval tree clocks as a clock kind.
impl Clock for TreeClock {
    type Pen = TreePen;

    ghost meaning = { tree_kind };

    ghost sound = { tree_kind_sound };

    fn seed() -> TreePen {
        TreePen::seed()
    }

    fn no_pen() -> TreePen {
        TreePen::none()
    }

    fn blank() -> TreeClock {
        TreeClock::blank()
    }

    fn fork(pen: &TreePen) -> Result<(TreePen, TreePen), Fault> {
        pen.fork()
    }

    fn event(&self, pen: &TreePen) -> Result<TreeClock, Fault> {
        TreeClock::event(self, pen)
    }

    fn join(&self, other: &TreeClock) -> Result<TreeClock, Fault> {
        TreeClock::join(self, other)
    }

    fn covers(&self, other: &TreeClock) -> bool {
        TreeClock::covers(self, other)
    }

    fn unite(pen: &TreePen, other: &TreePen) -> Result<TreePen, Fault> {
        pen.unite(other)
    }

    fn compare(&self, other: &TreeClock) -> Verdict {
        TreeClock::compare(self, other)
    }
}
