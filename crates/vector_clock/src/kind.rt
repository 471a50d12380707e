ghost use Rattle.vector_clock.specs.Vectors.{vector_kind};
ghost use Rattle.std.proofs.Common.{lit≤};
ghost use Rattle.vector_clock.specs.Laws.{vectors_sound};

use crate::clocks::Counts;
use crate::pens::Names;
use clock::{Clock, Fault, Verdict};

/// The number of names that the kind is used with.
pub const NAMES: usize = 16;

/// A pen of the kind: some of the names.
pub type VectorPen = Names<NAMES>;

/// A clock of the kind: a count for each name.
pub type VectorClock = Counts<NAMES>;

impl Clock for VectorClock {
    type Pen = VectorPen;

    ghost meaning = { vector_kind };

    ghost sound = { vectors_sound (lit≤ tt) };

    fn seed() -> VectorPen {
        Names::all()
    }

    fn no_pen() -> VectorPen {
        Names::none()
    }

    fn blank() -> VectorClock {
        Counts::zero()
    }

    fn fork(pen: &VectorPen) -> Result<(VectorPen, VectorPen), Fault> {
        pen.fork()
    }

    // As `Counts::event`.
    #[inline(always)]
    fn event(&self, pen: &VectorPen) -> Result<VectorClock, Fault> {
        Counts::event(self, pen)
    }

    fn join(&self, other: &VectorClock) -> Result<VectorClock, Fault> {
        Ok(Counts::join(self, other))
    }

    fn covers(&self, other: &VectorClock) -> bool {
        Counts::covers(self, other)
    }

    fn unite(pen: &VectorPen, other: &VectorPen) -> Result<VectorPen, Fault> {
        pen.unite(other)
    }

    fn compare(&self, other: &VectorClock) -> Verdict {
        Counts::compare(self, other)
    }
}
