ghost use Rattle.pair_clock.specs.Kind.{pairs};
ghost use Rattle.pair_clock.specs.Laws.{pairs_sound};

use crate::clocks::PairClock;
use crate::pens::PairPen;
use clock::{Cause, Clock, Fault};

// The largest count.
const LIMIT: u16 = 65535;

// The halves of the seed.
const SHIP: PairPen = PairPen {
    ship: true,
    launch: false,
};

const LAUNCH: PairPen = PairPen {
    ship: false,
    launch: true,
};

/// Two counts as a clock kind. An event counts on the ship's line where the pen
/// has it and there is room, else on the launch's.
impl Clock for PairClock {
    type Pen = PairPen;

    ghost meaning = { pairs };

    ghost sound = { pairs_sound };

    fn seed() -> PairPen {
        PairPen {
            ship: true,
            launch: true,
        }
    }

    fn no_pen() -> PairPen {
        PairPen {
            ship: false,
            launch: false,
        }
    }

    fn blank() -> PairClock {
        PairClock { ship: 0, launch: 0 }
    }

    fn fork(pen: &PairPen) -> Result<(PairPen, PairPen), Fault> {
        if pen.ship && pen.launch {
            Ok((SHIP, LAUNCH))
        } else {
            Err(Cause::CannotSplit.into())
        }
    }

    fn event(&self, pen: &PairPen) -> Result<PairClock, Fault> {
        let PairClock { ship, launch } = *self;
        if !pen.ship && !pen.launch {
            Err(Cause::PenSpent.into())
        } else if pen.ship && ship < LIMIT {
            Ok(PairClock {
                ship: ship + 1,
                launch,
            })
        } else if pen.launch && launch < LIMIT {
            Ok(PairClock {
                ship,
                launch: launch + 1,
            })
        } else {
            Err(Cause::AtLimit.into())
        }
    }

    fn join(&self, other: &PairClock) -> Result<PairClock, Fault> {
        Ok(PairClock {
            ship: self.ship.max(other.ship),
            launch: self.launch.max(other.launch),
        })
    }

    fn covers(&self, other: &PairClock) -> bool {
        self.ship >= other.ship && self.launch >= other.launch
    }

    fn unite(pen: &PairPen, other: &PairPen) -> Result<PairPen, Fault> {
        if (pen.ship && other.ship) || (pen.launch && other.launch) {
            return Err(Cause::PensOverlap.into());
        }
        Ok(PairPen {
            ship: pen.ship || other.ship,
            launch: pen.launch || other.launch,
        })
    }
}
