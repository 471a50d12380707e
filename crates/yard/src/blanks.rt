ghost use Rattle.std.specs.Prelude.{◌≡◌};
ghost use Rattle.yard_rules.specs.Tables.{empty_berth};

use clock::Clock;
use yard_rules::{Berth, Record, State};

/// An empty berth, to lay out a berth table with.
pub fn blank_berth<C: Clock>() -> Berth<C::Pen>
    ensures { result ≡ empty_berth C.meaning }
{
    Berth {
        state: State::Empty,
        pen: C::no_pen(),
    }
}

/// A copy with the empty clock and this payload, to lay out a copy table with.
pub fn blank_copy<C: Clock, P: Copy>(payload: P) -> Record<C, P>
    ensures { result ≡ record { clock = C.meaning.blank; payload = payload } }
{
    Record {
        clock: C::blank(),
        payload,
    }
}
