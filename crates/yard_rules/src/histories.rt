ghost use Rattle.yard_rules.specs.Law.{LawOf};

use clock::Clock;

/// The law of histories, for every list of calls on a yard of this clock kind
/// and payload type: verdicts compare the edits behind the copies, copies judged
/// equal hold the same payload, only drop loses an edit, and pens of different
/// berths have no mark in common. There is nothing to compute: the promise is
/// the contract.
pub fn history_law<C: Clock, P: Copy>()
    ensures { LawOf C.Clock.meaning P }
{}
