ghost use Rattle.std.specs.Prelude.{◌≡◌};
ghost use Rattle.yard_rules.specs.declared.calls.Call.TheVariants.{Reads, Writes};
ghost use Rattle.yard_rules.specs.Tables.{Made};
ghost use Rattle.yard_rules.specs.Checks.{outcome};
ghost use Rattle.yard_rules.specs.Page.{asked};
ghost use Rattle.yard_rules.specs.Calls.{leaves, said};
ghost use Rattle.yard_rules.specs.Law.{LawfulCall};

use crate::cards::Card;
use crate::dropping::drop;
use crate::editing::edit;
use crate::forking::fork;
use crate::judging::judge;
use crate::open_card::OpenCard;
use crate::pulling::pull;
use crate::reporting::report;
use crate::retiring::retire;
use crate::settling::settle;
use crate::showing::show;
use crate::telling::{done, judged, pulled, reported, shown};
use clock::{Clock, Fault};
use payload::Payload;
use yard_rules::{Answer, Berth, Reading, Record, Writing};

/// Carries out any call that reads: what its own function answers, as a value
/// of the one type of answers, and leaves.
pub fn read<K: Card, C: Clock, P: Payload>(
    card: &K,
    berths: &[Berth<C::Pen>],
    copies: &[Record<C, P>],
    bytes: &mut [u8],
    call: Reading,
) -> Result<Answer<C::Pen, C>, Fault>
    requires made { Made C.meaning berths.now copies.now }
    ensures result { let q = asked (K.sizes card.now) (Reads call) bytes.old in
        outcome result berths.now copies.now bytes.new
        ≡ said C.meaning P.same q berths.now copies.now }
    ensures history { let q = asked (K.sizes card.now) (Reads call) bytes.old in
        LawfulCall C.meaning P.same q berths.now copies.now
        (leaves C.meaning P.same q berths.now copies.now) }
{
    read_call(card, berths, copies, bytes, call)
}

#[tactic(auto, using(crate::proofs::Carried::told_lent))]
fn read_call<K: Card, C: Clock, P: Payload>(
    card: &K,
    berths: &[Berth<C::Pen>],
    copies: &[Record<C, P>],
    bytes: &mut [u8],
    call: Reading,
) -> Result<Answer<C::Pen, C>, Fault>
    requires made { Made C.meaning berths.now copies.now }
    ensures { let q = asked (K.sizes card.now) (Reads call) bytes.old in
        outcome result berths.now copies.now bytes.new
        ≡ said C.meaning P.same q berths.now copies.now }
{
    match call {
        Reading::Judge { a, b, f } => judged(judge(card, berths, copies, a, b, f)),
        Reading::Report { a, b } => reported(report(card, berths, copies, bytes, a, b)),
        Reading::Show { a, f } => shown(show(card, berths, copies, a, f)),
    }
}

/// Carries out any call that writes: what its own function answers, as a value
/// of the one type of answers, and leaves.
pub fn write<C: Clock, P: Payload>(
    card: &OpenCard,
    berths: &mut [Berth<C::Pen>],
    copies: &mut [Record<C, P>],
    bytes: &mut [u8],
    call: Writing<P>,
) -> Result<Answer<C::Pen, C>, Fault>
    requires made { Made C.meaning berths.old copies.old }
    ensures result { let q = asked card.now (Writes call) bytes.old in
        outcome result berths.new copies.new bytes.new
        ≡ said C.meaning P.same q berths.old copies.old }
    ensures made { Made C.meaning berths.new copies.new }
    ensures history { let q = asked card.now (Writes call) bytes.old in
        LawfulCall C.meaning P.same q berths.old copies.old
        (leaves C.meaning P.same q berths.old copies.old) }
{
    write_call(card, berths, copies, bytes, call)
}

fn write_call<C: Clock, P: Payload>(
    card: &OpenCard,
    berths: &mut [Berth<C::Pen>],
    copies: &mut [Record<C, P>],
    bytes: &mut [u8],
    call: Writing<P>,
) -> Result<Answer<C::Pen, C>, Fault>
    requires made { Made C.meaning berths.old copies.old }
    ensures { let q = asked card.now (Writes call) bytes.old in
        outcome result berths.new copies.new bytes.new
        ≡ said C.meaning P.same q berths.old copies.old }
{
    match call {
        Writing::Fork { a, b } => done(fork(card, berths, copies, a, b)),
        Writing::Edit { a, f, payload } => done(edit(card, berths, copies, a, f, payload)),
        Writing::Pull { a, b } => pulled(pull(card, berths, copies, bytes, a, b)),
        Writing::Settle { a, b, f, payload } => {
            done(settle(card, berths, copies, a, b, f, payload))
        }
        Writing::Retire { a, b } => done(retire(card, berths, copies, a, b)),
        Writing::Drop { a } => done(drop(card, berths, copies, a)),
    }
}
