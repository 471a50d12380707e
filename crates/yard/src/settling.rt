ghost use Rattle.std.specs.Prelude.{◌≡◌, not, [], Some, None};
ghost use Rattle.clock.specs.Answers.{due};
ghost use Rattle.clock.specs.declared.causes.Cause.TheVariants.{NoConflict};
ghost use Rattle.yard_rules.specs.Tables.{is_conflict, Made};
ghost use Rattle.yard_rules.specs.Checks.{fault, outcome};
ghost use Rattle.yard_rules.specs.Settle.{settle_plain, settle_result, settle_call};
ghost use Rattle.yard_rules.specs.Law.{LawfulAt};
ghost use Rattle.yard.specs.Passing.{passing, all_pass};

use crate::cards::Card;
use crate::checks::{check_berth, check_file, check_sizes, check_two, check_working, refuse_if};
use crate::fault_places::Place;
use crate::open_card::OpenCard;
use crate::records::place;
use clock::{Cause, Clock, Fault, Verdict};
use yard_rules::{Berth, Record, Sizes};

fn check_settle<Q, C, P>(
    sizes: Sizes,
    berths: &[Berth<Q>],
    copies: &[Record<C, P>],
    a: usize,
    b: usize,
    f: usize,
) -> Result<(), Fault>
    ensures { result ≡ all_pass (settle_plain sizes berths.now copies.now a b f) }
{
    check_sizes(sizes, berths, copies)?;
    check_berth(sizes, a)?;
    check_berth(sizes, b)?;
    check_file(sizes, f)?;
    check_two(a, b)?;
    check_working(berths, a)?;
    check_working(berths, b)
}

// 7: the copies are in conflict.
fn check_conflict(verdict: Verdict, b: usize, f: usize) -> Result<(), Fault>
    ensures { result
        ≡ passing (due (not (is_conflict verdict)) (fault NoConflict (Some b) (Some f))) }
{
    let fault = Fault::from(Cause::NoConflict).at_berth(b).at_file(f);
    refuse_if(verdict != Verdict::Conflict, fault)
}

/// Working berth `b` ends the conflict of its copy of file `f` with `a`'s: its
/// clock becomes the join of the two and an event on it, its payload the one
/// given. Refused with 1 to 5, 7, join's 15, then event's 14 to 16.
pub fn settle<C: Clock, P: Copy>(
    card: &OpenCard,
    berths: &[Berth<C::Pen>],
    copies: &mut [Record<C, P>],
    a: usize,
    b: usize,
    f: usize,
    payload: P,
) -> Result<(), Fault>
    requires made { Made C.meaning berths.now copies.old }
    ensures result { outcome result berths.now copies.new []
        ≡ settle_result C.meaning card.now berths.now copies.old a b f payload }
    ensures made { Made C.meaning berths.now copies.new }
    ensures history { LawfulAt C.meaning (settle_call card.now a b f payload) berths.now copies.old
        (outcome result berths.now copies.new []) }
{
    let sizes = card.sizes();
    check_settle(sizes, berths, copies, a, b, f)?;
    let i = place(sizes, b, f);
    let j = place(sizes, a, f);
    let theirs = copies[j].clock;
    let ours = copies[i].clock;
    check_conflict(ours.compare(&theirs), b, f)?;
    let joined = ours.join(&theirs).at(b, f)?;
    let clock = joined.event(&berths[b].pen).at(b, f)?;
    copies[i] = Record { clock, payload };
    Ok(())
}
