ghost use Rattle.std.specs.Prelude.{◌≡◌, ◌<◌, [], ◌∷◌, ◌++◌, length, set};
ghost use Rattle.clock.specs.Answers.{answered};
ghost use Rattle.yard_rules.specs.Tables.{pen_at, working_berth, empty_berth, Made};
ghost use Rattle.yard_rules.specs.Checks.{outcome, some_conflict};
ghost use Rattle.yard_rules.specs.Retire.{retire_plain, retire_result, retire_call};
ghost use Rattle.yard_rules.specs.Law.{LawfulAt};
ghost use Rattle.yard.specs.Passing.{passing, all_pass};
ghost use Rattle.yard.specs.Ready.{Ready};
ghost use Rattle.yard.specs.Entries.{Clocks, Pens};

use crate::blanks::blank_berth;
use crate::cards::Card;
use crate::fault_places::Place;
use crate::open_card::OpenCard;
use crate::records::row;
use crate::taking::{check_two_working, take_files};
use clock::{Cause, Clock, Fault, Verdict};
use yard_rules::{Berth, Record, Sizes};

// 8: no file is in conflict.
fn check_calm<C: Clock, P: Copy>(
    sizes: Sizes,
    copies: &[Record<C, P>],
    a: usize,
    b: usize,
) -> Result<(), Fault>
    requires ready { Ready sizes sizes.berths (length copies.now) a b }
    requires made { Clocks C.meaning copies.now }
    ensures { result ≡ passing (some_conflict C.meaning sizes.files copies.now a b) }
{
    let pairs = copies[row(sizes, b)].iter().zip(&copies[row(sizes, a)]);
    for (f, (ours, theirs)) in pairs.enumerate() {
        if ours.clock.compare(&theirs.clock) == Verdict::Conflict {
            return Err(Fault::from(Cause::InConflict).at_berth(b).at_file(f));
        }
    }
    Ok(())
}

fn check_retire<C: Clock, P: Copy>(
    sizes: Sizes,
    berths: &[Berth<C::Pen>],
    copies: &[Record<C, P>],
    a: usize,
    b: usize,
) -> Result<(), Fault>
    requires { Clocks C.meaning copies.now }
    ensures { result ≡ all_pass (retire_plain sizes berths.now copies.now a b
        ++ (some_conflict C.meaning sizes.files copies.now a b ∷ [])) }
{
    check_two_working(sizes, berths, copies, a, b)?;
    check_calm(sizes, copies, a, b)
}

fn united_pen<C: Clock>(berths: &[Berth<C::Pen>], a: usize, b: usize) -> Result<C::Pen, Fault>
    requires berths { (a < length berths.now) × (b < length berths.now) }
    requires made { Pens C.meaning berths.now }
    ensures { result ≡ answered
        (C.meaning.unite_due (pen_at C.meaning berths.now a) (pen_at C.meaning berths.now b))
        (C.meaning.united (pen_at C.meaning berths.now a) (pen_at C.meaning berths.now b)) }
{
    C::unite(&berths[a].pen, &berths[b].pen)
}

// Berth b works with the pen, and berth a becomes empty.
fn hand_over<C: Clock>(berths: &mut [Berth<C::Pen>], a: usize, b: usize, pen: C::Pen)
    requires { (a < length berths.old) × (b < length berths.old) }
    ensures { berths.new ≡ set (set berths.old b (working_berth pen)) a (empty_berth C.meaning) }
{
    berths[b] = Berth::working(pen);
    berths[a] = blank_berth::<C>();
}

// The retiring, under a card of these sizes.
fn retire_sized<C: Clock, P: Copy>(
    sizes: Sizes,
    berths: &mut [Berth<C::Pen>],
    copies: &mut [Record<C, P>],
    a: usize,
    b: usize,
) -> Result<(), Fault>
    requires made { Made C.meaning berths.old copies.old }
    ensures { outcome result berths.new copies.new []
        ≡ retire_result C.meaning sizes berths.old copies.old a b }
{
    check_retire(sizes, berths, copies, a, b)?;
    let pen = united_pen::<C>(berths, a, b).at_berth(b)?;
    hand_over::<C>(berths, a, b, pen);
    take_files(sizes, copies, a, b);
    Ok(())
}

/// Working berth `a` hands its pen and its copies to working berth `b` and
/// becomes empty: b's stale copies are replaced by a's, and b gets the united
/// pen. Refused with 1, 2, 4, 5, 8 where some file is in conflict (the lowest),
/// and the kind's 12 and 13.
pub fn retire<C: Clock, P: Copy>(
    card: &OpenCard,
    berths: &mut [Berth<C::Pen>],
    copies: &mut [Record<C, P>],
    a: usize,
    b: usize,
) -> Result<(), Fault>
    requires made { Made C.meaning berths.old copies.old }
    ensures result { outcome result berths.new copies.new []
        ≡ retire_result C.meaning card.now berths.old copies.old a b }
    ensures made { Made C.meaning berths.new copies.new }
    ensures history { LawfulAt C.meaning (retire_call card.now a b) berths.old copies.old
        (outcome result berths.new copies.new []) }
{
    retire_sized(card.sizes(), berths, copies, a, b)
}
