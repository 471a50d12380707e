ghost use Rattle.std.specs.Prelude.{◌≡◌, ◌≤◌, length};
ghost use Rattle.yard_rules.specs.Tables.{Made, judged, reported};
ghost use Rattle.yard_rules.specs.Checks.{outcome};
ghost use Rattle.yard_rules.specs.Report.{report_checks, report_result, report_call};
ghost use Rattle.yard_rules.specs.Report.{counts, twins as twins_of};
ghost use Rattle.yard_rules.specs.Law.{LawfulCall};
ghost use Rattle.yard.specs.Passing.{all_pass};
ghost use Rattle.yard.specs.Ready.{Ready};
ghost use Rattle.yard.specs.Entries.{Clocks};

use crate::cards::Card;
use crate::checks::{check_berth, check_buffer, check_sizes, check_working};
use crate::counting::count_verdict;
use crate::records::row;
use clock::{Clock, Fault, Verdict};
use payload::Payload;
use yard_rules::{Berth, Record, Sizes};

fn check_report<Q, C, P>(
    sizes: Sizes,
    berths: &[Berth<Q>],
    copies: &[Record<C, P>],
    bytes: &[u8],
    a: usize,
    b: usize,
) -> Result<(), Fault>
    ensures { result ≡ all_pass (report_checks sizes berths.now copies.now a b bytes.now) }
{
    check_sizes(sizes, berths, copies)?;
    check_berth(sizes, a)?;
    check_berth(sizes, b)?;
    check_working(berths, a)?;
    check_working(berths, b)?;
    check_buffer(sizes, bytes)
}

// `bytes[f]`, and no zip with `iter_mut`: after that the check knows nothing of the bytes.
fn report_files<C: Clock, P: Payload>(
    sizes: Sizes,
    copies: &[Record<C, P>],
    bytes: &mut [u8],
    a: usize,
    b: usize,
) -> (usize, usize, usize, usize, usize)
    requires ready { (Ready sizes sizes.berths (length copies.now) a b)
        × (sizes.files ≤ length bytes.old) }
    requires made { Clocks C.meaning copies.now }
    ensures bytes { bytes.new
        ≡ reported sizes.files (judged C.meaning sizes.files copies.now a b) bytes.old }
    ensures counts { result
        ≡ counts sizes.files (judged C.meaning sizes.files copies.now a b)
        (twins_of sizes.files copies.now P.same a b) }
{
    let mut twins = 0;
    let pairs = copies[row(sizes, a)].iter().zip(&copies[row(sizes, b)]);
    for (f, (mine, theirs)) in pairs.enumerate() {
        let verdict = mine.clock.compare(&theirs.clock);
        bytes[f] = verdict.into();
        if verdict == Verdict::Conflict && mine.payload.alike(&theirs.payload) {
            twins += 1;
        }
    }
    let written = &bytes[..sizes.files];
    let equal = count_verdict(written, Verdict::Equal);
    let stale = count_verdict(written, Verdict::Stale);
    let ahead = count_verdict(written, Verdict::Ahead);
    let conflicts = count_verdict(written, Verdict::Conflict);
    (equal, stale, ahead, conflicts, twins)
}

fn report_sized<C: Clock, P: Payload>(
    sizes: Sizes,
    berths: &[Berth<C::Pen>],
    copies: &[Record<C, P>],
    bytes: &mut [u8],
    a: usize,
    b: usize,
) -> Result<(usize, usize, usize, usize, usize), Fault>
    requires { Made C.meaning berths.now copies.now }
    ensures { outcome result berths.now copies.now bytes.new
        ≡ report_result C.meaning sizes berths.now copies.now P.same a b bytes.old }
{
    check_report(sizes, berths, copies, bytes, a, b)?;
    Ok(report_files(sizes, copies, bytes, a, b))
}

/// The verdict on each of berth `a`'s copies against `b`'s: byte f of the buffer
/// is that on file f, later bytes stay. Answers how many are equal, stale,
/// ahead, in conflict, and how many of those last are twins, with payloads
/// alike. `a` may be `b`. Refused with 1, 2, 5, 6.
pub fn report<K: Card, C: Clock, P: Payload>(
    card: &K,
    berths: &[Berth<C::Pen>],
    copies: &[Record<C, P>],
    bytes: &mut [u8],
    a: usize,
    b: usize,
) -> Result<(usize, usize, usize, usize, usize), Fault>
    requires made { Made C.meaning berths.now copies.now }
    ensures result { outcome result berths.now copies.now bytes.new
        ≡ report_result C.meaning (K.sizes card.now) berths.now copies.now P.same a b bytes.old }
    ensures history { LawfulCall C.meaning P.same (report_call (K.sizes card.now) a b bytes.old)
        berths.now copies.now (outcome result berths.now copies.now bytes.new) }
{
    report_sized(card.sizes(), berths, copies, bytes, a, b)
}
