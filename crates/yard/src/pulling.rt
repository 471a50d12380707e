ghost use Rattle.std.specs.Prelude.{◌≡◌, ◌≤◌, length, ◌≢◌};
ghost use Rattle.yard_rules.specs.Tables.{Made, row, newer_from, judged, reported, count};
ghost use Rattle.yard_rules.specs.Tables.{is_stale, is_conflict};
ghost use Rattle.yard_rules.specs.Checks.{outcome};
ghost use Rattle.yard_rules.specs.Pull.{pull_checks, pull_result, pull_call};
ghost use Rattle.yard_rules.specs.Law.{LawfulAt};
ghost use Rattle.yard.specs.Passing.{all_pass};
ghost use Rattle.yard.specs.Ready.{Ready};
ghost use Rattle.yard.specs.Entries.{Clocks};

use crate::cards::Card;
use crate::checks::check_buffer;
use crate::counting::count_verdict;
use crate::open_card::OpenCard;
use crate::records::row;
use crate::taking::{check_two_working, take_newer};
use clock::{Clock, Fault, Verdict};
use yard_rules::{Berth, Record, Sizes};

fn check_pull<Q, C, P>(
    sizes: Sizes,
    berths: &[Berth<Q>],
    copies: &[Record<C, P>],
    bytes: &[u8],
    a: usize,
    b: usize,
) -> Result<(), Fault>
    ensures { result ≡ all_pass (pull_checks sizes berths.now copies.now a b bytes.now) }
{
    check_two_working(sizes, berths, copies, a, b)?;
    check_buffer(sizes, bytes)
}

// The places of both rows, as in `take_files`. `bytes[f]`, and no zip with `iter_mut`: after that
// the check knows nothing of the bytes.
fn pull_files<C: Clock, P: Copy>(
    sizes: Sizes,
    copies: &mut [Record<C, P>],
    bytes: &mut [u8],
    a: usize,
    b: usize,
) -> (usize, usize)
    requires ready { (Ready sizes sizes.berths (length copies.old) a b)
        × ((a ≢ b) × (sizes.files ≤ length bytes.old)) }
    requires made { Clocks C.meaning copies.old }
    ensures copies { copies.new
        ≡ row sizes.files copies.old b (newer_from sizes.files copies.old C.meaning a b) }
    ensures bytes { bytes.new
        ≡ reported sizes.files (judged C.meaning sizes.files copies.old b a) bytes.old }
    ensures taken { result.0
        ≡ count sizes.files (λ f. is_stale (judged C.meaning sizes.files copies.old b a f)) }
    ensures conflicts { result.1
        ≡ count sizes.files (λ f. is_conflict (judged C.meaning sizes.files copies.old b a f)) }
{
    for (f, (i, j)) in row(sizes, b).zip(row(sizes, a)).enumerate() {
        bytes[f] = take_newer(copies, i, j).into();
    }
    let written = &bytes[..sizes.files];
    let taken = count_verdict(written, Verdict::Stale);
    let conflicts = count_verdict(written, Verdict::Conflict);
    (taken, conflicts)
}

// The pull, under a card of these sizes.
fn pull_sized<C: Clock, P: Copy>(
    sizes: Sizes,
    berths: &[Berth<C::Pen>],
    copies: &mut [Record<C, P>],
    bytes: &mut [u8],
    a: usize,
    b: usize,
) -> Result<(usize, usize), Fault>
    requires made { Made C.meaning berths.now copies.old }
    ensures { outcome result berths.now copies.new bytes.new
        ≡ pull_result C.meaning sizes berths.now copies.old a b bytes.old }
{
    check_pull(sizes, berths, copies, bytes, a, b)?;
    Ok(pull_files(sizes, copies, bytes, a, b))
}

/// Working berth `b` takes `a`'s copy of each file in which it is stale. Byte f
/// of the buffer becomes the verdict on b's copy of file f against a's
/// beforehand; later bytes stay. Answers how many copies were taken and how many
/// files are in conflict. Refused with 1, 2, 4, 5, 6.
pub fn pull<C: Clock, P: Copy>(
    card: &OpenCard,
    berths: &[Berth<C::Pen>],
    copies: &mut [Record<C, P>],
    bytes: &mut [u8],
    a: usize,
    b: usize,
) -> Result<(usize, usize), Fault>
    requires made { Made C.meaning berths.now copies.old }
    ensures result { outcome result berths.now copies.new bytes.new
        ≡ pull_result C.meaning card.now berths.now copies.old a b bytes.old }
    ensures made { Made C.meaning berths.now copies.new }
    ensures history { LawfulAt C.meaning (pull_call card.now a b bytes.old) berths.now copies.old
        (outcome result berths.now copies.new bytes.new) }
{
    pull_sized(card.sizes(), berths, copies, bytes, a, b)
}
