ghost use Rattle.std.specs.Prelude.{◌≡◌, ◌<◌, [], length, if◌then◌else◌, nat_eq, OnOk};
ghost use Rattle.yard_rules.specs.Tables.{Made, working_berth, empty_berth};
ghost use Rattle.yard_rules.specs.Checks.{outcome};
ghost use Rattle.yard_rules.specs.Open.{opened_berths, opened_copies, open_result};
ghost use Rattle.yard_rules.specs.Law.{LawfulOpen};

use crate::blanks::blank_berth;
use crate::checks::check_sizes;
use crate::open_card::OpenCard;
use clock::{Clock, Fault};
use yard_rules::{Berth, Record, Sizes};

// Berth 0 works with the seed pen, the others are empty.
fn opening_berth<C: Clock>(b: usize) -> Berth<C::Pen>
    ensures { result
        ≡ (if nat_eq b 0 then working_berth C.meaning.seed else empty_berth C.meaning) }
{
    if b == 0 {
        Berth::working(C::seed())
    } else {
        blank_berth::<C>()
    }
}

fn open_berths<C: Clock>(berths: &mut [Berth<C::Pen>])
    ensures { berths.new ≡ opened_berths C.meaning berths.old }
{
    for (b, berth) in berths.iter_mut().enumerate() {
        *berth = opening_berth::<C>(b);
    }
}

// Each record of file f gets the empty clock and payload f.
fn open_copies<C: Clock, P: Copy>(copies: &mut [Record<C, P>], payloads: &[P])
    requires { 0 < length payloads.now }
    ensures { copies.new ≡ opened_copies C.meaning payloads.now copies.old }
{
    for (i, copy) in copies.iter_mut().enumerate() {
        let f = i % payloads.len();
        *copy = Record {
            clock: C::blank(),
            payload: payloads[f],
        };
    }
}

/// Opens a yard: one berth for each entry of `berths`, one file for each of
/// `payloads`, its opening payload. Every copy gets the empty clock; berth 0
/// works with the seed pen and the others are empty. Answers the card. Refused
/// with 1; then nothing is changed.
pub fn open<C: Clock, P: Copy>(
    berths: &mut [Berth<C::Pen>],
    copies: &mut [Record<C, P>],
    payloads: &[P],
) -> Result<OpenCard, Fault>
    ensures result { outcome result berths.new copies.new []
        ≡ open_result C.meaning berths.old copies.old payloads.now }
    ensures made { OnOk result (Made C.meaning berths.new copies.new) }
    ensures history { LawfulOpen C.meaning payloads.now (outcome result berths.new copies.new []) }
{
    let sizes = Sizes {
        berths: berths.len(),
        files: payloads.len(),
    };
    check_sizes(sizes, berths, copies)?;
    open_berths::<C>(berths);
    open_copies(copies, payloads);
    Ok(OpenCard { sizes })
}
