ghost use Rattle.std.specs.Prelude.{◌≡◌, []};
ghost use Rattle.yard_rules.specs.Tables.{Made};
ghost use Rattle.yard_rules.specs.Checks.{outcome};
ghost use Rattle.yard_rules.specs.Drop.{drop_checks, drop_result, drop_call};
ghost use Rattle.yard_rules.specs.Law.{LawfulAt};
ghost use Rattle.yard.specs.Passing.{all_pass};

use crate::blanks::blank_berth;
use crate::cards::Card;
use crate::checks::{check_berth, check_sizes, check_working};
use crate::open_card::OpenCard;
use clock::{Clock, Fault};
use yard_rules::{Berth, Record, Sizes};

fn check_drop<Q, C, P>(
    sizes: Sizes,
    berths: &[Berth<Q>],
    copies: &[Record<C, P>],
    a: usize,
) -> Result<(), Fault>
    ensures { result ≡ all_pass (drop_checks sizes berths.now copies.now a) }
{
    check_sizes(sizes, berths, copies)?;
    check_berth(sizes, a)?;
    check_working(berths, a)
}

// The drop, under a card of these sizes.
fn drop_sized<C: Clock, P: Copy>(
    sizes: Sizes,
    berths: &mut [Berth<C::Pen>],
    copies: &[Record<C, P>],
    a: usize,
) -> Result<(), Fault>
    requires made { Made C.meaning berths.old copies.now }
    ensures { outcome result berths.new copies.now []
        ≡ drop_result C.meaning sizes berths.old copies.now a }
{
    check_drop(sizes, berths, copies, a)?;
    berths[a] = blank_berth::<C>();
    Ok(())
}

/// Berth `a`, in use, becomes empty; its records stay. What only its copies
/// had is lost. Refused with 1, 2, 5.
pub fn drop<C: Clock, P: Copy>(
    card: &OpenCard,
    berths: &mut [Berth<C::Pen>],
    copies: &[Record<C, P>],
    a: usize,
) -> Result<(), Fault>
    requires made { Made C.meaning berths.old copies.now }
    ensures result { outcome result berths.new copies.now []
        ≡ drop_result C.meaning card.now berths.old copies.now a }
    ensures made { Made C.meaning berths.new copies.now }
    ensures history { LawfulAt C.meaning (drop_call card.now a) berths.old copies.now
        (outcome result berths.new copies.now []) }
{
    drop_sized(card.sizes(), berths, copies, a)
}
