ghost use Rattle.std.specs.Prelude.{◌≡◌, []};
ghost use Rattle.yard_rules.specs.Tables.{Made};
ghost use Rattle.yard_rules.specs.Checks.{outcome};
ghost use Rattle.yard_rules.specs.Show.{show_result, show_call};
ghost use Rattle.yard_rules.specs.Law.{LawfulAt};

use crate::cards::Card;
use crate::checks::check_copy;
use crate::records::place;
use clock::{Clock, Fault};
use yard_rules::{Berth, Record, Sizes};

fn show_sized<C: Clock, P: Copy>(
    sizes: Sizes,
    berths: &[Berth<C::Pen>],
    copies: &[Record<C, P>],
    a: usize,
    f: usize,
) -> Result<(C::Pen, C), Fault>
    ensures { outcome result berths.now copies.now []
        ≡ show_result C.meaning sizes berths.now copies.now a f }
{
    check_copy(sizes, berths, copies, a, f)?;
    let i = place(sizes, a, f);
    Ok((berths[a].pen, copies[i].clock))
}

/// The pen of berth `a`, which is in use, and the clock of its copy of file `f`.
/// Refused with 1, 2, 3, 5.
pub fn show<K: Card, C: Clock, P: Copy>(
    card: &K,
    berths: &[Berth<C::Pen>],
    copies: &[Record<C, P>],
    a: usize,
    f: usize,
) -> Result<(C::Pen, C), Fault>
    requires made { Made C.meaning berths.now copies.now }
    ensures result { outcome result berths.now copies.now []
        ≡ show_result C.meaning (K.sizes card.now) berths.now copies.now a f }
    ensures history { LawfulAt C.meaning (show_call (K.sizes card.now) a f) berths.now copies.now
        (outcome result berths.now copies.now []) }
{
    show_sized(card.sizes(), berths, copies, a, f)
}
