ghost use Rattle.std.specs.Prelude.{◌≡◌, []};
ghost use Rattle.yard_rules.specs.Tables.{Made};
ghost use Rattle.yard_rules.specs.Checks.{outcome};
ghost use Rattle.yard_rules.specs.Edit.{edit_result, edit_call};
ghost use Rattle.yard_rules.specs.Law.{LawfulAt};

use crate::cards::Card;
use crate::checks::check_copy;
use crate::fault_places::Place;
use crate::open_card::OpenCard;
use crate::records::place;
use clock::{Clock, Fault};
use yard_rules::{Berth, Record, Sizes};

/// Working berth `a` writes `payload` into its copy of file `f`, an event under
/// its pen. Refused with 1, 2, 3, 5, and the kind's 14 to 16.
pub fn edit<C: Clock, P: Copy>(
    card: &OpenCard,
    berths: &[Berth<C::Pen>],
    copies: &mut [Record<C, P>],
    a: usize,
    f: usize,
    payload: P,
) -> Result<(), Fault>
    requires made { Made C.meaning berths.now copies.old }
    ensures result { outcome result berths.now copies.new []
        ≡ edit_result C.meaning card.now berths.now copies.old a f payload }
    ensures made { Made C.meaning berths.now copies.new }
    ensures history { LawfulAt C.meaning (edit_call card.now a f payload) berths.now copies.old
        (outcome result berths.now copies.new []) }
{
    let sizes = card.sizes();
    check_copy(sizes, berths, copies, a, f)?;
    let i = place(sizes, a, f);
    let clock = copies[i].clock.event(&berths[a].pen).at(a, f)?;
    copies[i] = Record { clock, payload };
    Ok(())
}
