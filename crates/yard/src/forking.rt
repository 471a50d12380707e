ghost use Rattle.std.specs.Prelude.{◌≡◌, [], length, ◌≢◌};
ghost use Rattle.yard_rules.specs.Tables.{Made, row, copy_from};
ghost use Rattle.yard_rules.specs.Checks.{outcome};
ghost use Rattle.yard_rules.specs.Fork.{fork_plain, fork_result, fork_call};
ghost use Rattle.yard_rules.specs.Law.{LawfulAt};
ghost use Rattle.yard.specs.Passing.{all_pass};
ghost use Rattle.yard.specs.Ready.{Ready};

use crate::cards::Card;
use crate::checks::{check_berth, check_empty, check_sizes, check_two, check_working};
use crate::fault_places::Place;
use crate::open_card::OpenCard;
use crate::records::row;
use clock::{Clock, Fault};
use yard_rules::{Berth, Record, Sizes};

fn check_fork<Q, C, P>(
    sizes: Sizes,
    berths: &[Berth<Q>],
    copies: &[Record<C, P>],
    a: usize,
    b: usize,
) -> Result<(), Fault>
    ensures { result ≡ all_pass (fork_plain sizes berths.now copies.now a b) }
{
    check_sizes(sizes, berths, copies)?;
    check_berth(sizes, a)?;
    check_berth(sizes, b)?;
    check_two(a, b)?;
    check_working(berths, a)?;
    check_empty(berths, b)
}

// Berth b gets a's copies.
fn copy_files<C: Copy, P: Copy>(sizes: Sizes, copies: &mut [Record<C, P>], a: usize, b: usize)
    requires { (Ready sizes sizes.berths (length copies.old) a b) × (a ≢ b) }
    ensures { copies.new ≡ row sizes.files copies.old b (copy_from sizes.files copies.old a) }
{
    copies.copy_within(row(sizes, a), row(sizes, b).start);
}

// The fork, under a card of these sizes.
fn fork_sized<C: Clock, P: Copy>(
    sizes: Sizes,
    berths: &mut [Berth<C::Pen>],
    copies: &mut [Record<C, P>],
    a: usize,
    b: usize,
) -> Result<(), Fault>
    requires made { Made C.meaning berths.old copies.old }
    ensures { outcome result berths.new copies.new []
        ≡ fork_result C.meaning sizes berths.old copies.old a b }
{
    check_fork(sizes, berths, copies, a, b)?;
    let halves = C::fork(&berths[a].pen).at_berth(a)?;
    berths[a] = Berth::working(halves.0);
    berths[b] = Berth::working(halves.1);
    copy_files(sizes, copies, a, b);
    Ok(())
}

/// A new replica of working berth `a` in empty berth `b`: `a` keeps the first
/// half of its pen, `b` works with the second and gets a's copies. Refused with
/// 1, 2, 4, 5, and the kind's 11.
pub fn fork<C: Clock, P: Copy>(
    card: &OpenCard,
    berths: &mut [Berth<C::Pen>],
    copies: &mut [Record<C, P>],
    a: usize,
    b: usize,
) -> Result<(), Fault>
    requires made { Made C.meaning berths.old copies.old }
    ensures result { outcome result berths.new copies.new []
        ≡ fork_result C.meaning card.now berths.old copies.old a b }
    ensures made { Made C.meaning berths.new copies.new }
    ensures history { LawfulAt C.meaning (fork_call card.now a b) berths.old copies.old
        (outcome result berths.new copies.new []) }
{
    fork_sized(card.sizes(), berths, copies, a, b)
}
