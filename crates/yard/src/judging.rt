ghost use Rattle.std.specs.Prelude.{◌≡◌, []};
ghost use Rattle.yard_rules.specs.Tables.{Made};
ghost use Rattle.yard_rules.specs.Checks.{outcome};
ghost use Rattle.yard_rules.specs.Judge.{judge_checks, judge_result, judge_call};
ghost use Rattle.yard_rules.specs.Law.{LawfulAt};
ghost use Rattle.yard.specs.Passing.{all_pass};

use crate::cards::Card;
use crate::checks::{check_berth, check_file, check_sizes, check_working};
use crate::records::place;
use clock::{Clock, Fault, Verdict};
use yard_rules::{Berth, Record, Sizes};

fn check_judge<Q, C, P>(
    sizes: Sizes,
    berths: &[Berth<Q>],
    copies: &[Record<C, P>],
    a: usize,
    b: usize,
    f: usize,
) -> Result<(), Fault>
    ensures { result ≡ all_pass (judge_checks sizes berths.now copies.now a b f) }
{
    check_sizes(sizes, berths, copies)?;
    check_berth(sizes, a)?;
    check_berth(sizes, b)?;
    check_file(sizes, f)?;
    check_working(berths, a)?;
    check_working(berths, b)
}

fn judge_sized<C: Clock, P: Copy>(
    sizes: Sizes,
    berths: &[Berth<C::Pen>],
    copies: &[Record<C, P>],
    a: usize,
    b: usize,
    f: usize,
) -> Result<Verdict, Fault>
    requires { Made C.meaning berths.now copies.now }
    ensures { outcome result berths.now copies.now []
        ≡ judge_result C.meaning sizes berths.now copies.now a b f }
{
    check_judge(sizes, berths, copies, a, b, f)?;
    let i = place(sizes, a, f);
    let j = place(sizes, b, f);
    let verdict = copies[i].clock.compare(&copies[j].clock);
    Ok(verdict)
}

/// The verdict on berth `a`'s copy of file `f` against `b`'s. Both berths are
/// in use, and `a` may be `b`. Refused with 1, 2, 3, 5.
pub fn judge<K: Card, C: Clock, P: Copy>(
    card: &K,
    berths: &[Berth<C::Pen>],
    copies: &[Record<C, P>],
    a: usize,
    b: usize,
    f: usize,
) -> Result<Verdict, Fault>
    requires made { Made C.meaning berths.now copies.now }
    ensures result { outcome result berths.now copies.now []
        ≡ judge_result C.meaning (K.sizes card.now) berths.now copies.now a b f }
    ensures history { LawfulAt C.meaning (judge_call (K.sizes card.now) a b f) berths.now copies.now
        (outcome result berths.now copies.now []) }
{
    judge_sized(card.sizes(), berths, copies, a, b, f)
}
