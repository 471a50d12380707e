ghost use Rattle.std.specs.Prelude.{◌≡◌, [], ◌∷◌};
ghost use Rattle.clock.specs.Answers.{due};
ghost use Rattle.yard_rules.specs.Tables.{working};
ghost use Rattle.yard_rules.specs.Checks.{wrong_sizes, no_berth, no_file, same_berth, not_working, not_empty, short_buffer};
ghost use Rattle.yard.specs.Passing.{passing, all_pass};

use clock::{Cause, Fault};
use yard_rules::{Berth, Record, Sizes, State};

/// Refuses where the refusal is due.
pub fn refuse_if(is_due: bool, fault: Fault) -> Result<(), Fault>
    ensures { result ≡ passing (due is_due fault) }
{
    if is_due { Err(fault) } else { Ok(()) }
}

// The two tables are two parameters, and no struct: a call borrows for writing only the table that
// it writes. Two berths, or a berth and a file, are no one thing either. `Ready` ties two berths,
// the sizes and a lent table: no one value holds them, and a struct of them would have a maker for
// each call, with the proof that the call's own checks give it.

/// 1: the tables are of the card's sizes, which are within the limits.
pub fn check_sizes<X, Y>(sizes: Sizes, berths: &[X], copies: &[Y]) -> Result<(), Fault>
    ensures { result ≡ passing (wrong_sizes sizes berths.now copies.now) }
{
    let fit = (1..=16).contains(&sizes.berths)
        && (1..=32).contains(&sizes.files)
        && berths.len() == sizes.berths
        && copies.len() == sizes.berths * sizes.files;
    refuse_if(!fit, Cause::Sizes.into())
}

// `check_berth` and `check_file` differ in which number and which place, the two below in the state
// that is wanted: one line each over `refuse_if`, and each a refusal of its own.

/// 2: there is such a berth.
pub fn check_berth(sizes: Sizes, a: usize) -> Result<(), Fault>
    ensures { result ≡ passing (no_berth sizes a) }
{
    refuse_if(sizes.berths <= a, Fault::from(Cause::NoBerth).at_berth(a))
}

/// 3: there is such a file.
pub fn check_file(sizes: Sizes, f: usize) -> Result<(), Fault>
    ensures { result ≡ passing (no_file sizes f) }
{
    refuse_if(sizes.files <= f, Fault::from(Cause::NoFile).at_file(f))
}

/// 4: two berths, not the same twice.
pub fn check_two(a: usize, b: usize) -> Result<(), Fault>
    ensures { result ≡ passing (same_berth a b) }
{
    refuse_if(a == b, Fault::from(Cause::SameBerth).at_berth(a))
}

// Whether there is such a berth and it is in use.
pub(crate) fn works<Q>(berths: &[Berth<Q>], a: usize) -> bool
    ensures { result ≡ working berths.now a }
{
    berths
        .get(a)
        .is_some_and(|berth| berth.state == State::Working)
}

/// 5: the berth is in use.
pub fn check_working<Q>(berths: &[Berth<Q>], a: usize) -> Result<(), Fault>
    ensures { result ≡ passing (not_working berths.now a) }
{
    refuse_if(
        !works(berths, a),
        Fault::from(Cause::WrongState).at_berth(a),
    )
}

/// 5: the berth is empty.
pub fn check_empty<Q>(berths: &[Berth<Q>], b: usize) -> Result<(), Fault>
    ensures { result ≡ passing (not_empty berths.now b) }
{
    refuse_if(works(berths, b), Fault::from(Cause::WrongState).at_berth(b))
}

/// 1, 2, 3, 5: there is a copy of file f in berth a, which is in use.
pub fn check_copy<Q, C, P>(
    sizes: Sizes,
    berths: &[Berth<Q>],
    copies: &[Record<C, P>],
    a: usize,
    f: usize,
) -> Result<(), Fault>
    ensures { result ≡ all_pass (wrong_sizes sizes berths.now copies.now ∷ no_berth sizes a
        ∷ no_file sizes f ∷ not_working berths.now a ∷ []) }
{
    check_sizes(sizes, berths, copies)?;
    check_berth(sizes, a)?;
    check_file(sizes, f)?;
    check_working(berths, a)
}

/// 6: the buffer has a byte for each file.
pub fn check_buffer(sizes: Sizes, bytes: &[u8]) -> Result<(), Fault>
    ensures { result ≡ passing (short_buffer sizes bytes.now) }
{
    refuse_if(bytes.len() < sizes.files, Cause::ShortBuffer.into())
}
