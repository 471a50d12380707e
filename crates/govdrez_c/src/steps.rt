ghost use Rattle.std.specs.Prelude.{◌≡◌, ◌<◌, length};
ghost use Rattle.std.specs.List.{All};
ghost use Rattle.clock.specs.Meaning.{Yes};

use crate::answers::Answer;
use clock::{Clock, Fault};

/// How many pens a table has, and how many clocks.
pub(crate) const SLOTS: usize = 128;

// The operations, by the number that a step gives.
pub(crate) const FORK: u32 = 0;

pub(crate) const EVENT: u32 = 1;

pub(crate) const JOIN: u32 = 2;

pub(crate) const UNITE: u32 = 3;

pub(crate) const COVERS: u32 = 4;

pub(crate) const COMPARE: u32 = 5;

pub(crate) const COPY: u32 = 6;

/// One operation on a table of pens and a table of clocks. A slot's number is
/// taken modulo 128.
///
/// | call | does |
/// |---|---|
/// | 0 fork | pen `a` is parted into pens `to` and `b` |
/// | 1 event | clock `to` becomes an event of clock `a` under pen `b` |
/// | 2 join | clock `to` becomes the join of clocks `a` and `b` |
/// | 3 unite | pen `to` becomes pens `a` and `b` united |
/// | 4 covers | whether clock `a` covers clock `b` |
/// | 5 compare | the verdict on clock `a` against clock `b` |
/// | 6 copy | pen and clock `to` become pen and clock `a` |
///
/// Any other call does nothing.
#[repr(C)]
#[derive(Clone, Copy)]
pub struct Step {
    pub call: u32,
    pub a: u32,
    pub b: u32,
    pub to: u32,
}

/// A slot's place in its table.
pub(crate) fn slot(number: u32) -> usize
    ensures { result < 128 }
{
    number as usize % SLOTS
}

// That a table's pens and clocks are well made stands in clauses, since they are plain data. Each step has a function
// of its own, so that a run of one pays for no other: a function pays at its entry for the size of all its locals.

#[inline]
pub(crate) fn fork<C: Clock>(pens: &mut [C::Pen], step: &Step) -> Result<(), Fault>
    requires slots { length pens.old ≡ 128 }
    requires pens { All (λ p. Yes (C.Clock.meaning.pen_made p)) pens.old }
    ensures { All (λ p. Yes (C.Clock.meaning.pen_made p)) pens.new }
{
    // as the loop of the peers does; by `?` both pens would be moved twice more
    match C::fork(&pens[slot(step.a)]) {
        Ok((first, second)) => {
            pens[slot(step.to)] = first;
            pens[slot(step.b)] = second;
            Ok(())
        }
        Err(fault) => Err(fault),
    }
}

#[inline]
pub(crate) fn event<C: Clock>(pens: &[C::Pen], clocks: &mut [C], step: &Step) -> Result<(), Fault>
    requires slots { (length pens.now ≡ 128) × (length clocks.old ≡ 128) }
    requires pens { All (λ p. Yes (C.Clock.meaning.pen_made p)) pens.now }
    requires clocks { All (λ c. Yes (C.Clock.meaning.clock_made c)) clocks.old }
    ensures { All (λ c. Yes (C.Clock.meaning.clock_made c)) clocks.new }
{
    clocks[slot(step.to)] = clocks[slot(step.a)].event(&pens[slot(step.b)])?;
    Ok(())
}

#[inline]
pub(crate) fn join<C: Clock>(clocks: &mut [C], step: &Step) -> Result<(), Fault>
    requires slots { length clocks.old ≡ 128 }
    requires clocks { All (λ c. Yes (C.Clock.meaning.clock_made c)) clocks.old }
    ensures { All (λ c. Yes (C.Clock.meaning.clock_made c)) clocks.new }
{
    clocks[slot(step.to)] = clocks[slot(step.a)].join(&clocks[slot(step.b)])?;
    Ok(())
}

#[inline]
pub(crate) fn unite<C: Clock>(pens: &mut [C::Pen], step: &Step) -> Result<(), Fault>
    requires slots { length pens.old ≡ 128 }
    requires pens { All (λ p. Yes (C.Clock.meaning.pen_made p)) pens.old }
    ensures { All (λ p. Yes (C.Clock.meaning.pen_made p)) pens.new }
{
    pens[slot(step.to)] = C::unite(&pens[slot(step.a)], &pens[slot(step.b)])?;
    Ok(())
}

#[inline]
pub(crate) fn covers<C: Clock>(clocks: &[C], step: &Step) -> Answer
    requires slots { length clocks.now ≡ 128 }
    requires clocks { All (λ c. Yes (C.Clock.meaning.clock_made c)) clocks.now }
{
    Answer::Covers(clocks[slot(step.a)].covers(&clocks[slot(step.b)]))
}

#[inline]
pub(crate) fn judge<C: Clock>(clocks: &[C], step: &Step) -> Answer
    requires slots { length clocks.now ≡ 128 }
    requires clocks { All (λ c. Yes (C.Clock.meaning.clock_made c)) clocks.now }
{
    Answer::Judged(clocks[slot(step.a)].compare(&clocks[slot(step.b)]))
}

#[inline]
pub(crate) fn copy<C: Clock>(clocks: &mut [C], step: &Step)
    requires slots { length clocks.old ≡ 128 }
    requires clocks { All (λ c. Yes (C.Clock.meaning.clock_made c)) clocks.old }
    ensures { All (λ c. Yes (C.Clock.meaning.clock_made c)) clocks.new }
{
    clocks[slot(step.to)] = clocks[slot(step.a)];
}

// A pen of the same numbers as the clock that `copy` copies.
fn copy_pen<C: Clock>(pens: &mut [C::Pen], step: &Step)
    requires slots { length pens.old ≡ 128 }
    requires pens { All (λ p. Yes (C.Clock.meaning.pen_made p)) pens.old }
    ensures { All (λ p. Yes (C.Clock.meaning.pen_made p)) pens.new }
{
    pens[slot(step.to)] = pens[slot(step.a)];
}

/// Does the step, or refuses it and changes nothing.
pub(crate) fn answer<C: Clock>(pens: &mut [C::Pen], clocks: &mut [C], step: &Step) -> Answer
    requires slots { (length pens.old ≡ 128) × (length clocks.old ≡ 128) }
    requires pens { All (λ p. Yes (C.Clock.meaning.pen_made p)) pens.old }
    requires clocks { All (λ c. Yes (C.Clock.meaning.clock_made c)) clocks.old }
    ensures pens { All (λ p. Yes (C.Clock.meaning.pen_made p)) pens.new }
    ensures clocks { All (λ c. Yes (C.Clock.meaning.clock_made c)) clocks.new }
{
    match step.call {
        FORK => Answer::of(fork::<C>(pens, step)),
        EVENT => Answer::of(event(pens, clocks, step)),
        JOIN => Answer::of(join(clocks, step)),
        UNITE => Answer::of(unite::<C>(pens, step)),
        COVERS => covers(clocks, step),
        COMPARE => judge(clocks, step),
        COPY => {
            copy_pen::<C>(pens, step);
            copy(clocks, step);
            Answer::Done
        }
        _ => Answer::Done,
    }
}

/// Lays out both tables anew: pen 0 is the seed, the others and the clocks are empty.
pub(crate) fn lay_out<C: Clock>(pens: &mut [C::Pen], clocks: &mut [C])
    requires { 0 < length pens.old }
    ensures pens { All (λ p. Yes (C.Clock.meaning.pen_made p)) pens.new }
    ensures clocks { All (λ c. Yes (C.Clock.meaning.clock_made c)) clocks.new }
{
    for pen in pens.iter_mut() {
        *pen = C::no_pen();
    }
    pens[0] = C::seed();
    for clock in clocks.iter_mut() {
        *clock = C::blank();
    }
}
