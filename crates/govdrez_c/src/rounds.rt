ghost use Rattle.std.specs.Prelude.{◌≡◌, length};
ghost use Rattle.std.specs.List.{All};
ghost use Rattle.clock.specs.Meaning.{Yes};

use crate::answers::Answer;
use crate::steps::{
    COMPARE, COPY, COVERS, EVENT, FORK, JOIN, Step, UNITE, answer, copy, covers, event, fork, join,
    judge, lay_out, slot, unite,
};
use clock::Clock;

// One loop for each call. That pens and clocks are well made stands in clauses, since they are plain data.

fn forks<C: Clock>(pens: &mut [C::Pen], work: &[Step]) -> u64
    requires slots { length pens.old ≡ 128 }
    requires pens { All (λ p. Yes (C.Clock.meaning.pen_made p)) pens.old }
    ensures { All (λ p. Yes (C.Clock.meaning.pen_made p)) pens.new }
{
    let mut sum: u64 = 0;
    for step in work {
        sum = sum.wrapping_add(Answer::of(fork::<C>(pens, step)).number());
    }
    sum
}

fn events<C: Clock>(pens: &[C::Pen], clocks: &mut [C], work: &[Step]) -> u64
    requires slots { (length pens.now ≡ 128) × (length clocks.old ≡ 128) }
    requires pens { All (λ p. Yes (C.Clock.meaning.pen_made p)) pens.now }
    requires clocks { All (λ c. Yes (C.Clock.meaning.clock_made c)) clocks.old }
    ensures { All (λ c. Yes (C.Clock.meaning.clock_made c)) clocks.new }
{
    let mut sum: u64 = 0;
    for step in work {
        sum = sum.wrapping_add(Answer::of(event(pens, clocks, step)).number());
    }
    sum
}

fn joins<C: Clock>(clocks: &mut [C], work: &[Step]) -> u64
    requires slots { length clocks.old ≡ 128 }
    requires clocks { All (λ c. Yes (C.Clock.meaning.clock_made c)) clocks.old }
    ensures { All (λ c. Yes (C.Clock.meaning.clock_made c)) clocks.new }
{
    let mut sum: u64 = 0;
    for step in work {
        sum = sum.wrapping_add(Answer::of(join(clocks, step)).number());
    }
    sum
}

fn unites<C: Clock>(pens: &mut [C::Pen], work: &[Step]) -> u64
    requires slots { length pens.old ≡ 128 }
    requires pens { All (λ p. Yes (C.Clock.meaning.pen_made p)) pens.old }
    ensures { All (λ p. Yes (C.Clock.meaning.pen_made p)) pens.new }
{
    let mut sum: u64 = 0;
    for step in work {
        sum = sum.wrapping_add(Answer::of(unite::<C>(pens, step)).number());
    }
    sum
}

fn coverings<C: Clock>(clocks: &[C], work: &[Step]) -> u64
    requires slots { length clocks.now ≡ 128 }
    requires clocks { All (λ c. Yes (C.Clock.meaning.clock_made c)) clocks.now }
{
    let mut sum: u64 = 0;
    for step in work {
        sum = sum.wrapping_add(covers(clocks, step).number());
    }
    sum
}

fn verdicts<C: Clock>(clocks: &[C], work: &[Step]) -> u64
    requires slots { length clocks.now ≡ 128 }
    requires clocks { All (λ c. Yes (C.Clock.meaning.clock_made c)) clocks.now }
{
    let mut sum: u64 = 0;
    for step in work {
        sum = sum.wrapping_add(judge(clocks, step).number());
    }
    sum
}

fn copies<C: Clock>(clocks: &mut [C], work: &[Step]) -> u64
    requires slots { length clocks.old ≡ 128 }
    requires clocks { All (λ c. Yes (C.Clock.meaning.clock_made c)) clocks.old }
    ensures { All (λ c. Yes (C.Clock.meaning.clock_made c)) clocks.new }
{
    for step in work {
        copy(clocks, step);
    }
    work.len() as u64
}

// The loop alone.
fn places(work: &[Step]) -> u64 {
    let mut sum: u64 = 0;
    for step in work {
        let places = slot(step.a) + slot(step.b) + slot(step.to);
        sum = sum.wrapping_add(places as u64);
    }
    sum
}

// Makes one call with the numbers of each step, once.
fn pass<C: Clock>(pens: &mut [C::Pen], clocks: &mut [C], call: u32, work: &[Step]) -> u64
    requires slots { (length pens.old ≡ 128) × (length clocks.old ≡ 128) }
    requires pens { All (λ p. Yes (C.Clock.meaning.pen_made p)) pens.old }
    requires clocks { All (λ c. Yes (C.Clock.meaning.clock_made c)) clocks.old }
    ensures pens { All (λ p. Yes (C.Clock.meaning.pen_made p)) pens.new }
    ensures clocks { All (λ c. Yes (C.Clock.meaning.clock_made c)) clocks.new }
{
    match call {
        FORK => forks::<C>(pens, work),
        EVENT => events(pens, clocks, work),
        JOIN => joins(clocks, work),
        UNITE => unites::<C>(pens, work),
        COVERS => coverings(clocks, work),
        COMPARE => verdicts(clocks, work),
        COPY => copies(clocks, work),
        _ => places(work),
    }
}

/// Lays out the tables and does the first steps once. Then makes one call with
/// the numbers of each step of `work`, again and again. The sum of the answers' numbers.
pub(crate) fn rounds<C: Clock>(
    pens: &mut [C::Pen],
    clocks: &mut [C],
    before: &[Step],
    call: u32,
    work: &[Step],
    times: u32,
) -> u64
    requires { (length pens.old ≡ 128) × (length clocks.old ≡ 128) }
{
    lay_out(pens, clocks);
    let mut sum: u64 = 0;
    for step in before {
        sum = sum.wrapping_add(answer(pens, clocks, step).number());
    }
    for _ in 0..times {
        sum = sum.wrapping_add(pass(pens, clocks, call, work));
    }
    sum
}
