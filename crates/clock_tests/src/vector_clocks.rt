use crate::refused_with;
use clock::Fault;
use std::process::Abort;
use std::test::*;
use vector_clock::{Counts, Names};

// So many events of a pen.
fn later<const N: usize>(
    clock: &Counts<N>,
    pen: &Names<N>,
    events: u32,
) -> Result<Counts<N>, Fault> {
    let mut clock = *clock;
    for _ in 0..events {
        clock = clock.event(pen)?;
    }
    Ok(clock)
}

// Counts rise at the lowest name, then at the next, and stop at the limit: from one below
// it, and from zero.
#[test]
fn counts_to_the_limit(rt: HostRuntime) -> Result<(), Fail> {
    let (first, second) = Names::<2>::all().fork()?;
    let below = later(&later(&Counts::zero(), &first, 65534)?, &second, 65534)?;
    rises(&rt, &below, 0)?;
    rises(&rt, &Counts::zero(), 65534)?;
    Ok(())
}

// One name after the other is one below the limit after so many events, and at it after
// one more.
fn rises(rt: &impl Abort, start: &Counts<2>, events: u32) -> Result<(), Fault> {
    let pen = Names::<2>::all();
    let mut clock = *start;
    for name in [0, 1] {
        clock = later(&clock, &pen, events)?;
        assert!(rt; clock.count(name) == 65534);
        clock = clock.event(&pen)?;
        assert!(rt; clock.count(name) == 65535);
    }
    assert!(rt; refused_with(clock.event(&pen)) == Some(16));
    assert!(rt; refused_with(clock.event(&Names::none())) == Some(14));
    Ok(())
}

// Each verdict, and the join of two clocks in conflict: one is ahead at the middle name,
// then at the last.
#[test]
fn compares(rt: HostRuntime) -> Result<(), Fail> {
    let (lower, upper) = Names::<3>::all().fork()?;
    let (_, middle) = lower.fork()?;
    let old = later(&later(&Counts::zero(), &lower, 1)?, &upper, 2)?;
    let other = later(&old, &lower, 1)?;
    for (pen, text) in [(middle, "[2,1,2]"), (upper, "[2,0,3]")] {
        let both = judges(&rt, &old, &later(&old, &pen, 1)?, &other);
        assert_eq!(rt; format!(in rt.alloc(); "{both}")?.as_str(), text);
    }
    Ok(())
}

// The verdicts on an old clock, a newer one and another newer one, and the join of these two.
fn judges(rt: &impl Abort, old: &Counts<3>, new: &Counts<3>, other: &Counts<3>) -> Counts<3> {
    assert!(rt; u8::from(new.compare(new)) == 0 && u8::from(old.compare(new)) == 1);
    assert!(rt; u8::from(new.compare(old)) == 2 && u8::from(new.compare(other)) == 3);
    let both = new.join(other);
    assert!(rt; both.covers(new) && both.covers(other) && !new.covers(&both));
    both
}
