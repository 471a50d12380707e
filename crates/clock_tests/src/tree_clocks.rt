use crate::made_trees::{FIRST_HALVES, MadeClock, MadePen, full_text};
use crate::refused_with;
use std::process::Abort;
use std::test::*;

// Events: so many at the end of each path.
type Events = &'static [(u32, &'static str)];

const LOWER: Events = &[(1, "0")];

const UPPER: Events = &[(1, "1")];

const TWICE: Events = &[(2, "1")];

const BOTH: Events = &[(1, ""), (1, "1")];

// What a clock prints after events.
const SHOWN: [(Events, &str); 4] = [
    (&[(1, "")], "1"),
    (BOTH, "(1,0,1)"),
    (&[(1, ""), (1, "1"), (1, "0")], "2"),
    (TWICE, "(0,0,2)"),
];

#[test]
fn events_fill_and_grow(rt: HostRuntime) -> Result<(), Fail> {
    for (events, text) in SHOWN {
        MadeClock::after(events)?.shows(rt.alloc(), text)?;
    }
    let one = MadeClock::after(&[(1, "")])?;
    assert_eq!(rt; refused_with(one.event(&MadePen::none())), Some(14));
    Ok(())
}

// A pen of two parts grows where that is cheapest, here at the second.
#[test]
fn events_of_two_parts(rt: HostRuntime) -> Result<(), Fail> {
    let pen = MadePen::at("00")?.unite(&MadePen::at("10")?)?;
    pen.shows(rt.alloc(), "((1,0),(1,0))")?;
    let clock = MadeClock::blank().event(&pen)?;
    clock.shows(rt.alloc(), "(0,0,(0,1,0))")
}

// Up to 65,535 events of one pen, and no more; the empty pen makes none.
#[test]
fn events_up_to_65535(rt: HostRuntime) -> Result<(), Fail> {
    for (path, text) in [
        ("", "65535"),
        ("0", "(0,65535,0)"),
        ("11", "(0,0,(0,0,65535))"),
    ] {
        let clock = MadeClock::after(&[(65535, path)])?;
        clock.shows(rt.alloc(), text)?;
        assert_eq!(rt; refused_with(clock.event(&MadePen::at(path)?)), Some(16));
        assert_eq!(rt; refused_with(clock.event(&MadePen::none())), Some(14));
    }
    Ok(())
}

// With 63 nodes: what splits one more is too much, what splits none is not.
#[test]
fn clocks_up_to_63_nodes(rt: HostRuntime) -> Result<(), Fail> {
    let clock = full_clock()?;
    let text = full_text(rt.alloc(), "0,", "(0,1,0)")?;
    clock.shows(rt.alloc(), text.as_str())?;
    for path in FIRST_HALVES {
        is_full(&rt, &clock, &MadePen::at(path)?)?;
    }
    let more = MadeClock::after(&[(2, "000000")])?;
    assert_eq!(rt; refused_with(clock.join(&more)), Some(15));
    let known = MadeClock::after(&[(1, "000000")])?;
    assert!(rt; clock.join(&known)?.same(&clock));
    Ok(())
}

// An event at each of the first halves.
fn full_clock() -> Result<MadeClock, Fail> {
    let mut clock = MadeClock::blank();
    for path in FIRST_HALVES {
        clock = clock.event(&MadePen::at(path)?)?;
    }
    Ok(clock)
}

// An event of the pen is taken, one of its halves alone is refused.
fn is_full(rt: &impl Abort, clock: &MadeClock, pen: &MadePen) -> Result<(), Fail> {
    let (part, rest) = pen.fork()?;
    assert_eq!(rt; refused_with(clock.event(&part)), Some(15));
    assert_eq!(rt; refused_with(clock.event(&rest)), Some(15));
    assert!(rt; clock.event(pen)?.covers(clock));
    Ok(())
}

// The verdict on a first clock against a second.
const VERDICTS: [(Events, Events, &str); 7] = [
    (LOWER, LOWER, "equal"),
    (TWICE, BOTH, "stale"),
    (&[], LOWER, "stale"),
    (BOTH, TWICE, "ahead"),
    (TWICE, UPPER, "ahead"),
    (LOWER, UPPER, "conflict"),
    (TWICE, LOWER, "conflict"),
];

#[test]
fn compares(rt: HostRuntime) -> Result<(), Fail> {
    for (first, second, verdict) in VERDICTS {
        let second = MadeClock::after(second)?;
        MadeClock::after(first)?.judges(rt.alloc(), &second, verdict)?;
    }
    Ok(())
}

// Two halves joined know as much as one event of the whole.
#[test]
fn joins_halves(rt: HostRuntime) -> Result<(), Fail> {
    let lower = MadeClock::after(&[(1, "0")])?;
    lower.shows(rt.alloc(), "(0,1,0)")?;
    let upper = MadeClock::after(&[(1, "1")])?;
    upper.shows(rt.alloc(), "(0,0,1)")?;
    let joined = lower.join(&upper)?;
    joined.shows(rt.alloc(), "1")?;
    joined.judges(rt.alloc(), &MadeClock::after(&[(1, "")])?, "equal")
}

const JOINED: [Events; 5] = [LOWER, UPPER, &[], &[(3, "01")], &[(2, "110"), (1, "0")]];

#[test]
fn joins(rt: HostRuntime) -> Result<(), Fail> {
    for first in JOINED {
        let first = MadeClock::after(first)?;
        assert!(rt; first.join(&first)?.same(&first));
        for second in JOINED {
            joins_with(&rt, &first, &MadeClock::after(second)?)?;
        }
    }
    Ok(())
}

// The join, in either order, covers both, and is one of them where that covers the other.
fn joins_with(rt: &impl Abort, a: &MadeClock, b: &MadeClock) -> Result<(), Fail> {
    let both = a.join(b)?;
    assert!(rt; both.same(&b.join(a)?));
    assert!(rt; both.covers(a) && both.covers(b));
    assert!(rt; both.same(a) == a.covers(b));
    Ok(())
}
