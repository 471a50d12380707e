use clock::{Clock, Verdict};
use pair_clock::PairClock;
use std::test::Fail;

// The launch edits while the ship does not: the ship's copy is only older.
#[test]
fn older(rt: HostRuntime) -> Result<(), Fail> {
    let (_, launch) = PairClock::fork(&PairClock::seed())?;
    let ships = PairClock::blank();
    let launches = ships.event(&launch)?;
    assert_eq!(rt; ships.compare(&launches), Verdict::Stale);
    assert_eq!(rt; launches.compare(&ships), Verdict::Ahead);
    Ok(())
}

// Both edit from the same start: the copies were made apart, until one settles.
#[test]
fn made_apart(rt: HostRuntime) -> Result<(), Fail> {
    let (ship, launch) = PairClock::fork(&PairClock::seed())?;
    let start = PairClock::blank();
    let ships = start.event(&ship)?;
    let launches = start.event(&launch)?;
    assert_eq!(rt; ships.compare(&launches), Verdict::Conflict);
    let settled = ships.join(&launches)?.event(&ship)?;
    assert_eq!(rt; settled.compare(&launches), Verdict::Ahead);
    assert_eq!(rt; PairClock::unite(&ship, &launch)?, PairClock::seed());
    Ok(())
}
