use clock::Verdict;
use pair_clock::PairClock;
use std::test::Fail;
use yard::{blank_berth, blank_copy, edit, fork, judge, open, pull, settle};

// The ship's berth, and the launch's.
const SHIP: usize = 0;

const LAUNCH: usize = 1;

// The only file.
const SHEET: usize = 0;

// Ship and launch each edit the sheet; the ship settles, and the launch takes
// what was settled.
#[test]
fn settles_a_conflict(rt: HostRuntime) -> Result<(), Fail> {
    let mut berths = [blank_berth::<PairClock>(); 2];
    let mut copies = [blank_copy::<PairClock, u8>(0); 2];
    let card = open::<PairClock, u8>(&mut berths, &mut copies, &[10])?;
    fork(&card, &mut berths, &mut copies, SHIP, LAUNCH)?;
    edit(&card, &berths, &mut copies, SHIP, SHEET, 20)?;
    edit(&card, &berths, &mut copies, LAUNCH, SHEET, 30)?;
    let verdict = judge(&card, &berths, &copies, SHIP, LAUNCH, SHEET)?;
    assert_eq!(rt; verdict, Verdict::Conflict);
    settle(&card, &berths, &mut copies, LAUNCH, SHIP, SHEET, 40)?;
    let verdict = judge(&card, &berths, &copies, SHIP, LAUNCH, SHEET)?;
    assert_eq!(rt; verdict, Verdict::Ahead);
    let mut report = [0];
    let moved = pull(&card, &berths, &mut copies, &mut report, SHIP, LAUNCH)?;
    assert_eq!(rt; moved, (1, 0));
    let verdict = judge(&card, &berths, &copies, SHIP, LAUNCH, SHEET)?;
    assert_eq!(rt; verdict, Verdict::Equal);
    assert_eq!(rt; copies[LAUNCH].payload, 40);
    Ok(())
}
