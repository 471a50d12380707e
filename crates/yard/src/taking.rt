ghost use Rattle.std.specs.Prelude.{◌≡◌, ◌<◌, length, ◌≢◌};
ghost use Rattle.yard_rules.specs.Tables.{row, newer_from};
ghost use Rattle.yard_rules.specs.Retire.{retire_plain};
ghost use Rattle.yard.specs.Passing.{all_pass};
ghost use Rattle.yard.specs.Ready.{Ready};
ghost use Rattle.yard.specs.Entries.{Clocks};
ghost use Rattle.yard.specs.Taking.{verdict_on, took};

use crate::checks::{check_berth, check_sizes, check_two, check_working};
use crate::records::row;
use clock::{Clock, Fault, Verdict};
use yard_rules::{Berth, Record, Sizes};

// What pull and retire check alike: two berths in use, not the same twice.
pub(crate) fn check_two_working<Q, C, P>(
    sizes: Sizes,
    berths: &[Berth<Q>],
    copies: &[Record<C, P>],
    a: usize,
    b: usize,
) -> Result<(), Fault>
    ensures { result ≡ all_pass (retire_plain sizes berths.now copies.now a b) }
{
    check_sizes(sizes, berths, copies)?;
    check_berth(sizes, a)?;
    check_berth(sizes, b)?;
    check_two(a, b)?;
    check_working(berths, a)?;
    check_working(berths, b)
}

// Record i becomes record j where it is stale against it. The verdict beforehand.
pub(crate) fn take_newer<C: Clock, P: Copy>(
    copies: &mut [Record<C, P>],
    i: usize,
    j: usize,
) -> Verdict
    requires places { (i < length copies.old) × (j < length copies.old) }
    requires made { Clocks C.meaning copies.old }
    ensures verdict { result ≡ verdict_on C.meaning copies.old i j }
    ensures copies { copies.new ≡ took C.meaning copies.old i j }
{
    let theirs = copies[j];
    let verdict = copies[i].clock.compare(&theirs.clock);
    if verdict == Verdict::Stale {
        copies[i] = theirs;
    }
    verdict
}

// Berth b takes a's copy of each file in which it is stale. Both rows lie in one table that is lent
// for writing, so the loop goes over their places and not over their records.
pub(crate) fn take_files<C: Clock, P: Copy>(
    sizes: Sizes,
    copies: &mut [Record<C, P>],
    a: usize,
    b: usize,
)
    requires ready { (Ready sizes sizes.berths (length copies.old) a b) × (a ≢ b) }
    requires made { Clocks C.meaning copies.old }
    ensures { copies.new
        ≡ row sizes.files copies.old b (newer_from sizes.files copies.old C.meaning a b) }
{
    for (i, j) in row(sizes, b).zip(row(sizes, a)) {
        take_newer(copies, i, j);
    }
}
