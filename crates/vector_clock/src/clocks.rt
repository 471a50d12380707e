ghost use Rattle.std.specs.Prelude.{◌≡◌, ℕ, ◌<◌, ◌≤◌, cond, true, false, Some};
ghost use Rattle.clock.specs.declared.causes.Cause.TheVariants.{PenSpent, AtLimit};
ghost use Rattle.clock.specs.Answers.{answered, fault_of};
ghost use Rattle.clock.specs.Verdicts.{verdict_of};
ghost use Rattle.vector_clock.specs.Clocks.{count_of, clock_by, no_counts, open_name, event_due, more_at, raised, larger_at, larger_counts, covered};
ghost use Rattle.vector_clock.specs.Counting.{none};
ghost use Rattle.vector_clock.specs.Pens.{in_pen};
ghost use Rattle.vector_clock.specs.Texts.{counts_text};

use crate::items::write_item;
use crate::pens::Names;
use clock::{Cause, Fault, Verdict};
use std::{array, fmt};

// The largest count.
const LIMIT: u16 = 65535;

/// A count for each name below N: the clock knows as many marks of a name.
// An array by value: a rule of the project, and the library has no heap.
#[derive(Clone, Copy, PartialEq, Eq, Debug)]
pub struct Counts<const N: usize> {
    counts: [u16; N],
}

impl<const N: usize> Counts<N> {
    /// The clock that counts 0 for each name.
    pub fn zero() -> Counts<N>
        ensures { result ≡ no_counts N }
    {
        Counts { counts: [0; N] }
    }

    /// The count of a name, 0 where there is no such name.
    pub fn count(&self, name: usize) -> u16
        ensures { result ≡ count_of self.now name }
    {
        self.counts.get(name).copied().unwrap_or(0)
    }

    /// One more at the lowest name of the pen whose count is below 65,535.
    /// Refused with 14 where the pen has no name, and with 16 where each of its
    /// names is at 65,535.
    // Into the caller, with the kind's method: a `Result` that is handed over is stored in pieces and read as a whole.
    // `#[inline]` alone leaves the call.
    #[inline(always)]
    pub fn event(&self, pen: &Names<N>) -> Result<Counts<N>, Fault>
        ensures { result ≡ answered (event_due pen.now self.now) (raised pen.now self.now) }
    {
        let name = self.lowest_open(pen);
        if name < N {
            return Ok(self.raised(name));
        }
        Err(refusal(pen))
    }

    // The lowest name of the pen whose count is below the limit, N where there is none. From the last name to the
    // first, with one test for each and no end before: so a name takes no jump, where which name it is would be guessed.
    #[inline(always)]
    fn lowest_open(&self, pen: &Names<N>) -> usize
        ensures lower { (k : ℕ) → k < result → open_name pen.now self.now k ≡ false }
        ensures open { result < N → open_name pen.now self.now result ≡ true }
        ensures last { result ≤ N }
    {
        let mut lowest = N;
        for name in (0..N).rev() {
            let limit = if pen.held[name] { LIMIT } else { 0 };
            if self.counts[name] < limit {
                lowest = name;
            }
        }
        lowest
    }

    // One more at a name. Each count is written, most as it was: so all are written at once, where one alone would be
    // written into the others and be waited for when they are read together.
    #[inline(always)]
    fn raised(&self, name: usize) -> Counts<N>
        requires { count_of self.now name < 65535 }
        ensures { result ≡ clock_by N (more_at self.now name) }
    {
        let mut counts = [0; N];
        for at in 0..N {
            counts[at] = self.counts[at] + u16::from(at == name);
        }
        Counts { counts }
    }

    /// The larger count of each name.
    pub fn join(&self, other: &Counts<N>) -> Counts<N>
        ensures { result ≡ larger_counts self.now other.now }
    {
        let larger = |name| -> u16
            ensures { result ≡ larger_at self.entry.now other.entry.now name }
        { self.count(name).max(other.count(name)) };
        Counts {
            counts: array::from_fn(larger),
        }
    }

    /// Whether each count is at least the other's.
    pub fn covers(&self, other: &Counts<N>) -> bool
        ensures { result ≡ covered self.now other.now }
    {
        // No end at the first larger count, and `&=`, no `&&`: so all counts are compared at once, where a search
        // tests one after the other.
        let mut all = true;
        for (mine, theirs) in self.counts.iter().zip(&other.counts) {
            all &= mine >= theirs;
        }
        all
    }

    /// The verdict on this clock against the other.
    pub fn compare(&self, other: &Counts<N>) -> Verdict
        ensures { result ≡ verdict_of (covered self.now other.now) (covered other.now self.now) }
    {
        Verdict::of(self.covers(other), other.covers(self))
    }
}

/// `[1,0,2]`, every count written out
impl<const N: usize> fmt::Display for Counts<N> {
    ghost output = { λ clock. Some (counts_text clock) };

    fn fmt<W: fmt::Write>(&self, f: &mut fmt::Formatter<W>) -> fmt::Result {
        f.write_str("[")?;
        for (name, count) in self.counts.iter().enumerate() {
            write_item(f, name > 0, usize::from(*count))?;
        }
        f.write_str("]")
    }
}

// Why the pen can make no mark, where none of its names is open. Not inlined, so that a fault is not written one field
// at a time beside a clock.
#[cold]
#[inline(never)]
fn refusal<const N: usize>(pen: &Names<N>) -> Fault
    ensures { result ≡ fault_of (cond (none (in_pen pen.now) N) PenSpent AtLimit) }
{
    if pen.size() == 0 {
        return Cause::PenSpent.into();
    }
    Cause::AtLimit.into()
}
