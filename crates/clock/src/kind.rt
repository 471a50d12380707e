ghost use Rattle.std.specs.Prelude.{◌≡◌};
ghost use Rattle.clock.specs.Meaning.{Meaning, Yes};
ghost use Rattle.clock.specs.Answers.{answered};
ghost use Rattle.clock.specs.Sound.{Sound};
ghost use Rattle.clock.specs.Verdicts.{verdict_of};

use crate::faults::Fault;
use crate::verdicts::Verdict;

/// A kind of clock. A clock knows a set of marks, a pen is the right to make
/// some. The ghost member `meaning` says which, and fixes every answer; the law
/// `sound` is what each kind has to show of it. Pens and clocks are plain
/// values: an operation makes a new one and changes none.
// That a pen or a clock is well made is asked by clauses: they are plain data with no
// invariant in their types, a rule of the project.
pub trait Clock: Copy {
    /// The right to make marks.
    type Pen: Copy;

    ghost meaning: { Meaning Self.Pen Self };

    /// The pen that a yard opens with.
    fn seed() -> Self::Pen
        ensures { result ≡ meaning.seed };

    /// The empty pen, which may make no mark.
    fn no_pen() -> Self::Pen
        ensures { result ≡ meaning.no_pen };

    /// The empty clock, which knows no mark.
    fn blank() -> Self
        ensures { result ≡ meaning.blank };

    /// Parts a pen into two with no mark in common. Refused with 11.
    fn fork(pen: &Self::Pen) -> Result<(Self::Pen, Self::Pen), Fault>
        requires { Yes (meaning.pen_made pen.now) }
        ensures { result ≡ answered (meaning.fork_due pen.now) (meaning.halves pen.now) };

    /// A clock that knows this one's marks and at least one more of the pen's. Refused with 14 to 16.
    fn event(&self, pen: &Self::Pen) -> Result<Self, Fault>
        requires { (Yes (meaning.clock_made self.now)) × (Yes (meaning.pen_made pen.now)) }
        ensures { result ≡
            answered (meaning.event_due pen.now self.now) (meaning.evented pen.now self.now) };

    /// A clock that knows exactly what either knows. Refused with 15.
    fn join(&self, other: &Self) -> Result<Self, Fault>
        requires { (Yes (meaning.clock_made self.now)) × (Yes (meaning.clock_made other.now)) }
        ensures { result ≡
            answered (meaning.join_due self.now other.now) (meaning.joined self.now other.now) };

    /// Whether this clock knows every mark of the other.
    fn covers(&self, other: &Self) -> bool
        requires { (Yes (meaning.clock_made self.now)) × (Yes (meaning.clock_made other.now)) }
        ensures { result ≡ meaning.covers self.now other.now };

    /// A pen with exactly the marks of both. Refused with 12 and 13.
    fn unite(pen: &Self::Pen, other: &Self::Pen) -> Result<Self::Pen, Fault>
        requires { (Yes (meaning.pen_made pen.now)) × (Yes (meaning.pen_made other.now)) }
        ensures { result ≡
            answered (meaning.unite_due pen.now other.now) (meaning.united pen.now other.now) };

    /// The verdict on this clock against the other, from covers both ways.
    fn compare(&self, other: &Self) -> Verdict
        requires { (Yes (meaning.clock_made self.now)) × (Yes (meaning.clock_made other.now)) }
        ensures { result ≡
            verdict_of (meaning.covers self.now other.now) (meaning.covers other.now self.now) }
    {
        Verdict::of(self.covers(other), other.covers(self))
    }

    ghost sound: { Sound meaning };
}
