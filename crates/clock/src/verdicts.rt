ghost use Rattle.std.specs.Prelude.{◌≡◌, Some};
ghost use Rattle.clock.specs.Verdicts.{verdict_of, byte_of, verdict_word};

use std::fmt;

/// How one copy stands against another.
#[derive(Clone, Copy, PartialEq, Eq, Debug)]
pub enum Verdict {
    /// Both copies have the same edits behind them.
    Equal = 0,
    /// The other copy has all of this one's edits, and more.
    Stale = 1,
    /// This copy has all of the other's edits, and more.
    Ahead = 2,
    /// Each copy has an edit that the other lacks.
    Conflict = 3,
}

impl Verdict {
    /// The verdict on a first clock against a second, from whether the first
    /// covers the second and whether the second covers the first.
    // No conversion, and no switch: the two answers come from two clocks.
    pub fn of(covers: bool, covered: bool) -> Verdict
        ensures { result ≡ verdict_of covers covered }
    {
        match (covers, covered) {
            (true, true) => Verdict::Equal,
            (false, true) => Verdict::Stale,
            (true, false) => Verdict::Ahead,
            (false, false) => Verdict::Conflict,
        }
    }
}

/// The number of the verdict, as a report writes it.
impl From<Verdict> for u8 {
    ghost from_gives = { λ verdict byte. byte ≡ byte_of verdict };

    fn from(verdict: Verdict) -> u8 {
        verdict as u8
    }
}

/// The verdict as a word.
impl fmt::Display for Verdict {
    ghost output = { λ verdict. Some (verdict_word verdict) };

    fn fmt<W: fmt::Write>(&self, f: &mut fmt::Formatter<W>) -> fmt::Result {
        f.write_str(match *self {
            Verdict::Equal => "equal",
            Verdict::Stale => "stale",
            Verdict::Ahead => "ahead",
            Verdict::Conflict => "conflict",
        })
    }
}
