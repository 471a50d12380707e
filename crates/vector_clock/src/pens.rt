ghost use Rattle.std.specs.Prelude.{◌≡◌, ◌+◌, ◌/◌, Some};
ghost use Rattle.clock.specs.Answers.{answered};
ghost use Rattle.vector_clock.specs.Counting.{none};
ghost use Rattle.vector_clock.specs.Pens.{in_pen, size_of, all_names, no_names, fork_due, lower_half, upper_half, in_both, unite_due, in_either, both_names};
ghost use Rattle.vector_clock.specs.Texts.{names_text};

use crate::items::write_item;
use clock::{Cause, Fault};
use std::{array, fmt};

/// A set of names below N: the right to make the marks of those names.
// An array by value: a rule of the project, and the library has no heap.
#[derive(Clone, Copy, PartialEq, Eq, Debug)]
pub struct Names<const N: usize> {
    pub(crate) held: [bool; N],
}

// `all` and `none` are two functions, as they are two words of the rules.
impl<const N: usize> Names<N> {
    /// The pen with every name.
    pub fn all() -> Names<N>
        ensures { result ≡ all_names N }
    {
        Names { held: [true; N] }
    }

    /// The pen with no name.
    pub fn none() -> Names<N>
        ensures { result ≡ no_names N }
    {
        Names { held: [false; N] }
    }

    /// Whether the pen has this name.
    pub fn has(&self, name: usize) -> bool
        ensures { result ≡ in_pen self.now name }
    {
        self.held.get(name).copied().unwrap_or(false)
    }

    /// How many names the pen has.
    pub fn size(&self) -> usize
        ensures { result ≡ size_of self.now }
    {
        // No `filter` with `count`, which tests one name after the other: here all are counted at once.
        let mut size = 0;
        for held in &self.held {
            if *held {
                size += 1;
            }
        }
        size
    }

    /// Parts a pen in two: the lowest half of its names, rounded up, and the
    /// rest. Refused with 11 where it has fewer than two names.
    pub fn fork(&self) -> Result<(Names<N>, Names<N>), Fault>
        ensures { result ≡ answered (fork_due self.now) (lower_half self.now, upper_half self.now) }
    {
        let size = self.size();
        if size < 2 {
            return Err(Cause::CannotSplit.into());
        }
        Ok(self.halves(size - size / 2))
    }

    // The lowest `half` names, and the rest. By name, and no zip with `iter_mut`: after that the check knows nothing
    // of the names.
    fn halves(&self, half: usize) -> (Names<N>, Names<N>)
        requires { half ≡ (size_of self.now + 1) / 2 }
        ensures { result ≡ (lower_half self.now, upper_half self.now) }
    {
        let mut lower = [false; N];
        let mut upper = [false; N];
        let mut seen = 0;
        for (name, held) in self.held.iter().enumerate() {
            let low = seen < half;
            lower[name] = *held && low;
            upper[name] = *held && !low;
            if *held {
                seen += 1;
            }
        }
        (Names { held: lower }, Names { held: upper })
    }

    // Whether no name is in both. No end at the first shared name, and `&=`: so all names are compared at once, as
    // counts are.
    fn is_apart(&self, other: &Names<N>) -> bool
        ensures { result ≡ none (in_both self.now other.now) N }
    {
        let mut apart = true;
        for (mine, theirs) in self.held.iter().zip(&other.held) {
            apart &= !(*mine & *theirs);
        }
        apart
    }

    /// The pen with the names of both. Refused with 12 where a name is in both.
    pub fn unite(&self, other: &Names<N>) -> Result<Names<N>, Fault>
        ensures { result ≡ answered (unite_due self.now other.now) (both_names self.now other.now) }
    {
        if !self.is_apart(other) {
            return Err(Cause::PensOverlap.into());
        }
        // `|`, and no `||`: so both are read with no jump between them.
        let either = |name| -> bool
            ensures { result ≡ in_either self.entry.now other.entry.now name }
        { self.has(name) | other.has(name) };
        Ok(Names {
            held: array::from_fn(either),
        })
    }
}

/// `{0,1,2}`
impl<const N: usize> fmt::Display for Names<N> {
    ghost output = { λ pen. Some (names_text pen) };

    fn fmt<W: fmt::Write>(&self, f: &mut fmt::Formatter<W>) -> fmt::Result {
        f.write_str("{")?;
        let mut after = false;
        for (name, held) in self.held.iter().enumerate() {
            if *held {
                write_item(f, after, name)?;
                after = true;
            }
        }
        f.write_str("}")
    }
}
