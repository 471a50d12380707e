use crate::answers::Answer;
use crate::edit_sets::EditSet;
use crate::kinds::Kind;
use crate::model::{Kept, Model};
use crate::numbering::Numbering;
use anyhow::{Context, Result};
use yard_rules::{Call, Reading, Writing};

// The numbers of the verdicts that a rule names.
const STALE: u8 = 1;

const CONFLICT: u8 = 3;

impl<M: Kind> Model<M> {
    /// What a call is to answer, and to leave in the model and in the buffer.
    /// `other` says that the card has other sizes than the tables.
    pub fn answer<N: Numbering<P>, P: Copy>(
        &mut self,
        call: &Call<P>,
        other: bool,
        bytes: &mut [u8],
    ) -> Result<Answer> {
        if let Some(refusal) = self.refusal(call, other, bytes.len()) {
            return Ok(Answer::Refused(refusal));
        }
        match *call {
            Call::Reads(reading) => self.read(reading, bytes),
            Call::Writes(writing) => self.write::<N, P>(writing, bytes),
            Call::Seal => Ok(Answer::Done),
        }
    }

    fn read(&self, call: Reading, bytes: &mut [u8]) -> Result<Answer> {
        match call {
            Reading::Judge { a, b, f } => Ok(Answer::Verdict(self.verdict(a, b, f)?)),
            Reading::Report { a, b } => self.report(a, b, bytes),
            Reading::Show { a, f } => self.show(a, f),
        }
    }

    fn write<N: Numbering<P>, P: Copy>(
        &mut self,
        call: Writing<P>,
        bytes: &mut [u8],
    ) -> Result<Answer> {
        match call {
            Writing::Fork { a, b } => self.fork(a, b),
            Writing::Edit { a, f, payload } => self.edit(a, f, N::number(&payload)),
            Writing::Pull { a, b } => self.pull(a, b, bytes),
            Writing::Settle { a, b, f, payload } => self.settle(a, b, f, N::number(&payload)),
            Writing::Retire { a, b } => self.retire(a, b),
            Writing::Drop { a } => self.vacate(a),
        }
    }

    // The pen and the copy's clock, as the kind writes them.
    fn show(&self, a: usize, f: usize) -> Result<Answer> {
        let pen = M::pen_word(self.heap, &self.row(a)?.pen)?;
        let clock = M::clock_word(self.heap, &self.kept(a, f)?.clock)?;
        Ok(Answer::Shown(pen, clock))
    }

    // b gets the second half of the pen and the copies of a.
    fn fork(&mut self, a: usize, b: usize) -> Result<Answer> {
        let row = self.row(a)?;
        let (first, second) = match M::fork(self.heap, &row.pen)? {
            Ok(halves) => halves,
            Err(cause) => return Ok(Answer::refused(cause, Some(a), None)),
        };
        let mut copies = Vec::new(self.heap);
        for kept in &row.copies {
            copies.push(kept.copied()?)?;
        }
        self.row_mut(a)?.pen = first;
        let row = self.row_mut(b)?;
        row.works = true;
        row.pen = second;
        row.copies = copies;
        Ok(Answer::Done)
    }

    // An event on the clock, and one more edit behind the copy.
    fn edit(&mut self, a: usize, f: usize, payload: u64) -> Result<Answer> {
        let kept = self.kept(a, f)?;
        let clock = match M::event(self.heap, &self.row(a)?.pen, &kept.clock)? {
            Ok(clock) => clock,
            Err(cause) => return Ok(Answer::refused(cause, Some(a), Some(f))),
        };
        let edits = kept.edits.copied()?;
        self.put(
            a,
            f,
            Kept {
                edits,
                payload,
                clock,
            },
        )
    }

    // Writes a copy that has the next edit behind it too.
    fn put(&mut self, b: usize, f: usize, kept: Kept<M>) -> Result<Answer> {
        let mut kept = kept;
        kept.edits
            .add(self.edits)
            .context("more edits than planned")?;
        self.edits = self.edits.saturating_add(1);
        self.place(b, f, kept)?;
        Ok(Answer::Done)
    }

    fn place(&mut self, b: usize, f: usize, kept: Kept<M>) -> Result<()> {
        let row = self.row_mut(b)?;
        let slot = row.copies.get_mut(f).context("the model has no such file")?;
        *slot = kept;
        Ok(())
    }

    // The counts of the verdicts on a's copies against b's, and of those in conflict
    // with one payload.
    fn report(&self, a: usize, b: usize, bytes: &mut [u8]) -> Result<Answer> {
        let verdicts = self.verdicts(a, b)?;
        write_front(bytes, &verdicts);
        let mut twins = 0usize;
        for f in 0..self.files {
            if self.same_payload(a, b, f)? && self.verdict(a, b, f)? == CONFLICT {
                twins = twins.saturating_add(1);
            }
        }
        let count = |verdict| count_of(&verdicts, verdict);
        Ok(Answer::Counts(count(0), count(STALE), count(2), count(CONFLICT), twins))
    }

    // a's copies where b's are stale.
    fn pull(&mut self, a: usize, b: usize, bytes: &mut [u8]) -> Result<Answer> {
        let verdicts = self.verdicts(b, a)?;
        write_front(bytes, &verdicts);
        self.take(a, b, &verdicts)?;
        let taken = count_of(&verdicts, STALE);
        Ok(Answer::Taken(taken, count_of(&verdicts, CONFLICT)))
    }

    fn take(&mut self, a: usize, b: usize, verdicts: &[u8]) -> Result<()> {
        for (f, verdict) in verdicts.iter().enumerate() {
            if *verdict == STALE {
                let kept = self.kept(a, f)?.copied()?;
                self.place(b, f, kept)?;
            }
        }
        Ok(())
    }

    // The join of the two clocks and an event on it; the edits behind both, and one more.
    fn settle(&mut self, a: usize, b: usize, f: usize, payload: u64) -> Result<Answer> {
        if self.verdict(b, a, f)? != CONFLICT {
            return Ok(Answer::refused(7, Some(b), Some(f)));
        }
        let ours = self.kept(b, f)?;
        let theirs = self.kept(a, f)?;
        let clock = match M::join(self.heap, &ours.clock, &theirs.clock)? {
            Ok(joined) => M::event(self.heap, &self.row(b)?.pen, &joined)?,
            Err(cause) => Err(cause),
        };
        let clock = match clock {
            Ok(clock) => clock,
            Err(cause) => return Ok(Answer::refused(cause, Some(b), Some(f))),
        };
        let mut edits: EditSet = ours.edits.copied()?;
        edits.unite(&theirs.edits);
        self.put(
            b,
            f,
            Kept {
                edits,
                payload,
                clock,
            },
        )
    }

    // b gets both pens and a's copies where its own are stale; a becomes empty.
    fn retire(&mut self, a: usize, b: usize) -> Result<Answer> {
        let verdicts = self.verdicts(b, a)?;
        let conflict = verdicts.iter().position(|verdict| *verdict == CONFLICT);
        if conflict.is_some() {
            return Ok(Answer::refused(8, Some(b), conflict));
        }
        let both = match M::unite(self.heap, &self.row(a)?.pen, &self.row(b)?.pen)? {
            Ok(both) => both,
            Err(cause) => return Ok(Answer::refused(cause, Some(b), None)),
        };
        self.take(a, b, &verdicts)?;
        self.row_mut(b)?.pen = both;
        self.vacate(a)
    }

    fn vacate(&mut self, a: usize) -> Result<Answer> {
        let pen = M::no_pen(self.heap)?;
        let row = self.row_mut(a)?;
        row.works = false;
        row.pen = pen;
        Ok(Answer::Done)
    }
}

// Writes the verdicts over the first bytes; the later ones stay.
fn write_front(bytes: &mut [u8], verdicts: &[u8]) {
    for (byte, verdict) in bytes.iter_mut().zip(verdicts) {
        *byte = *verdict;
    }
}

fn count_of(verdicts: &[u8], verdict: u8) -> usize {
    verdicts.iter().filter(|found| **found == verdict).count()
}
