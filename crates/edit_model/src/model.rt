use crate::answers::Refusal;
use crate::edit_sets::EditSet;
use crate::kinds::Kind;
use crate::needs::Needs;
use anyhow::{Context, Result};
use std::alloc::{AllocError, Global};
use yard_rules::Call;

/// What the model keeps of a copy: the edits behind it, the number of its
/// payload, and its clock.
#[derive(Drop)]
pub struct Kept<M: Kind> {
    pub edits: EditSet,
    pub payload: u64,
    pub clock: M::Clock,
}

impl<M: Kind> Kept<M> {
    /// The same once more.
    pub fn copied(&self) -> Result<Kept<M>, AllocError> {
        Ok(Kept {
            edits: self.edits.copied()?,
            payload: self.payload,
            clock: self.clock.clone()?,
        })
    }
}

/// What the model keeps of a berth. One that empties keeps its payloads and
/// clocks, as the records do; the edits there are not read again.
#[derive(Drop)]
pub struct Row<M: Kind> {
    pub works: bool,
    pub pen: M::Pen,
    pub copies: Vec<Kept<M>>,
}

/// A yard as the documented rules have it: nothing is read from its tables.
#[derive(Drop)]
pub struct Model<M: Kind> {
    pub heap: Global,
    pub berths: usize,
    pub files: usize,
    /// The number of the next edit.
    pub edits: usize,
    rows: Vec<Row<M>>,
}

impl<M: Kind> Model<M> {
    /// A yard just opened, whose opening payload of file f is number f, with room
    /// for so many words of 64 edits.
    pub fn open(heap: Global, berths: usize, files: usize, words: usize) -> Result<Model<M>> {
        let mut rows = Vec::new(heap);
        for b in 0..berths {
            let works = b == 0;
            let pen = if works {
                M::seed(heap)?
            } else {
                M::no_pen(heap)?
            };
            let mut copies = Vec::new(heap);
            for f in 0..files {
                copies.push(Kept {
                    edits: EditSet::empty(heap, words)?,
                    payload: f as u64,
                    clock: M::blank(heap)?,
                })?;
            }
            rows.push(Row { works, pen, copies })?;
        }
        Ok(Model {
            heap,
            berths,
            files,
            edits: 0,
            rows,
        })
    }

    /// Berth b.
    pub fn row(&self, b: usize) -> Result<&Row<M>> {
        self.rows.get(b).context("the model has no such berth")
    }

    /// Berth b, to be written.
    pub fn row_mut(&mut self, b: usize) -> Result<&mut Row<M>> {
        self.rows.get_mut(b).context("the model has no such berth")
    }

    /// The copy of file f in berth b.
    pub fn kept(&self, b: usize, f: usize) -> Result<&Kept<M>> {
        let row = self.row(b)?;
        row.copies.get(f).context("the model has no such file")
    }

    /// Whether there is such a berth and it is in use.
    pub fn works(&self, b: usize) -> bool {
        self.rows.get(b).is_some_and(|row| row.works)
    }

    /// How many berths are in use.
    pub fn in_use(&self) -> usize {
        self.rows.iter().filter(|row| row.works).count()
    }

    /// The verdict on b's copy of file f against a's, from the edits behind them.
    pub fn verdict(&self, b: usize, a: usize, f: usize) -> Result<u8> {
        let ours = self.kept(b, f)?;
        let theirs = self.kept(a, f)?;
        Ok(ours.edits.against(&theirs.edits))
    }

    /// The same verdict from the model's clocks.
    pub fn marks_verdict(&self, b: usize, a: usize, f: usize) -> Result<u8> {
        let ours = &self.kept(b, f)?.clock;
        let theirs = &self.kept(a, f)?.clock;
        Ok(match (M::covers(ours, theirs), M::covers(theirs, ours)) {
            (true, true) => 0,
            (false, true) => 1,
            (true, false) => 2,
            (false, false) => 3,
        })
    }

    /// Whether a's and b's copies of file f have one payload.
    pub fn same_payload(&self, a: usize, b: usize, f: usize) -> Result<bool> {
        Ok(self.kept(a, f)?.payload == self.kept(b, f)?.payload)
    }

    /// The verdicts on b's copies against a's, a byte for each file.
    pub fn verdicts(&self, b: usize, a: usize) -> Result<Vec<u8>> {
        let mut verdicts = Vec::new(self.heap);
        for f in 0..self.files {
            verdicts.push(self.verdict(b, a, f)?)?;
        }
        Ok(verdicts)
    }

    /// The refusal 1 to 6 that is due, the lowest number first. `other` says that
    /// the card has other sizes than the tables, `room` is the buffer's length.
    pub fn refusal<P: Copy>(&self, call: &Call<P>, other: bool, room: usize) -> Option<Refusal> {
        let needs = Needs::of(call)?;
        let berths = [Some(needs.a), needs.b];
        if other {
            return refused(1, None, None);
        }
        for berth in berths {
            if berth.is_some_and(|b| b >= self.berths) {
                return refused(2, berth, None);
            }
        }
        if needs.file.is_some_and(|f| f >= self.files) {
            return refused(3, None, needs.file);
        }
        if needs.apart && needs.b == Some(needs.a) {
            return refused(4, needs.b, None);
        }
        if !self.works(needs.a) {
            return refused(5, Some(needs.a), None);
        }
        if needs.b.is_some_and(|b| self.works(b) == needs.b_empty) {
            return refused(5, needs.b, None);
        }
        if needs.buffer && room < self.files {
            return refused(6, None, None);
        }
        None
    }
}

fn refused(cause: u8, berth: Option<usize>, file: Option<usize>) -> Option<Refusal> {
    Some(Refusal { cause, berth, file })
}
