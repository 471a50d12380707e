use crate::answers::told;
use crate::drawing::Order;
use crate::samples::{Sample, Samples};
use crate::tables::Tables;
use crate::tally::Tally;
use anyhow::{Context, Result, ensure};
use clock::Clock;
use edit_model::{Answer, Kind, Model, Needs};
use std::alloc::Global;
use std::fmt::Display;
use yard::{Card, OpenCard};
use yard_rules::{Call, Reading};

/// A yard and the model beside it. A difference between them is an error that
/// says what was expected and what came.
#[derive(Drop)]
pub struct Pair<C: Clock, M: Kind, P: Copy> {
    pub heap: Global,
    pub tables: Tables<C, P>,
    pub model: Model<M>,
}

impl<C, M, P> Pair<C, M, P>
where
    C: Clock + Display,
    C::Pen: Display,
    M: Kind,
    P: Sample,
{
    /// Makes a call on both; the answers and the buffers are to be the same.
    pub fn call(&mut self, card: &OpenCard, order: &Order<Call<P>>) -> Result<Answer> {
        let mut bytes = vec![in self.heap; order.byte; order.room]?;
        let came = match order.call {
            Call::Reads(reading) => self.tables.read(card, reading, &mut bytes),
            Call::Writes(writing) => self.tables.write(card, writing, &mut bytes),
            // no season draws it: at its end it seals its cards
            Call::Seal => Ok(yard_rules::Answer::Done),
        };
        self.expect(
            &order.call,
            order.is_other(),
            order.byte,
            told(self.heap, came)?,
            &bytes,
        )
    }

    /// The same for a call that reads, under either card.
    pub fn read<K: Card>(&mut self, card: &K, order: &Order<Reading>) -> Result<Answer> {
        let mut bytes = vec![in self.heap; order.byte; order.room]?;
        let came = self.tables.read(card, order.call, &mut bytes);
        let call = Call::Reads(order.call);
        self.expect(
            &call,
            order.is_other(),
            order.byte,
            told(self.heap, came)?,
            &bytes,
        )
    }

    // The model's answer is to be the one that came, and so the buffer, whose bytes
    // were all `byte` beforehand.
    fn expect(
        &mut self,
        call: &Call<P>,
        other: bool,
        byte: u8,
        came: Answer,
        bytes: &[u8],
    ) -> Result<Answer> {
        let mut wanted = vec![in self.heap; byte; bytes.len()]?;
        let expected = self.model.answer::<Samples, P>(call, other, &mut wanted)?;
        ensure!(came == expected, "expected {expected:?}, came {came:?}");
        same_bytes(&wanted, bytes)?;
        Ok(came)
    }

    /// The state of every berth and every payload.
    pub fn compare_tables(&self) -> Result<()> {
        for b in 0..self.model.berths {
            let row = self.model.row(b)?;
            let works = row.works;
            ensure!(
                self.tables.works(b) == works,
                "berth {b} in use: expected {works}"
            );
            for (f, kept) in row.copies.iter().enumerate() {
                let payload = kept.payload;
                let place = self.place(b, f);
                ensure!(
                    self.tables.holds(place, payload),
                    "berth {b} file {f}: expected payload {payload}"
                );
            }
        }
        Ok(())
    }

    // The record of berth b and file f.
    fn place(&self, b: usize, f: usize) -> usize {
        b.saturating_mul(self.model.files).saturating_add(f)
    }

    /// The verdict of every two copies of a file: judge's, the one that the edits
    /// behind them say, and the one that the model's clocks say. Equal copies have
    /// one payload.
    pub fn compare_verdicts<K: Card>(&self, card: &K, tally: &mut Tally) -> Result<()> {
        for a in 0..self.model.berths {
            for b in 0..self.model.berths {
                if self.model.works(a) && self.model.works(b) {
                    self.compare_copies(card, a, b, tally)?;
                }
            }
        }
        Ok(())
    }

    fn compare_copies<K: Card>(
        &self,
        card: &K,
        a: usize,
        b: usize,
        tally: &mut Tally,
    ) -> Result<()> {
        for f in 0..self.model.files {
            let expected = self.expected_verdict(a, b, f)?;
            let call = Reading::Judge { a, b, f };
            let came = told(self.heap, self.tables.read(card, call, &mut []))?;
            ensure!(
                came == Answer::Verdict(expected),
                "{a} against {b}, file {f}: expected verdict {expected:?}, came {came:?}"
            );
            tally.count_verdict(expected, 1);
        }
        Ok(())
    }

    // The verdict by the edits, which is the one by the model's clocks. Equal copies
    // have one payload.
    fn expected_verdict(&self, a: usize, b: usize, f: usize) -> Result<u8> {
        let expected = self.model.verdict(a, b, f)?;
        let marks = self.model.marks_verdict(a, b, f)?;
        ensure!(
            marks == expected,
            "{a} against {b}, file {f}: {expected:?} by edits, {marks} by marks"
        );
        let alike = self.model.same_payload(a, b, f)?;
        ensure!(
            alike || expected != 0,
            "{a} equal to {b}, file {f}, with other payloads"
        );
        Ok(expected)
    }

    /// The pen and the clocks of berth b, as the kind writes them.
    pub fn compare_words(&self, b: usize, tally: &mut Tally) -> Result<()> {
        let row = self.model.row(b)?;
        let expected = M::pen_word(self.heap, &row.pen)?;
        let came = self.tables.pen_word(self.heap, b)?;
        same_word(&expected, &came)?;
        tally.count_word();
        for (f, kept) in row.copies.iter().enumerate() {
            let expected = M::clock_word(self.heap, &kept.clock)?;
            let came = self.tables.clock_word(self.heap, self.place(b, f))?;
            same_word(&expected, &came)?;
            tally.count_word();
        }
        Ok(())
    }

    /// The same of the berths that a call names.
    pub fn compare_named(&self, call: &Call<P>, tally: &mut Tally) -> Result<()> {
        let Some(needs) = Needs::of(call) else {
            return Ok(());
        };
        for berth in [Some(needs.a), needs.b] {
            if let Some(b) = berth.filter(|b| *b < self.model.berths) {
                self.compare_words(b, tally)?;
            }
        }
        Ok(())
    }

    // What show answers of every copy, or refuses.
    fn compare_shown<K: Card>(&mut self, card: &K) -> Result<()> {
        for a in 0..self.model.berths {
            for f in 0..self.model.files {
                let order = Order::plain(Reading::Show { a, f }, 0);
                self.read(card, &order)
                    .context(format_args!("berth {a} file {f} shown"))?;
            }
        }
        Ok(())
    }

    /// Every pen and clock, also as show answers them, every state and payload, and
    /// every verdict.
    pub fn compare_all<K: Card>(&mut self, card: &K, tally: &mut Tally) -> Result<()> {
        self.compare_shown(card)?;
        for b in 0..self.model.berths {
            self.compare_words(b, tally)?;
        }
        self.compare_tables()?;
        self.compare_verdicts(card, tally)
    }
}

fn same_bytes(expected: &[u8], came: &[u8]) -> Result<()> {
    ensure!(
        came == expected,
        "expected bytes {expected:?}, came {came:?}"
    );
    Ok(())
}

fn same_word(expected: &String, came: &String) -> Result<()> {
    ensure!(
        came.as_str() == expected.as_str(),
        "expected {expected:?}, came {came:?}"
    );
    Ok(())
}
