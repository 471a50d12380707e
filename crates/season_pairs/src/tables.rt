ghost use Rattle.yard.specs.Entries.{Pens, Clocks};

use crate::samples::Sample;
use anyhow::Result;
use clock::{Clock, Fault};
use std::alloc::Global;
use std::fmt::Display;
use yard::{Card, OpenCard, blank_berth, blank_copy, open};
use yard_rules::{Answer, Berth, Reading, Record, State, Writing};

/// The tables of a yard, whose pens and clocks are all well made.
#[derive(Drop)]
pub struct Tables<C: Clock, P: Copy> {
    berths: Vec<Berth<C::Pen>>,
    copies: Vec<Record<C, P>>,
    ghost pens: { Pens C.meaning berths.items },
    ghost clocks: { Clocks C.meaning copies.items },
}

impl<C: Clock, P: Sample> Tables<C, P> {
    /// Opens a yard over tables of these lengths, with payload number f in file f.
    pub fn open(
        heap: Global,
        berths: usize,
        files: usize,
        copies: usize,
    ) -> Result<Result<(OpenCard, Tables<C, P>), Fault>> {
        let mut berths = vec![in heap; blank_berth::<C>(); berths]?;
        let mut copies = vec![in heap; blank_copy::<C, P>(P::sample(0)); copies]?;
        let mut payloads = Vec::new(heap);
        for f in 0..files {
            payloads.push(P::sample(f as u64))?;
        }
        match open::<C, P>(&mut berths, &mut copies, &payloads) {
            Ok(card) => Ok(Ok((card, Tables { berths, copies }))),
            Err(fault) => Ok(Err(fault)),
        }
    }

    /// Makes a call that writes.
    pub fn write(
        &mut self,
        card: &OpenCard,
        call: Writing<P>,
        bytes: &mut [u8],
    ) -> Result<Answer<C::Pen, C>, Fault> {
        yard::write(card, &mut self.berths, &mut self.copies, bytes, call)
    }

    /// Makes a call that reads, under either card.
    pub fn read<K: Card>(
        &self,
        card: &K,
        call: Reading,
        bytes: &mut [u8],
    ) -> Result<Answer<C::Pen, C>, Fault> {
        yard::read(card, &self.berths, &self.copies, bytes, call)
    }

    /// Whether berth b is in use.
    pub fn works(&self, b: usize) -> bool {
        self.berths
            .get(b)
            .is_some_and(|berth| berth.state == State::Working)
    }

    /// Whether record i has the payload of this number.
    pub fn holds(&self, i: usize, payload: u64) -> bool {
        let wanted = P::sample(payload);
        self.copies
            .get(i)
            .is_some_and(|copy| copy.payload == wanted)
    }
}

impl<C: Clock + Display, P: Sample> Tables<C, P>
where
    C::Pen: Display,
{
    /// Berth b's pen, as the kind writes it.
    pub fn pen_word(&self, heap: Global, b: usize) -> Result<String> {
        match self.berths.get(b) {
            Some(berth) => Ok(format!(in heap; "{}", berth.pen)?),
            None => Ok(String::new(heap)),
        }
    }

    /// The clock of record i, as the kind writes it.
    pub fn clock_word(&self, heap: Global, i: usize) -> Result<String> {
        match self.copies.get(i) {
            Some(copy) => Ok(format!(in heap; "{}", copy.clock)?),
            None => Ok(String::new(heap)),
        }
    }
}
