ghost use Rattle.std.specs.Prelude.{◌==◌, refl};
ghost use Rattle.std.proofs.Common.{sym, ◌∙◌, eq-eqb, eqb-true};

use edit_model::Numbering;
use payload::{Case, Payload, Ticket, Valve};
use std::fmt::Debug;

/// A payload kind with a payload for each of the model's numbers, different ones
/// for different numbers: so two are alike exactly where their numbers are one.
pub trait Sample: Payload + PartialEq + Debug {
    /// The kind's name, as the summary prints it.
    const NAME: &'static str;

    /// The kind's part of a season's seed.
    const START: u64;

    /// The payload that stands for this number, below 10,000.
    fn sample(number: u64) -> Self;

    /// The number that it stands for, by its parts.
    fn as_number(&self) -> u64;
}

/// The numbers of the samples, for the model.
pub struct Samples;

impl<P: Sample> Numbering<P> for Samples {
    fn number(payload: &P) -> u64 {
        payload.as_number()
    }
}

/// Shut, open, the 99 parts, and then flows.
impl Sample for Valve {
    const NAME: &'static str = "valves";

    const START: u64 = 1;

    fn sample(number: u64) -> Valve {
        let valve = match number {
            0 => return Valve::shut(),
            1 => return Valve::open(),
            2..101 => Valve::part(number - 1),
            _ => Valve::flow(number - 101),
        };
        valve.unwrap_or(Valve::open())
    }

    fn as_number(&self) -> u64 {
        let number = self.number() as u64;
        match self.case() {
            Case::Shut => 0,
            Case::Open => 1,
            Case::Part => number + 1,
            Case::Flow => number + 101,
        }
    }
}

/// Tickets that differ in one byte of the digest, or only in the length.
impl Sample for Ticket {
    const NAME: &'static str = "tickets";

    const START: u64 = 2;

    fn sample(number: u64) -> Ticket {
        let mut digest = [7; 32];
        for (place, byte) in digest.iter_mut().enumerate() {
            if place as u64 == number % 33 {
                *byte = 8;
            }
        }
        Ticket::new(digest, number / 33)
    }

    fn as_number(&self) -> u64 {
        let place = self.digest().iter().position(|byte| *byte == 8);
        let place = place.unwrap_or(32) as u64;
        self.length().saturating_mul(33).saturating_add(place)
    }
}

/// A payload kind of this program's own: the number that a copy is labelled with.
#[derive(Clone, Copy, PartialEq, Eq, Debug)]
pub struct Label(u64);

/// Alike where the numbers are the same.
impl Payload for Label {
    ghost same = { λ x y. x.0 == y.0 };

    ghost reflexive = { λ x. eq-eqb x.0 x.0 refl };

    ghost symmetric = { λ x y e. eq-eqb y.0 x.0 (sym (eqb-true x.0 y.0 e)) };

    ghost transitive = { λ x y z e f. eq-eqb x.0 z.0 (eqb-true x.0 y.0 e ∙ eqb-true y.0 z.0 f) };

    fn alike(&self, other: &Label) -> bool {
        let (mine, theirs) = (self.0, other.0);
        mine == theirs
    }
}

impl Sample for Label {
    const NAME: &'static str = "labels";

    const START: u64 = 3;

    fn sample(number: u64) -> Label {
        Label(number)
    }

    fn as_number(&self) -> u64 {
        self.0
    }
}
