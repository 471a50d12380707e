ghost use Rattle.std.specs.Prelude.{◌≡◌, Some};
ghost use Rattle.season_log.specs.declared.mistakes.PayloadError.TheVariants.{Valve, Ticket};
ghost use Rattle.season_log.specs.Mistakes.{mistake_text, payload_error_text};

use crate::forms::READING;
use payload::{DecimalError, TicketError, ValveError};
use std::error::Error;
use std::fmt;

/// Why a line is no call.
#[derive(Clone, Copy, PartialEq, Eq, Debug)]
pub enum Mistake<'a> {
    /// No call has this name.
    UnknownCall(&'a str),
    /// The call takes more words or fewer; this is how it is written.
    WordCount(&'static str),
    /// This is the name of no clock kind.
    UnknownKind(&'a str),
    /// This is the name of no payload kind.
    UnknownPayload(&'a str),
    /// This word should be a berth or a file, or a number of berths.
    NotNumber(&'a str, DecimalError),
    /// This word should be a payload of the yard's kind.
    NotPayload(&'a str, PayloadError),
    /// There is no yard for this call.
    NoYard(&'a str),
    /// The yard is sealed, and this call writes.
    Sealed(&'a str),
}

impl fmt::Display for Mistake<'_> {
    ghost output = { λ mistake. Some (mistake_text mistake) };

    fn fmt<W: fmt::Write>(&self, f: &mut fmt::Formatter<W>) -> fmt::Result {
        match self {
            Mistake::UnknownCall(name) => write!(f, "no call is named '{name}'"),
            Mistake::WordCount(form) => {
                write!(f, "wrong number of words: the call is written '{form}'")
            }
            Mistake::UnknownKind(word) => {
                write!(f, "'{word}' is no clock kind: write tree or vector")
            }
            Mistake::UnknownPayload(word) => {
                write!(f, "'{word}' is no payload kind: write valve or ticket")
            }
            Mistake::NotNumber(word, DecimalError::NotNumber) => write!(
                f,
                "'{word}' should be a number: digits alone, with no leading zero"
            ),
            Mistake::NotNumber(word, DecimalError::OutOfRange) => {
                write!(f, "'{word}' is too large: it does not fit 64 bits")
            }
            Mistake::NotPayload(word, error) => write!(f, "'{word}' is {error}"),
            Mistake::NoYard(name) => write!(
                f,
                "'{name}' needs a yard: no open stands before it, or that was refused"
            ),
            Mistake::Sealed(name) => write!(
                f,
                "'{name}' after seal: a sealed yard answers only {READING}"
            ),
        }
    }
}

impl Error for Mistake<'_> {}

/// Why a word is no payload of its kind.
#[derive(Clone, Copy, PartialEq, Eq, Debug)]
pub enum PayloadError {
    /// It is no valve.
    Valve(ValveError),
    /// It is no ticket.
    Ticket(TicketError),
}

impl From<ValveError> for PayloadError {
    ghost from_gives = { λ error converted. converted ≡ Valve error };

    fn from(error: ValveError) -> PayloadError {
        PayloadError::Valve(error)
    }
}

impl From<TicketError> for PayloadError {
    ghost from_gives = { λ error converted. converted ≡ Ticket error };

    fn from(error: TicketError) -> PayloadError {
        PayloadError::Ticket(error)
    }
}

impl fmt::Display for PayloadError {
    ghost output = { λ error. Some (payload_error_text error) };

    fn fmt<W: fmt::Write>(&self, f: &mut fmt::Formatter<W>) -> fmt::Result {
        match self {
            PayloadError::Valve(ValveError::UnknownWord) => write!(
                f,
                "no valve: write shut, open, part:PERCENT or flow:LITRES"
            ),
            PayloadError::Valve(error) => write!(f, "no valve: {error}"),
            PayloadError::Ticket(error) => write!(f, "no ticket: {error}"),
        }
    }
}

impl Error for PayloadError {}
