ghost use Rattle.std.specs.Prelude.{◌≡◌, IfOk, IfErr};
ghost use Rattle.season_log.specs.Openings.{kind_word, payload_word, kind_number, payload_number, Opens, OpeningMistake};

use crate::mistakes::Mistake;
use crate::numbers::number;

/// The clock kinds that a log can ask for.
#[derive(Clone, Copy, PartialEq, Eq, Debug)]
pub enum Kind {
    /// Interval tree clocks.
    Tree = 0,
    /// Names and counts.
    Vector = 1,
}

/// The number of the clock kind.
impl From<Kind> for u8 {
    ghost from_gives = { λ kind number. number ≡ kind_number kind };

    fn from(kind: Kind) -> u8 {
        kind as u8
    }
}

impl Kind {
    fn read(word: &str) -> Result<Kind, Mistake<'_>>
        ensures { result ≡ kind_word word.entry }
    {
        match word {
            "tree" => Ok(Kind::Tree),
            "vector" => Ok(Kind::Vector),
            _ => Err(Mistake::UnknownKind(word)),
        }
    }
}

/// The payload kinds that a log can ask for.
#[derive(Clone, Copy, PartialEq, Eq, Debug)]
pub enum PayloadKind {
    /// The state of a valve.
    Valve = 0,
    /// A digest with a length.
    Ticket = 1,
}

/// The number of the payload kind.
impl From<PayloadKind> for u8 {
    ghost from_gives = { λ kind number. number ≡ payload_number kind };

    fn from(kind: PayloadKind) -> u8 {
        kind as u8
    }
}

impl PayloadKind {
    fn read(word: &str) -> Result<PayloadKind, Mistake<'_>>
        ensures { result ≡ payload_word word.entry }
    {
        match word {
            "valve" => Ok(PayloadKind::Valve),
            "ticket" => Ok(PayloadKind::Ticket),
            _ => Err(Mistake::UnknownPayload(word)),
        }
    }
}

/// What an open asks for. The words of its opening payloads are read once the
/// payload kind is known.
#[derive(Clone, Copy, PartialEq, Eq, Debug)]
pub struct Opening<'a, 'b> {
    pub kind: Kind,
    pub payload: PayloadKind,
    pub berths: usize,
    pub words: &'b [&'a str],
}

impl<'a, 'b> Opening<'a, 'b> {
    /// The opening that the words after `open` ask for.
    pub fn read(arguments: &'b [&'a str]) -> Result<Opening<'a, 'b>, Mistake<'a>>
        ensures read { IfOk result (Opens arguments.now) }
        ensures refused { IfErr result (OpeningMistake arguments.now) }
    {
        match arguments {
            [kind, payload, berths, words @ ..] => Ok(Opening {
                kind: Kind::read(kind)?,
                payload: PayloadKind::read(payload)?,
                berths: number(berths)?,
                words,
            }),
            _ => Err(Mistake::WordCount("open KIND PAYLOAD BERTHS WORD...")),
        }
    }
}
