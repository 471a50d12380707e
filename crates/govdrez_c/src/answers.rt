use clock::{Cause, Fault, Verdict};
use std::fmt;

/// What a step answers.
#[derive(Clone, Copy)]
pub(crate) enum Answer {
    /// It is done, and what it made stands in a table.
    Done,
    /// Whether the one clock covers the other.
    Covers(bool),
    Judged(Verdict),
    Refused(Cause),
}

impl Answer {
    /// Done, or the refusal.
    #[inline]
    pub(crate) fn of(answer: Result<(), Fault>) -> Answer {
        match answer {
            Ok(()) => Answer::Done,
            Err(fault) => Answer::Refused(fault.cause),
        }
    }

    /// A number that depends on the whole answer, for the sum over a run.
    #[inline]
    pub(crate) fn number(&self) -> u64 {
        match *self {
            Answer::Done => 1,
            Answer::Covers(answer) => 2 + answer as u64,
            Answer::Judged(verdict) => 10 + u8::from(verdict) as u64,
            Answer::Refused(cause) => 100 + u8::from(cause) as u64,
        }
    }
}

/// As a log prints it: `done`, `covers`, `conflict`, `refused 12`.
impl fmt::Display for Answer {
    fn fmt<W: fmt::Write>(&self, f: &mut fmt::Formatter<W>) -> fmt::Result {
        match *self {
            Answer::Done => f.write_str("done"),
            Answer::Covers(true) => f.write_str("covers"),
            Answer::Covers(false) => f.write_str("does not cover"),
            Answer::Judged(verdict) => write!(f, "{verdict}"),
            Answer::Refused(cause) => {
                let number = u8::from(cause);
                write!(f, "refused {number}")
            }
        }
    }
}
