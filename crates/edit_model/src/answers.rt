use clock::Fault;

/// A refusal by its number, with its berth and file.
#[derive(Clone, Copy, PartialEq, Eq, Debug)]
pub struct Refusal {
    pub cause: u8,
    pub berth: Option<usize>,
    pub file: Option<usize>,
}

/// What a call answers, in numbers and words of the model's own.
#[derive(PartialEq, Eq, Debug, Drop)]
pub enum Answer {
    /// Accepted, with nothing to say.
    Done,
    /// Judge's verdict, by its number.
    Verdict(u8),
    /// Report's counts: equal, stale, ahead, in conflict, twins.
    Counts(usize, usize, usize, usize, usize),
    /// Pull's counts: taken, and in conflict.
    Taken(usize, usize),
    /// Show's pen and clock, as the kind writes them.
    Shown(String, String),
    Refused(Refusal),
}

impl Answer {
    /// A refusal about a berth and a file.
    pub fn refused(cause: u8, berth: Option<usize>, file: Option<usize>) -> Answer {
        Answer::Refused(Refusal { cause, berth, file })
    }
}

/// The yard's refusal, by its number.
impl From<Fault> for Answer {
    fn from(fault: Fault) -> Answer {
        Answer::refused(fault.cause.into(), fault.berth, fault.file)
    }
}
