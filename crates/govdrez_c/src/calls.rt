use payload::Ticket;
use yard_rules::{Call, Reading, Writing};

// The calls of a yard, by the number that a `YardCall` gives.
const FORK: u32 = 0;

const EDIT: u32 = 1;

const JUDGE: u32 = 2;

const REPORT: u32 = 3;

const PULL: u32 = 4;

const SETTLE: u32 = 5;

const RETIRE: u32 = 6;

/// One call of a season: 0 fork, 1 edit, 2 judge, 3 report, 4 pull, 5 settle, 6
/// retire, any other drop, with its berths, its file, and the number of the
/// payload that is written.
#[repr(C)]
#[derive(Clone, Copy)]
pub struct YardCall {
    pub call: u32,
    pub a: u32,
    pub b: u32,
    pub file: u32,
    pub payload: u64,
}

/// The payload with this number.
pub(crate) fn ticket(number: u64) -> Ticket {
    Ticket::new([(number % 256) as u8; 32], number)
}

impl YardCall {
    /// The call that it stands for.
    #[inline]
    pub(crate) fn call(&self) -> Call<Ticket> {
        let (a, b, f) = (self.a as usize, self.b as usize, self.file as usize);
        let payload = ticket(self.payload);
        match self.call {
            JUDGE => Call::Reads(Reading::Judge { a, b, f }),
            REPORT => Call::Reads(Reading::Report { a, b }),
            FORK => Call::Writes(Writing::Fork { a, b }),
            EDIT => Call::Writes(Writing::Edit { a, f, payload }),
            PULL => Call::Writes(Writing::Pull { a, b }),
            SETTLE => Call::Writes(Writing::Settle { a, b, f, payload }),
            RETIRE => Call::Writes(Writing::Retire { a, b }),
            _ => Call::Writes(Writing::Drop { a }),
        }
    }
}
