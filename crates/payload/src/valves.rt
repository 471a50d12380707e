ghost use Rattle.std.specs.Prelude.{◌≡◌, IfOk, Some};
ghost use Rattle.payload.specs.Valves.{shut_valve, open_valve, part_valve, flow_valve, case_of, case_number, number_of, valve_word, number_word, valve_text, ReadBack, same_valve};
ghost use Rattle.payload.specs.Errors.{valve_error_text, valve_error_number};
ghost use Rattle.std.proofs.Common.{rules};

use crate::decimals::{DecimalError, decimal};
use crate::kinds::Payload;
use std::error::Error;
use std::fmt;
use std::str::FromStr;

/// The cases of a valve.
#[derive(Clone, Copy, PartialEq, Eq, Debug)]
pub enum Case {
    Shut = 0,
    Open = 1,
    /// Open by a number of percent.
    Part = 2,
    /// Set to a flow in litres a second.
    Flow = 3,
}

/// The number of the case.
impl From<Case> for u8 {
    ghost from_gives = { λ case number. number ≡ case_number case };

    fn from(case: Case) -> u8 {
        case as u8
    }
}

/// The state of a valve: shut, open, part with 1 to 99 percent, or flow with 0
/// to 9,999 litres a second. Only the functions below make one, so that there
/// is no other.
#[derive(Clone, Copy, PartialEq, Eq, Debug)]
pub struct Valve(State);

// Private, so that no other module makes a valve.
#[derive(Clone, Copy, PartialEq, Eq, Debug)]
enum State {
    Shut,
    Open,
    Part(u16),
    Flow(u16),
}

/// Why there is no such valve.
#[derive(Clone, Copy, PartialEq, Eq, Debug)]
pub enum ValveError {
    /// The word is none of a valve.
    UnknownWord = 1,
    /// What stands for the number is none.
    NotNumber = 2,
    /// The part is not 1 to 99 percent.
    PartRange = 3,
    /// The flow is not 0 to 9,999 litres a second.
    FlowRange = 4,
}

/// The number of the refusal.
impl From<ValveError> for u8 {
    ghost from_gives = { λ error number. number ≡ valve_error_number error };

    fn from(error: ValveError) -> u8 {
        error as u8
    }
}

impl fmt::Display for ValveError {
    ghost output = { λ error. Some (valve_error_text error) };

    fn fmt<W: fmt::Write>(&self, f: &mut fmt::Formatter<W>) -> fmt::Result {
        f.write_str(match *self {
            ValveError::UnknownWord => "not a word of a valve",
            ValveError::NotNumber => "not a decimal number",
            ValveError::PartRange => "a part is 1 to 99 percent",
            ValveError::FlowRange => "a flow is 0 to 9999 litres a second",
        })
    }
}

impl Error for ValveError {}

// `shut`, `open`, `part` and `flow` are four functions, as they are four words of the rules.
impl Valve {
    /// The shut valve.
    pub fn shut() -> Valve
        ensures result { result ≡ shut_valve }
        ensures read_back { ReadBack result }
    {
        Valve(State::Shut)
    }

    /// The open valve.
    pub fn open() -> Valve
        ensures result { result ≡ open_valve }
        ensures read_back { ReadBack result }
    {
        Valve(State::Open)
    }

    /// A valve open by 1 to 99 percent. Refused for another number.
    #[tactic(auto, using(crate::proofs::Printing::part_reads))]
    pub fn part(percent: u64) -> Result<Valve, ValveError>
        ensures result { result ≡ part_valve percent }
        ensures read_back { IfOk result ReadBack }
    {
        match percent {
            1..=99 => Ok(Valve(State::Part(percent as u16))),
            _ => Err(ValveError::PartRange),
        }
    }

    /// A valve set to 0 to 9,999 litres a second. Refused for another number.
    #[tactic(auto, using(crate::proofs::Printing::flow_reads))]
    pub fn flow(litres: u64) -> Result<Valve, ValveError>
        ensures result { result ≡ flow_valve litres }
        ensures read_back { IfOk result ReadBack }
    {
        match litres {
            0..=9999 => Ok(Valve(State::Flow(litres as u16))),
            _ => Err(ValveError::FlowRange),
        }
    }

    /// The case.
    pub fn case(&self) -> Case
        ensures { result ≡ case_of self.now }
    {
        match self.0 {
            State::Shut => Case::Shut,
            State::Open => Case::Open,
            State::Part(_) => Case::Part,
            State::Flow(_) => Case::Flow,
        }
    }

    /// The percent of a part, the litres a second of a flow, else 0.
    pub fn number(&self) -> u16
        ensures { result ≡ number_of self.now }
    {
        match self.0 {
            State::Shut | State::Open => 0,
            State::Part(number) | State::Flow(number) => number,
        }
    }
}

/// The valve that a word of a log stands for: `shut`, `open`, `part:40` or
/// `flow:300`, the number without leading zeros.
impl FromStr for Valve {
    type Err = ValveError;

    ghost from_str_gives = { λ word answer. answer ≡ valve_word word };

    fn from_str(word: &str) -> Result<Valve, ValveError> {
        if word == "shut" {
            Ok(Valve::shut())
        } else if word == "open" {
            Ok(Valve::open())
        } else if let Some(percent) = word.strip_prefix("part:") {
            Valve::part(read_number(percent, ValveError::PartRange)?)
        } else if let Some(litres) = word.strip_prefix("flow:") {
            Valve::flow(read_number(litres, ValveError::FlowRange)?)
        } else {
            Err(ValveError::UnknownWord)
        }
    }
}

// The number in a word of a valve. One that does not fit 64 bits is out of `range`.
fn read_number(number: &str, range: ValveError) -> Result<u64, ValveError>
    ensures { result ≡ number_word range number.now }
{
    decimal(number).map_err(|error| match error {
        DecimalError::NotNumber => ValveError::NotNumber,
        DecimalError::OutOfRange => range,
    })
}

/// Alike exactly when the case and the number are the same.
impl Payload for Valve {
    ghost same = { same_valve };

    ghost reflexive = { Prim.search rules };

    ghost symmetric = { Prim.search rules };

    ghost transitive = { Prim.search rules };

    fn alike(&self, other: &Valve) -> bool {
        self.case() == other.case() && self.number() == other.number()
    }
}

/// `shut`, `open`, `part:40` or `flow:300`
impl fmt::Display for Valve {
    ghost output = { λ valve. Some (valve_text valve) };

    fn fmt<W: fmt::Write>(&self, f: &mut fmt::Formatter<W>) -> fmt::Result {
        match self.0 {
            State::Shut => write!(f, "shut"),
            State::Open => write!(f, "open"),
            State::Part(percent) => write!(f, "part:{percent}"),
            State::Flow(litres) => write!(f, "flow:{litres}"),
        }
    }
}
