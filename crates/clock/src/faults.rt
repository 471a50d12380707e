ghost use Rattle.std.specs.Prelude.{◌≡◌, Some};
ghost use Rattle.clock.specs.Answers.{fault_of};
ghost use Rattle.clock.specs.Faults.{fault_text};

use crate::causes::Cause;
use std::error::Error;
use std::fmt;

/// A refusal: its cause, and the berth and the file that it is about, each
/// absent where the refusal has none. A clock kind leaves both absent; the yard
/// fills them in on the way up.
#[derive(Clone, Copy, PartialEq, Eq, Debug)]
pub struct Fault {
    pub cause: Cause,
    pub berth: Option<usize>,
    pub file: Option<usize>,
}

/// A refusal with no place yet.
impl From<Cause> for Fault {
    ghost from_gives = { λ cause fault. fault ≡ fault_of cause };

    fn from(cause: Cause) -> Fault {
        Fault {
            cause,
            berth: None,
            file: None,
        }
    }
}

impl Fault {
    /// The same refusal, about this berth.
    pub fn at_berth(self, berth: usize) -> Fault
        ensures { result ≡ record { cause = self.cause; berth = Some berth; file = self.file } }
    {
        Fault {
            berth: Some(berth),
            ..self
        }
    }

    /// The same refusal, about this file.
    pub fn at_file(self, file: usize) -> Fault
        ensures { result ≡ record { cause = self.cause; berth = self.berth; file = Some file } }
    {
        Fault {
            file: Some(file),
            ..self
        }
    }
}

/// The refusal as a log prints it, as `refused 7 berth 1 file 0`.
impl fmt::Display for Fault {
    ghost output = { λ fault. Some (fault_text fault) };

    fn fmt<W: fmt::Write>(&self, f: &mut fmt::Formatter<W>) -> fmt::Result {
        let number = u8::from(self.cause);
        write!(f, "refused {number}")?;
        if let Some(berth) = self.berth {
            write!(f, " berth {berth}")?;
        }
        if let Some(file) = self.file {
            write!(f, " file {file}")?;
        }
        Ok(())
    }
}

impl Error for Fault {}
