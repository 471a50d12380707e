ghost use Rattle.std.specs.Prelude.{◌≡◌, Some};
ghost use Rattle.season.specs.declared.errors.OpenError.TheVariants.{Refused, OutOfMemory};
ghost use Rattle.season.specs.Opens.{open_error_text};

use clock::Fault;
use std::alloc::{AllocError, AllocFailed};
use std::error::Error;
use std::fmt;

/// Why there is no season.
#[derive(Clone, Copy, PartialEq, Eq, Debug)]
pub enum OpenError {
    /// The yard refused to open.
    Refused(Fault),
    OutOfMemory,
}

impl fmt::Display for OpenError {
    ghost output = { λ error. Some (open_error_text error) };

    fn fmt<W: fmt::Write>(&self, f: &mut fmt::Formatter<W>) -> fmt::Result {
        match self {
            OpenError::Refused(fault) => write!(f, "{fault}"),
            OpenError::OutOfMemory => write!(f, "out of memory"),
        }
    }
}

impl Error for OpenError {}

impl From<Fault> for OpenError {
    ghost from_gives = { λ fault error. error ≡ Refused fault };

    fn from(fault: Fault) -> OpenError {
        OpenError::Refused(fault)
    }
}

impl From<AllocError> for OpenError {
    ghost from_gives = { λ _ error. error ≡ OutOfMemory };

    fn from(_error: AllocError) -> OpenError {
        OpenError::OutOfMemory
    }
}

impl<T: Drop> From<AllocFailed<T>> for OpenError {
    ghost from_gives = { λ _ error. error ≡ OutOfMemory };

    fn from(_error: AllocFailed<T>) -> OpenError {
        OpenError::OutOfMemory
    }
}
