ghost use Rattle.std.specs.Prelude.{◌≡◌};
ghost use Rattle.log_replay.specs.declared.errors.LineError.TheVariants.{Mistake as Told, OutOfMemory};
ghost use Rattle.log_replay.specs.declared.errors.LogError.TheVariants.{OutOfMemory as NoMemory};

use season_log::Mistake;
use std::alloc::{AllocError, AllocFailed};
use std::io;

/// Why a line of a log is not answered.
#[derive(Drop)]
pub enum LineError<'a> {
    /// The line is no call. Nothing was carried out, and nothing was written.
    Mistake(Mistake<'a>),
    /// Memory ran out before the call. Nothing was carried out, and nothing was
    /// written.
    OutOfMemory,
    /// The call was carried out, and its answer could not be written whole.
    Unanswered(io::Error),
}

/// Why a log is not carried out to its end, nor to a line that is no call.
#[derive(Drop)]
pub enum LogError {
    /// A line could not be read: what is told of it, with its number. The lines
    /// before it were carried out and answered.
    Unreadable(String),
    /// Memory ran out. The lines before were carried out and answered.
    OutOfMemory,
    /// The lines before were carried out and answered, and one more was carried
    /// out, whose answer could not be written whole.
    Unanswered(io::Error),
}

impl From<AllocError> for LogError {
    ghost from_gives = { λ _ error. error ≡ NoMemory };

    fn from(_error: AllocError) -> LogError {
        LogError::OutOfMemory
    }
}

impl<'a> From<Mistake<'a>> for LineError<'a> {
    ghost from_gives = { λ mistake error. error ≡ Told mistake };

    fn from(mistake: Mistake<'a>) -> LineError<'a> {
        LineError::Mistake(mistake)
    }
}

impl From<AllocError> for LineError<'_> {
    ghost from_gives = { λ _ error. error ≡ OutOfMemory };

    fn from(_error: AllocError) -> Self {
        LineError::OutOfMemory
    }
}

impl<T: Drop> From<AllocFailed<T>> for LineError<'_> {
    ghost from_gives = { λ _ error. error ≡ OutOfMemory };

    fn from(_error: AllocFailed<T>) -> Self {
        LineError::from(AllocError)
    }
}
