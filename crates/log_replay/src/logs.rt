ghost use Rattle.std.specs.Prelude.{◌≡◌, IfOk, IfErr};
ghost use Rattle.std.specs.Option.{option_map};
ghost use Rattle.std.specs.String.{string_bytes};
ghost use Rattle.log_replay.specs.Logs.{told_text, Replays, Fails};

use crate::errors::{LineError, LogError};
use crate::replays::Replay;
use std::alloc::{AllocError, Global};
use std::io;
use std::io::{BufRead, BufWriter, Write};
use std::process::ExitCode;

/// Replays the log to standard output, and stops at the first line that is no
/// call, or cannot be read: what is told of it goes to standard error, and the
/// status is 1.
pub fn replay_log<R: BufRead + Drop>(
    rt: &(impl Print + Eprint + AllocGlobal),
    log: R,
) -> io::Result<ExitCode> {
    let alloc = rt.alloc();
    let mut out = BufWriter::new(alloc, io::writer(rt))?;
    let stopped = match Replay::new(alloc).lines(log, &mut out) {
        Ok(told) => told,
        Err(LogError::Unreadable(told)) => Some(told),
        Err(LogError::OutOfMemory) => return Err(io::Error::from(io::ErrorKind::OutOfMemory)),
        Err(LogError::Unanswered(error)) => return Err(error),
    };
    out.flush()?;
    match stopped {
        None => Ok(ExitCode::SUCCESS),
        Some(told) => {
            eprintln!(rt; "{told}")?;
            Ok(ExitCode::FAILURE)
        }
    }
}

impl Replay {
    /// Carries out the lines of a log one after the other and writes their
    /// answers, up to the first that is no call; the yard is left as the lines
    /// before that one left it. What is told of it is answered, as
    /// `line 3: no call is named 'prune'`; lines count from 1.
    pub fn lines<R: BufRead + Drop, W: Write>(
        &mut self,
        log: R,
        out: &mut W,
    ) -> Result<Option<String>, LogError>
        ensures replays { IfOk result (λ told. Replays (R.remaining log) self.old self.new
            (option_map string_bytes told) (W.contents out.old) (W.contents out.new)) }
        ensures fails { IfErr result (λ error. Fails (R.remaining log) self.old self.new
            error (W.contents out.old) (W.contents out.new)) }
    {
        let alloc = self.alloc;
        let mut number = 0u64;
        for line in log.lines(alloc) {
            number = number.saturating_add(1);
            let line = match line {
                Ok(line) => line,
                Err(error) => {
                    let what = format!(in alloc; "{error}")?;
                    return Err(LogError::Unreadable(told(alloc, number, what.as_str())?));
                }
            };
            match self.line(line.as_str(), out) {
                Ok(()) => {}
                Err(LineError::Mistake(mistake)) => {
                    let what = format!(in alloc; "{mistake}")?;
                    return Ok(Some(told(alloc, number, what.as_str())?));
                }
                Err(LineError::OutOfMemory) => return Err(LogError::OutOfMemory),
                Err(LineError::Unanswered(error)) => return Err(LogError::Unanswered(error)),
            }
        }
        Ok(None)
    }
}

// What is told of the line of this number, at which a log stops.
fn told(alloc: Global, number: u64, what: &str) -> Result<String, AllocError>
    ensures { IfOk result (λ text. string_bytes text ≡ told_text number what.now) }
{
    format!(in alloc; "line {number}: {what}")
}
