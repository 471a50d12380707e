ghost use Rattle.std.specs.Prelude.{take};
ghost use Rattle.std.specs.Fmt.{WritesOnOk};
ghost use Rattle.season_log.specs.Answers.{reply_text, bytes_text};

use std::fmt;
use yard_rules::{Answer, Sizes};

/// A byte for each file that a yard can have.
pub type Buffer = [u8; 32];

/// What a line of a log is answered when its call is accepted.
#[derive(Clone, Copy, PartialEq, Eq, Debug)]
pub enum Reply<Q, C> {
    /// A yard of these sizes was opened.
    Opened(Sizes),
    /// A call's answer, and its buffer, with a verdict on each of so many files
    /// where the call gives them.
    Answered {
        answer: Answer<Q, C>,
        bytes: Buffer,
        files: usize,
    },
}

/// The reply as a log prints it; a refusal prints itself.
impl<Q: fmt::Display, C: fmt::Display> fmt::Display for Reply<Q, C> {
    ghost output = { reply_text Q.output C.output };

    fn fmt<W: fmt::Write>(&self, f: &mut fmt::Formatter<W>) -> fmt::Result {
        match self {
            Reply::Opened(sizes) => {
                let (berths, files) = (sizes.berths, sizes.files);
                write!(f, "ok {berths} berths {files} files")
            }
            Reply::Answered {
                answer,
                bytes,
                files,
            } => match answer {
                Answer::Done => write!(f, "ok"),
                Answer::Judged(verdict) => write!(f, "{verdict}"),
                Answer::Reported {
                    equal,
                    stale,
                    ahead,
                    conflicts,
                    twins,
                } => {
                    write_bytes(f, bytes, *files)?;
                    write!(
                        f,
                        "| equal {equal} stale {stale} ahead {ahead} conflict {conflicts} twins {twins}"
                    )
                }
                Answer::Pulled { taken, conflicts } => {
                    write_bytes(f, bytes, *files)?;
                    write!(f, "| taken {taken} conflict {conflicts}")
                }
                Answer::Shown { pen, clock } => write!(f, "{pen} {clock}"),
            },
        }
    }
}

// The first bytes of a buffer, a space after each.
fn write_bytes<W: fmt::Write>(
    f: &mut fmt::Formatter<W>,
    bytes: &Buffer,
    files: usize,
) -> fmt::Result
    ensures { WritesOnOk W.write_str_gives f.old result (bytes_text (take files bytes.now)) f.new }
{
    for byte in &bytes[..files.min(bytes.len())] {
        write!(f, "{byte} ")?;
    }
    Ok(())
}
