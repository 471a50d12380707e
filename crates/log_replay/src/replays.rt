ghost use Rattle.std.specs.Prelude.{◌≡◌, None, codes, IfOk};
ghost use Rattle.std.specs.Str.{bytes_eq};
ghost use Rattle.log_replay.specs.AnyYards.{AnyOpenLine, AnyOpenMistake};
ghost use Rattle.log_replay.specs.Outcomes.{Comes};
ghost use Rattle.log_replay.specs.Replays.{Leaves, Ends, WordsLeave, WordsEnd, LineLeaves, LineEnds};
ghost use Rattle.log_replay.specs.Words.{begins_remark, IsWords};

use crate::any_yards::AnyYard;
use crate::errors::LineError;
use season_log::without_yard;
use std::alloc::{AllocFailed, Global};
use std::io::Write;
use std::marker::Model;

/// A log that is being replayed, line by line.
#[derive(Drop)]
pub struct Replay {
    pub(crate) alloc: Global,
    // The yard of the latest open, if that was accepted.
    yard: Option<AnyYard>,
}

/// A clause sees a log that is being replayed as the yard of its latest open, if
/// that was accepted.
impl Model for Replay {
    ghost use Rattle.std.specs.Prelude.{Option};
    ghost use Rattle.log_replay.specs.declared.any_yards.AnyYard.{AnyYard};

    ghost Value = { Option AnyYard };

    ghost view = { λ r. r.yard };
}

impl Replay {
    /// A log before its first line: there is no yard.
    pub fn new(alloc: Global) -> Replay
        ensures { result ≡ None }
    {
        Replay { alloc, yard: None }
    }

    /// Carries out a line and writes its answer. A blank line, and one whose
    /// first word begins with `#`, asks for nothing. After a line that is no
    /// call, and where memory ran out before it, the yard is what it was and
    /// nothing was written.
    pub fn line<'a, W: Write>(&mut self, line: &'a str, out: &mut W) -> Result<(), LineError<'a>>
        ensures { Comes (LineEnds line.now self.old) (self.new ≡ self.old)
            (LineLeaves line.now self.old self.new)
            result (W.contents out.old) (W.contents out.new) }
    {
        let words = words_of(self.alloc, line)?;
        self.words(words.as_slice(), out)
    }

    fn words<'a, W: Write>(&mut self, words: &[&'a str], out: &mut W) -> Result<(), LineError<'a>>
        ensures { Comes (WordsEnd words.now self.old) (self.new ≡ self.old)
            (WordsLeave words.now self.old self.new)
            result (W.contents out.old) (W.contents out.new) }
    {
        match words {
            [] => Ok(()),
            [first, ..] if is_remark(first) => Ok(()),
            [name, arguments @ ..] => self.call(name, arguments, out),
        }
    }

    fn call<'a, W: Write>(
        &mut self,
        name: &'a str,
        arguments: &[&'a str],
        out: &mut W,
    ) -> Result<(), LineError<'a>>
        ensures { let is_open = bytes_eq name.now (codes "open") in
            Comes (Ends is_open self.old name.entry arguments.now) (self.new ≡ self.old)
            (Leaves is_open self.old name.now arguments.now self.new)
            result (W.contents out.old) (W.contents out.new) }
    {
        if name == "open" {
            return self.open(arguments, out);
        }
        let Some(yard) = self.yard.take() else {
            return Err(LineError::Mistake(without_yard(name)));
        };
        let (yard, done) = yard.answer(name, arguments, out);
        self.yard = Some(yard);
        done
    }

    // What is opened stands in place of the yard before.
    fn open<'a, W: Write>(
        &mut self,
        arguments: &[&'a str],
        out: &mut W,
    ) -> Result<(), LineError<'a>>
        ensures { Comes (AnyOpenMistake arguments.now) (self.new ≡ self.old)
            (AnyOpenLine arguments.now self.new)
            result (W.contents out.old) (W.contents out.new) }
    {
        let (yard, written) = AnyYard::open(self.alloc, arguments, out)?;
        self.yard = yard;
        match written {
            Ok(()) => Ok(()),
            Err(error) => Err(LineError::Unanswered(error)),
        }
    }
}

// The words of a line: white space parts them.
fn words_of<'a>(alloc: Global, line: &'a str) -> Result<Vec<&'a str>, AllocFailed<&'a str>>
    ensures { IfOk result (λ words. IsWords line.now words.items) }
{
    let mut words = Vec::new(alloc);
    for word in line.split_whitespace() {
        words.push(word)?;
    }
    Ok(words)
}

// Whether a line is passed over that begins with this word.
fn is_remark(word: &str) -> bool
    ensures { result ≡ begins_remark word.now }
{
    matches!(word.as_bytes(), [b'#', ..])
}
