ghost use Rattle.std.specs.Prelude.{◌≡◌, OnOk};
ghost use Rattle.log_replay.specs.Lines.{Line, LineMistake};
ghost use Rattle.log_replay.specs.Outcomes.{Writes, Comes};
ghost use Rattle.log_replay.specs.Texts.{line_text};

use crate::errors::LineError;
use clock::Clock;
use payload::Payload;
use season_log::{PayloadError, read_call};
use season_replay::{Answered, Yard};
use std::fmt::Display;
use std::io;
use std::io::Write;
use std::str::FromStr;

/// Carries out the call of this name on the yard, and writes the answer: the
/// yard that there is then, and what came of the line.
pub fn answer<'a, C: Clock + Display, P: Payload + FromStr, W: Write>(
    yard: Yard<C, P>,
    name: &'a str,
    arguments: &[&'a str],
    out: &mut W,
) -> (Yard<C, P>, Result<(), LineError<'a>>)
where
    C::Pen: Display,
    PayloadError: From<P::Err>,
    ensures { let text = line_text C.Pen.output C.output in
        let conv = ⟦<PayloadError as From<P::Err>>⟧.from_gives in
        Comes (LineMistake P.from_str_gives conv yard name.entry arguments.now)
        (result.0 ≡ yard)
        (Line P.from_str_gives C.meaning P.same text yard name.now arguments.now result.0)
        result.1 (W.contents out.old) (W.contents out.new) }
{
    let call = match read_call(name, arguments) {
        Ok(call) => call,
        Err(mistake) => return (yard, Err(LineError::Mistake(mistake))),
    };
    let (yard, carried) = yard.carry_out(name, call);
    match carried {
        Ok(answered) => match write_answer(name, arguments, &answered, out) {
            Ok(()) => (yard, Ok(())),
            Err(error) => (yard, Err(LineError::Unanswered(error))),
        },
        Err(mistake) => (yard, Err(LineError::Mistake(mistake))),
    }
}

/// Writes the words of the line, a colon, and the answer.
pub fn write_answer<C: Clock + Display, W: Write>(
    name: &str,
    arguments: &[&str],
    answered: &Answered<C>,
    out: &mut W,
) -> io::Result<()>
where
    C::Pen: Display,
    ensures { let text = line_text C.Pen.output C.output in
        OnOk result (Writes (text name.now arguments.now answered.now)
        (W.contents out.old) (W.contents out.new)) }
{
    write!(out, "{name}")?;
    for word in arguments {
        write!(out, " {word}")?;
    }
    match answered {
        Ok(answer) => writeln!(out, ": {answer}"),
        Err(fault) => writeln!(out, ": {fault}"),
    }
}
