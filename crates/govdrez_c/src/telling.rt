ghost use Rattle.std.specs.Prelude.{◌≡◌, ◌≤◌, length};

use crate::answers::Answer;
use crate::steps::{COPY, EVENT, FORK, JOIN, Step, UNITE, answer, lay_out, slot};
use clock::Clock;
use std::fmt::Display;
use std::io;
use std::io::Write;

// Writes a line with what a step answered or made.
fn tell<Q: Display, C: Display>(
    page: &mut &mut [u8],
    pens: &[Q],
    clocks: &[C],
    step: &Step,
    answer: &Answer,
) -> io::Result<()>
    requires { (length pens.now ≡ 128) × (length clocks.now ≡ 128) }
{
    let (b, to) = (slot(step.b), slot(step.to));
    let Answer::Done = answer else {
        return writeln!(page, "{answer}");
    };
    match step.call {
        FORK => writeln!(page, "{} {}", pens[to], pens[b]),
        EVENT | JOIN => writeln!(page, "{}", clocks[to]),
        UNITE => writeln!(page, "{}", pens[to]),
        COPY => writeln!(page, "{} {}", pens[to], clocks[to]),
        _ => writeln!(page, "{answer}"),
    }
}

/// Lays out the tables and does the steps, and writes a line for each: what it made, what it answered,
/// or its refusal. Stops where the text is full. Answers the length of the text.
pub(crate) fn tell_steps<C: Clock + Display>(
    pens: &mut [C::Pen],
    clocks: &mut [C],
    steps: &[Step],
    text: &mut [u8],
) -> usize
where
    C::Pen: Display,
    requires { (length pens.old ≡ 128) × (length clocks.old ≡ 128) }
    ensures { result ≤ length text.old }
{
    lay_out(pens, clocks);
    let room = text.len();
    let mut page = text;
    for step in steps {
        let answered = answer(pens, clocks, step);
        if tell(&mut page, pens, clocks, step, &answered).is_err() {
            break;
        }
    }
    room.saturating_sub(page.len())
}
