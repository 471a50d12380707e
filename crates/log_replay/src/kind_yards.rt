ghost use Rattle.std.specs.Prelude.{◌≡◌, IfOk, IfErr, OnErr, OnOk};
ghost use Rattle.log_replay.specs.KindYards.{KindLine, KindMistake, KindOpens, NoPayloadOf};
ghost use Rattle.log_replay.specs.Openings.{Unopened};
ghost use Rattle.log_replay.specs.Outcomes.{Prints, Printed, Comes};
ghost use Rattle.log_replay.specs.Texts.{line_text};

use crate::errors::LineError;
use crate::lines::answer;
use crate::openings::{AfterOpen, open};
use clock::Clock;
use payload::{Ticket, Valve};
use season_log::{Opening, PayloadKind};
use season_replay::Yard;
use std::alloc::Global;
use std::fmt::Display;
use std::io::Write;

/// The yard of a log at one clock kind, and at each payload kind.
#[derive(Drop)]
pub enum KindYard<C: Clock> {
    Valve(Yard<C, Valve>),
    Ticket(Yard<C, Ticket>),
}

impl<C: Clock + Display> KindYard<C>
where
    C::Pen: Display,
{
    /// Opens the yard that is asked for, at its payload kind, and writes the
    /// answer. Where that could not be carried out, nothing was written.
    pub fn open<'a, W: Write>(
        alloc: Global,
        asked: &Opening<'a, '_>,
        arguments: &[&'a str],
        out: &mut W,
    ) -> Result<AfterOpen<KindYard<C>>, LineError<'a>>
        ensures opened { let text = line_text C.Pen.output C.output in
            let kind = asked.now.payload in let berths = asked.now.berths in
            let words = asked.now.words.now in
            IfOk result (λ x. (p : Prints)
            × KindOpens C.meaning text kind berths words arguments.now x.0 p
            × OnOk x.1 (Printed p (W.contents out.old) (W.contents out.new))) }
        ensures mistake { let kind = asked.now.payload in
            IfErr result (Unopened (NoPayloadOf kind asked.now.words.now)) }
        ensures kept { OnErr result (W.contents out.new ≡ W.contents out.old) }
    {
        match asked.payload {
            PayloadKind::Valve => {
                let (yard, written) = open(alloc, asked, arguments, out)?;
                Ok((yard.map(|yard| KindYard::Valve(yard)), written))
            }
            PayloadKind::Ticket => {
                let (yard, written) = open(alloc, asked, arguments, out)?;
                Ok((yard.map(|yard| KindYard::Ticket(yard)), written))
            }
        }
    }

    /// Carries out the call of this name, and writes the answer: the yard that
    /// there is then, and what came of the line.
    pub fn answer<'a, W: Write>(
        self,
        name: &'a str,
        arguments: &[&'a str],
        out: &mut W,
    ) -> (KindYard<C>, Result<(), LineError<'a>>)
        ensures { let text = line_text C.Pen.output C.output in
            Comes (KindMistake self name.entry arguments.now) (result.0 ≡ self)
            (KindLine C.meaning text self name.now arguments.now result.0)
            result.1 (W.contents out.old) (W.contents out.new) }
    {
        match self {
            KindYard::Valve(yard) => {
                let (yard, done) = answer(yard, name, arguments, out);
                (KindYard::Valve(yard), done)
            }
            KindYard::Ticket(yard) => {
                let (yard, done) = answer(yard, name, arguments, out);
                (KindYard::Ticket(yard), done)
            }
        }
    }
}
