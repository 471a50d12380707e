ghost use Rattle.std.specs.Prelude.{◌≡◌, IfOk, IfErr, OnErr, OnOk};
ghost use Rattle.log_replay.specs.AnyYards.{AnyLine, AnyMistake, AnyOpenLine, AnyOpenMistake};
ghost use Rattle.log_replay.specs.Openings.{Unopened};
ghost use Rattle.log_replay.specs.Outcomes.{Prints, Printed, Comes};

use crate::errors::LineError;
use crate::kind_yards::KindYard;
use crate::openings::AfterOpen;
use season_log::{Kind, Opening};
use std::alloc::Global;
use std::io::Write;
use tree_clock::TreeClock;
use vector_clock::VectorClock;

/// The yard of a log, at each clock kind.
#[derive(Drop)]
pub enum AnyYard {
    Tree(KindYard<TreeClock>),
    Vector(KindYard<VectorClock>),
}

impl AnyYard {
    /// Opens the yard that the words after `open` ask for, and writes the answer.
    /// Where that could not be carried out, nothing was written.
    pub fn open<'a, W: Write>(
        alloc: Global,
        arguments: &[&'a str],
        out: &mut W,
    ) -> Result<AfterOpen<AnyYard>, LineError<'a>>
        ensures opened { IfOk result (λ x. (p : Prints) × AnyOpenLine arguments.now x.0 p
            × OnOk x.1 (Printed p (W.contents out.old) (W.contents out.new))) }
        ensures mistake { IfErr result (Unopened (AnyOpenMistake arguments.now)) }
        ensures kept { OnErr result (W.contents out.new ≡ W.contents out.old) }
    {
        let asked = Opening::read(arguments)?;
        match asked.kind {
            Kind::Tree => {
                let (yard, written) = KindYard::open(alloc, &asked, arguments, out)?;
                Ok((yard.map(|yard| AnyYard::Tree(yard)), written))
            }
            Kind::Vector => {
                let (yard, written) = KindYard::open(alloc, &asked, arguments, out)?;
                Ok((yard.map(|yard| AnyYard::Vector(yard)), written))
            }
        }
    }

    /// Carries out the call of this name, and writes the answer: the yard that
    /// there is then, and what came of the line.
    pub fn answer<'a, W: Write>(
        self,
        name: &'a str,
        arguments: &[&'a str],
        out: &mut W,
    ) -> (AnyYard, Result<(), LineError<'a>>)
        ensures { Comes (AnyMistake self name.entry arguments.now) (result.0 ≡ self)
            (AnyLine self name.now arguments.now result.0)
            result.1 (W.contents out.old) (W.contents out.new) }
    {
        match self {
            AnyYard::Tree(yard) => {
                let (yard, done) = yard.answer(name, arguments, out);
                (AnyYard::Tree(yard), done)
            }
            AnyYard::Vector(yard) => {
                let (yard, done) = yard.answer(name, arguments, out);
                (AnyYard::Vector(yard), done)
            }
        }
    }
}
