ghost use Rattle.std.specs.Prelude.{◌≡◌, IfOk, IfErr, OnErr, OnOk};
ghost use Rattle.log_replay.specs.Openings.{OpensYard, OpenLine, OpenMistake};
ghost use Rattle.log_replay.specs.Outcomes.{Prints, Printed};
ghost use Rattle.log_replay.specs.Texts.{line_text};

use crate::errors::LineError;
use crate::lines::write_answer;
use clock::Clock;
use payload::Payload;
use season::{OpenError, Season};
use season_log::{Opening, PayloadError, Reply, read_payload};
use season_replay::{Answered, Yard};
use std::alloc::Global;
use std::fmt::Display;
use std::io;
use std::io::Write;
use std::str::FromStr;

/// What an open leaves where it was carried out: the yard, or none after a
/// refusal, and whether its answer could be written.
pub type AfterOpen<Y> = (Option<Y>, io::Result<()>);

/// Opens the yard that is asked for, at this clock kind and payload kind, and
/// writes the answer. Where that could not be carried out, nothing was written.
pub fn open<'a, C: Clock + Display, P: Payload + FromStr, W: Write>(
    alloc: Global,
    asked: &Opening<'a, '_>,
    arguments: &[&'a str],
    out: &mut W,
) -> Result<AfterOpen<Yard<C, P>>, LineError<'a>>
where
    C::Pen: Display,
    PayloadError: From<P::Err>,
    ensures opened { let text = line_text C.Pen.output C.output in
        let berths = asked.now.berths in let words = asked.now.words.now in
        IfOk result (λ x. (p : Prints)
        × OpenLine P.from_str_gives C.meaning text berths words arguments.now x.0 p
        × OnOk x.1 (Printed p (W.contents out.old) (W.contents out.new))) }
    ensures mistake { let conv = ⟦<PayloadError as From<P::Err>>⟧.from_gives in
        IfErr result (OpenMistake P.from_str_gives conv asked.now.words.now) }
    ensures kept { OnErr result (W.contents out.new ≡ W.contents out.old) }
{
    let (yard, answered) = open_season::<C, P>(alloc, asked)?;
    let written = write_answer::<C, W>("open", arguments, &answered, out);
    Ok((yard, written))
}

// The yard that an open leaves, and what it is answered.
fn open_season<'a, C: Clock, P: Payload + FromStr>(
    alloc: Global,
    asked: &Opening<'a, '_>,
) -> Result<(Option<Yard<C, P>>, Answered<C>), LineError<'a>>
where
    PayloadError: From<P::Err>,
    ensures opened { let words = asked.now.words.now in
        IfOk result (λ x.
        OpensYard P.from_str_gives C.meaning asked.now.berths words x.0 x.1) }
    ensures mistake { let conv = ⟦<PayloadError as From<P::Err>>⟧.from_gives in
        IfErr result (OpenMistake P.from_str_gives conv asked.now.words.now) }
{
    let mut payloads = Vec::new(alloc);
    for word in asked.words {
        payloads.push(read_payload::<P>(word)?)?;
    }
    match Season::<_, C, P>::open(alloc, asked.berths, &payloads) {
        Ok(season) => {
            let sizes = season.sizes();
            Ok((Some(Yard::Open(season)), Ok(Reply::Opened(sizes))))
        }
        Err(OpenError::Refused(fault)) => Ok((None, Err(fault))),
        Err(OpenError::OutOfMemory) => Err(LineError::OutOfMemory),
    }
}
