ghost use Rattle.std.specs.Prelude.{◌≡◌, [], true, false, IsOkAnd, IsErrOf};
ghost use Rattle.season_log.specs.declared.mistakes.Mistake.TheVariants.{Sealed as SealedMistake};
ghost use Rattle.season_replay.specs.declared.yards.Yard.TheVariants.{Open};
ghost use Rattle.yard_rules.specs.declared.calls.Call.TheVariants.{Reads, Writes, Seal};
ghost use Rattle.yard_rules.specs.Calls.{in_form};
ghost use Rattle.season.specs.Held.{outcome_in};
ghost use Rattle.season_log.specs.declared.answers.Reply.TheVariants.{Answered};
ghost use Rattle.season_replay.specs.Yards.{takes, replied, ReplyTells, Carried};

use clock::{Clock, Fault};
use payload::Payload;
use season::Season;
use season_log::{Buffer, Mistake, Reply};
use yard::{Card, OpenCard, SealedCard};
use yard_rules::{Answer, Call, Reading, Writing};

/// A season of one clock kind and one payload kind, open or sealed.
#[derive(Drop)]
pub enum Yard<C: Clock, P: Payload> {
    Open(Season<OpenCard, C, P>),
    Sealed(Season<SealedCard, C, P>),
}

/// What a call is answered: a reply, or a refusal.
pub type Answered<C> = Result<Reply<<C as Clock>::Pen, C>, Fault>;

impl<C: Clock, P: Payload> Yard<C, P> {
    /// Carries out the call of this name: the yard that it leaves, and what it is
    /// answered. In a sealed yard a call that writes is a mistake, and the yard
    /// stays as it was.
    pub fn carry_out<'a>(
        self,
        name: &'a str,
        call: Call<P>,
    ) -> (Yard<C, P>, Result<Answered<C>, Mistake<'a>>)
        ensures carried { takes self call ≡ true →
            IsOkAnd result.1 (Carried C.meaning P.same self call result.0) }
        ensures mistake { takes self call ≡ false →
            IsErrOf result.1 (SealedMistake name.entry) }
        ensures kept { takes self call ≡ false → result.0 ≡ self }
    {
        match self {
            Yard::Open(season) => {
                let (yard, answer) = in_open(season, call);
                (yard, Ok(answer))
            }
            Yard::Sealed(season) => match call {
                Call::Reads(call) => {
                    let answer = read(&season, call);
                    (Yard::Sealed(season), Ok(answer))
                }
                _ => (Yard::Sealed(season), Err(Mistake::Sealed(name))),
            },
        }
    }
}

fn in_open<C: Clock, P: Payload>(
    mut season: Season<OpenCard, C, P>,
    call: Call<P>,
) -> (Yard<C, P>, Answered<C>)
    ensures { Carried C.meaning P.same (Open season) call result.0 result.1 }
{
    let answer = match call {
        Call::Reads(call) => read(&season, call),
        Call::Writes(call) => write(&mut season, call),
        Call::Seal => return seal(season),
    };
    (Yard::Open(season), answer)
}

fn read<K: Card, C: Clock, P: Payload>(season: &Season<K, C, P>, call: Reading) -> Answered<C>
    ensures result { outcome_in result season.now []
        ≡ replied C.meaning P.same season.now (Reads call) }
    ensures verdicts { ReplyTells C.meaning P.same season.now (Reads call) result }
{
    let mut bytes = [0; 32];
    let answer = season.read(&mut bytes, call);
    reply(answer, bytes, season.sizes().files)
}

fn write<C: Clock, P: Payload>(season: &mut Season<OpenCard, C, P>, call: Writing<P>) -> Answered<C>
    ensures result { outcome_in result season.new [] ≡ replied C.meaning P.same season.old (Writes call) }
    ensures verdicts { ReplyTells C.meaning P.same season.old (Writes call) result }
    ensures card { season.new.card ≡ season.old.card }
{
    let mut bytes = [0; 32];
    let answer = season.write(&mut bytes, call);
    reply(answer, bytes, season.sizes().files)
}

fn seal<C: Clock, P: Payload>(season: Season<OpenCard, C, P>) -> (Yard<C, P>, Answered<C>)
    ensures { Carried C.meaning P.same (Open season) Seal result.0 result.1 }
{
    let files = season.sizes().files;
    (
        Yard::Sealed(season.seal()),
        reply(Ok(Answer::Done), [0; 32], files),
    )
}

// The answer with its buffer, of which so many bytes are verdicts.
fn reply<Q: Copy, C: Copy>(
    answer: Result<Answer<Q, C>, Fault>,
    bytes: Buffer,
    files: usize,
) -> Result<Reply<Q, C>, Fault>
    ensures { result ≡ in_form (λ a. Answered a bytes files) answer }
{
    answer.map(|answer| Reply::Answered {
        answer,
        bytes,
        files,
    })
}
