ghost use Rattle.std.specs.Prelude.{◌≡◌};
ghost use Rattle.yard_rules.specs.declared.answers.Answer.TheVariants.{Done, Judged, Reported, Pulled, Shown};
ghost use Rattle.yard_rules.specs.Calls.{in_form};

use clock::{Fault, Verdict};
use yard_rules::Answer;

// What each call answers, as a value of the one type of answers.

pub(crate) fn done<Q, C>(outcome: Result<(), Fault>) -> Result<Answer<Q, C>, Fault>
    ensures { result ≡ in_form (λ v. Done) outcome }
{
    outcome.map(|()| Answer::Done)
}

pub(crate) fn judged<Q, C>(outcome: Result<Verdict, Fault>) -> Result<Answer<Q, C>, Fault>
    ensures { result ≡ in_form Judged outcome }
{
    outcome.map(|verdict| Answer::Judged(verdict))
}

pub(crate) fn reported<Q, C>(
    outcome: Result<(usize, usize, usize, usize, usize), Fault>,
) -> Result<Answer<Q, C>, Fault>
    ensures { result ≡ in_form (λ v. Reported v.0 v.1 v.2 v.3 v.4) outcome }
{
    outcome.map(|(equal, stale, ahead, conflicts, twins)| Answer::Reported {
        equal,
        stale,
        ahead,
        conflicts,
        twins,
    })
}

pub(crate) fn pulled<Q, C>(outcome: Result<(usize, usize), Fault>) -> Result<Answer<Q, C>, Fault>
    ensures { result ≡ in_form (λ v. Pulled v.0 v.1) outcome }
{
    outcome.map(|(taken, conflicts)| Answer::Pulled { taken, conflicts })
}

pub(crate) fn shown<Q: Copy, C: Copy>(outcome: Result<(Q, C), Fault>) -> Result<Answer<Q, C>, Fault>
    ensures { result ≡ in_form (λ v. Shown v.0 v.1) outcome }
{
    outcome.map(|(pen, clock)| Answer::Shown { pen, clock })
}
