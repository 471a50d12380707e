use anyhow::Result;
use clock::Fault;
use edit_model::Answer;
use std::alloc::Global;
use std::fmt::Display;

/// What a yard answered, in the model's numbers and words.
pub fn told<Q: Copy + Display, C: Copy + Display>(
    heap: Global,
    came: Result<yard_rules::Answer<Q, C>, Fault>,
) -> Result<Answer> {
    let answer = match came {
        Ok(answer) => answer,
        Err(fault) => return Ok(Answer::from(fault)),
    };
    Ok(match answer {
        yard_rules::Answer::Done => Answer::Done,
        yard_rules::Answer::Judged(verdict) => Answer::Verdict(verdict.into()),
        yard_rules::Answer::Reported {
            equal,
            stale,
            ahead,
            conflicts,
            twins,
        } => Answer::Counts(equal, stale, ahead, conflicts, twins),
        yard_rules::Answer::Pulled { taken, conflicts } => Answer::Taken(taken, conflicts),
        yard_rules::Answer::Shown { pen, clock } => Answer::Shown(
            format!(in heap; "{pen}")?,
            format!(in heap; "{clock}")?,
        ),
    })
}
