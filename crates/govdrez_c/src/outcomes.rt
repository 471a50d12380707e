use clock::Fault;
use std::fmt;
use yard_rules::Answer;

/// What a call of a yard answers, or its refusal. No call here shows a pen and a
/// clock: without them an outcome is small, and a season of trees loses no time.
#[derive(Clone, Copy)]
pub(crate) struct Outcome {
    answer: Result<Answer<(), ()>, Fault>,
}

impl Outcome {
    /// It is done, and there is nothing to say.
    pub(crate) fn done() -> Outcome {
        let answer = Ok(Answer::Done);
        Outcome { answer }
    }

    /// The yard's answer; of a call that is not made here, that it was done.
    #[inline]
    pub(crate) fn of<Q: Copy, C: Copy>(answer: Result<Answer<Q, C>, Fault>) -> Outcome {
        let answer = answer.map(|answer| match answer {
            Answer::Judged(verdict) => Answer::Judged(verdict),
            Answer::Pulled { taken, conflicts } => Answer::Pulled { taken, conflicts },
            Answer::Reported {
                equal,
                stale,
                ahead,
                conflicts,
                twins,
            } => Answer::Reported {
                equal,
                stale,
                ahead,
                conflicts,
                twins,
            },
            _ => Answer::Done,
        });
        Outcome { answer }
    }

    /// A number that depends on the whole answer, for the sum over a run.
    pub(crate) fn number(&self) -> u64 {
        match &self.answer {
            Ok(Answer::Judged(verdict)) => 10 + u8::from(*verdict) as u64,
            Ok(Answer::Pulled { taken, conflicts }) => sum([*taken, *conflicts, 0, 0, 0]),
            Ok(
                Answer::Reported {
                    equal,
                    stale,
                    ahead,
                    conflicts,
                    twins,
                },
            ) => sum([*equal, *stale, *ahead, *conflicts, *twins]),
            Ok(_) => 1,
            Err(fault) => 100 + u8::from(fault.cause) as u64,
        }
    }
}

// The counts, each with a weight of its own.
fn sum(counts: [usize; 5]) -> u64 {
    let mut sum: u64 = 0;
    for count in counts {
        sum = sum.wrapping_mul(33).wrapping_add(count as u64);
    }
    sum
}

/// As a log prints it: `done`, `conflict`, `refused 7 berth 1 file 0`.
impl fmt::Display for Outcome {
    fn fmt<W: fmt::Write>(&self, f: &mut fmt::Formatter<W>) -> fmt::Result {
        match &self.answer {
            Ok(Answer::Judged(verdict)) => write!(f, "{verdict}"),
            Ok(Answer::Pulled { taken, conflicts }) => {
                write!(f, "taken {taken} conflicts {conflicts}")
            }
            Ok(
                Answer::Reported {
                    equal,
                    stale,
                    ahead,
                    conflicts,
                    twins,
                },
            ) => write!(f, "report {equal} {stale} {ahead} {conflicts} {twins}"),
            Ok(_) => f.write_str("done"),
            Err(fault) => write!(f, "{fault}"),
        }
    }
}
