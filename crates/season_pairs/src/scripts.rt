use crate::samples::Sample;
use yard_rules::{Call, Writing};

/// The calls that a season begins with.
#[derive(Clone, Copy)]
pub enum Script {
    /// None of its own.
    Nothing,
    /// So many forks of berth 0, and then edits of one file there.
    Edits { forks: usize },
    /// Fifteen replicas that each lose the second half of their pen, some of them
    /// twice, and then retire into berth 0, which edits: what its pen holds lies far
    /// apart. One united pen has 63 nodes, the next would have 65.
    Scatter,
    /// Two quarters of a pen united, of which neither is cheaper to grow.
    Even,
}

impl Script {
    /// The call of this number, counted from 0.
    pub fn call<P: Sample>(self, number: usize) -> Call<P> {
        Call::Writes(match self {
            Script::Edits { forks } if number < forks => Writing::Fork {
                a: 0,
                b: number.saturating_add(1),
            },
            Script::Scatter if number < 74 => scatter(number),
            Script::Even if number < 7 => even(number),
            _ => Writing::Edit {
                a: 0,
                f: 0,
                payload: P::sample(number as u64 % 9000),
            },
        })
    }
}

// Four quarters, of which two are lost, and edits with the other two.
fn even<P: Sample>(number: usize) -> Writing<P> {
    match number {
        0 => Writing::Fork { a: 0, b: 1 },
        1 => Writing::Fork { a: 0, b: 2 },
        2 => Writing::Fork { a: 1, b: 3 },
        3 => Writing::Drop { a: 2 },
        4 => Writing::Drop { a: 3 },
        5 => Writing::Retire { a: 1, b: 0 },
        _ => Writing::Edit {
            a: 0,
            f: 1,
            payload: P::sample(5),
        },
    }
}

// 14 forks, 46 calls that halve the pens, 14 retirements, and edits.
fn scatter<P>(number: usize) -> Writing<P> {
    if number < 14 {
        return Writing::Fork {
            a: (number + 1) / 2,
            b: number + 1,
        };
    }
    if number < 60 {
        let step = number - 14;
        let a = step / 2 % 15;
        return if step % 2 == 0 {
            Writing::Fork { a, b: 15 }
        } else {
            Writing::Drop { a: 15 }
        };
    }
    Writing::Retire {
        a: number - 59,
        b: 0,
    }
}
