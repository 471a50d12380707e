use clock::Verdict;

/// What an accepted call answers.
#[derive(Clone, Copy, PartialEq, Eq, Debug)]
pub enum Answer<Q, C> {
    /// It was done, and there is nothing to say.
    Done,
    Judged(Verdict),
    /// How many copies are equal, stale, ahead and in conflict, and how many of
    /// these last are twins.
    Reported {
        equal: usize,
        stale: usize,
        ahead: usize,
        conflicts: usize,
        twins: usize,
    },
    /// How many copies were taken, and how many files are in conflict.
    Pulled {
        taken: usize,
        conflicts: usize,
    },
    Shown {
        pen: Q,
        clock: C,
    },
}
