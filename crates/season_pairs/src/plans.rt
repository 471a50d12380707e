use crate::scripts::Script;

/// In how many of a hundred draws each call comes; in the others it is drop.
#[derive(Clone, Copy)]
pub struct Weights {
    pub fork: usize,
    pub edit: usize,
    pub judge: usize,
    pub report: usize,
    pub pull: usize,
    pub settle: usize,
    pub retire: usize,
}

/// What a season runs.
#[derive(Clone, Copy)]
pub struct Plan {
    pub name: &'static str,
    pub seed: u64,
    /// How many yards are opened, one after another, each with its own numbers.
    pub rounds: u64,
    pub berths: usize,
    pub files: usize,
    /// The calls made first, and how many.
    pub script: Script,
    pub scripted: usize,
    /// Calls drawn then.
    pub calls: usize,
    pub weights: Weights,
    /// In so many of a hundred calls some argument is drawn from all numbers.
    pub wrong: usize,
    /// After so many calls everything is compared, and not only what the call wrote.
    pub every: usize,
    /// Calls drawn at the end of which only those are made that are to be refused.
    pub rough: usize,
    /// Calls of judge and report under the sealed card at the end.
    pub sealed: usize,
}

/// The life of an ordinary yard.
pub const ORDINARY: Weights = Weights {
    fork: 9,
    edit: 33,
    judge: 8,
    report: 10,
    pull: 15,
    settle: 14,
    retire: 9,
};

/// Replicas that come and go.
const CHURN: Weights = Weights {
    fork: 34,
    edit: 12,
    judge: 2,
    report: 2,
    pull: 14,
    settle: 4,
    retire: 24,
};

/// Pens in small parts, and their clocks joined again.
const JOINS: Weights = Weights {
    fork: 24,
    edit: 30,
    judge: 2,
    report: 2,
    pull: 8,
    settle: 26,
    retire: 2,
};

/// Each call in one of eight draws, drop in the eighth.
pub const EVENLY: Weights = Weights {
    fork: 1,
    edit: 1,
    judge: 1,
    report: 1,
    pull: 1,
    settle: 1,
    retire: 1,
};

const SMALL: Plan = Plan {
    name: "ordinary",
    seed: 1,
    rounds: 20,
    berths: 4,
    files: 3,
    script: Script::Nothing,
    scripted: 0,
    calls: 300,
    weights: ORDINARY,
    wrong: 12,
    every: 25,
    rough: 150,
    sealed: 20,
};

/// Seasons of every kind and payload.
pub const ORDINARIES: [Plan; 4] = [
    Plan {
        rounds: 2,
        berths: 1,
        files: 1,
        calls: 120,
        ..SMALL
    },
    SMALL,
    Plan {
        seed: 2,
        rounds: 5,
        berths: 7,
        files: 32,
        every: 75,
        ..SMALL
    },
    Plan {
        seed: 3,
        rounds: 10,
        berths: 16,
        files: 2,
        calls: 500,
        every: 100,
        ..SMALL
    },
];

/// Seasons that drive pens and clocks to their limits.
pub const LIMITS: [Plan; 5] = [
    Plan {
        name: "deep forks",
        seed: 4,
        rounds: 12,
        berths: 2,
        files: 2,
        weights: CHURN,
        calls: 150,
        wrong: 3,
        ..SMALL
    },
    Plan {
        name: "replicas that come and go",
        seed: 5,
        rounds: 12,
        berths: 16,
        files: 1,
        weights: CHURN,
        calls: 400,
        wrong: 3,
        every: 100,
        ..SMALL
    },
    Plan {
        name: "scattered pens",
        seed: 6,
        rounds: 12,
        berths: 16,
        files: 1,
        script: Script::Scatter,
        scripted: 94,
        weights: CHURN,
        calls: 150,
        wrong: 3,
        every: 50,
        ..SMALL
    },
    Plan {
        name: "even halves",
        seed: 9,
        rounds: 12,
        files: 2,
        script: Script::Even,
        scripted: 8,
        calls: 100,
        ..SMALL
    },
    Plan {
        name: "scattered clocks",
        seed: 7,
        rounds: 12,
        berths: 16,
        files: 2,
        weights: JOINS,
        calls: 500,
        wrong: 3,
        every: 100,
        ..SMALL
    },
];

/// More edits of one file by a seed pen than a tree counts.
pub const TREE_COUNT: Plan = Plan {
    name: "a count to its limit",
    seed: 8,
    rounds: 1,
    berths: 3,
    files: 1,
    script: Script::Edits { forks: 0 },
    scripted: 65540,
    calls: 200,
    wrong: 3,
    every: 4000,
    ..SMALL
};

/// More edits of one file by a single name than a vector counts.
pub const NAME_COUNT: Plan = Plan {
    berths: 5,
    script: Script::Edits { forks: 4 },
    ..TREE_COUNT
};
