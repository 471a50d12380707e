use yard_rules::{Call, Reading, Writing};

/// What a call needs before it looks at a copy.
#[derive(Clone, Copy)]
pub struct Needs {
    pub a: usize,
    pub b: Option<usize>,
    pub file: Option<usize>,
    /// The two berths may not be the same.
    pub apart: bool,
    /// Berth b is to be empty, and not in use.
    pub b_empty: bool,
    /// A byte of the buffer for each file.
    pub buffer: bool,
}

impl Needs {
    /// What this call needs; none for seal, which looks at no table.
    pub fn of<P: Copy>(call: &Call<P>) -> Option<Needs> {
        match *call {
            Call::Reads(reading) => Some(Needs::of_reading(reading)),
            Call::Writes(writing) => Some(Needs::of_writing(writing)),
            Call::Seal => None,
        }
    }

    fn of_reading(call: Reading) -> Needs {
        match call {
            Reading::Judge { a, b, f } => Needs {
                file: Some(f),
                apart: false,
                ..pair(a, b)
            },
            Reading::Report { a, b } => Needs {
                buffer: true,
                apart: false,
                ..pair(a, b)
            },
            Reading::Show { a, f } => Needs {
                file: Some(f),
                ..single(a)
            },
        }
    }

    fn of_writing<P: Copy>(call: Writing<P>) -> Needs {
        match call {
            Writing::Fork { a, b } => Needs {
                b_empty: true,
                ..pair(a, b)
            },
            Writing::Edit { a, f, .. } => Needs {
                file: Some(f),
                ..single(a)
            },
            Writing::Pull { a, b } => Needs {
                buffer: true,
                ..pair(a, b)
            },
            Writing::Settle { a, b, f, .. } => Needs {
                file: Some(f),
                ..pair(a, b)
            },
            Writing::Retire { a, b } => pair(a, b),
            Writing::Drop { a } => single(a),
        }
    }
}

// One berth in use.
fn single(a: usize) -> Needs {
    Needs {
        a,
        b: None,
        file: None,
        apart: false,
        b_empty: false,
        buffer: false,
    }
}

// Two berths in use, not the same.
fn pair(a: usize, b: usize) -> Needs {
    Needs {
        b: Some(b),
        apart: true,
        ..single(a)
    }
}
