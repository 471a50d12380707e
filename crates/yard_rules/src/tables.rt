ghost use Rattle.std.specs.Prelude.{◌≡◌};
ghost use Rattle.yard_rules.specs.Tables.{state_number, working_berth};

/// Whether a berth is in use.
#[derive(Clone, Copy, PartialEq, Eq, Debug)]
pub enum State {
    /// No replica stands here; the berth has the empty pen.
    Empty = 0,
    /// A replica stands here, with a pen and a copy of each file.
    Working = 1,
}

/// The number of the state.
impl From<State> for u8 {
    ghost from_gives = { λ state number. number ≡ state_number state };

    fn from(state: State) -> u8 {
        state as u8
    }
}

/// A slot of a yard, which holds up to 16 of them: empty, or working with a
/// replica that has a pen, the right to make marks.
// A state and a pen, and no Option: an empty berth has a pen too, the empty one.
#[derive(Clone, Copy, PartialEq, Eq, Debug)]
pub struct Berth<Q> {
    pub state: State,
    pub pen: Q,
}

impl<Q> Berth<Q> {
    /// A berth that works with this pen.
    pub fn working(pen: Q) -> Berth<Q>
        ensures { result ≡ working_berth pen }
    {
        Berth {
            state: State::Working,
            pen,
        }
    }
}

/// A copy of a file: its clock, which knows the marks behind it, and its
/// payload. In a yard of F files the copy of file f in berth b is record
/// b × F + f.
#[derive(Clone, Copy, PartialEq, Eq, Debug)]
pub struct Record<C, P> {
    pub clock: C,
    pub payload: P,
}

/// How many berths and files a yard has: what a card stands for.
#[derive(Clone, Copy, PartialEq, Eq, Debug)]
pub struct Sizes {
    pub berths: usize,
    pub files: usize,
}
