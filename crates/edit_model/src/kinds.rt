use std::alloc::{AllocError, Global};

/// What an operation gives: a value, or the number of its refusal; or there is no
/// memory left.
pub type Made<T> = Result<Result<T, u8>, AllocError>;

/// A second account of a clock kind, written from the rules and not from the
/// kind's code.
pub trait Kind {
    /// The kind's name, as the summary prints it.
    const NAME: &'static str;

    /// The kind's part of a season's seed.
    const START: u64;

    type Pen: Clone + Drop;

    type Clock: Clone + Drop;

    /// The pen that a yard opens with.
    fn seed(heap: Global) -> Result<Self::Pen, AllocError>;

    /// The empty pen.
    fn no_pen(heap: Global) -> Result<Self::Pen, AllocError>;

    /// The empty clock.
    fn blank(heap: Global) -> Result<Self::Clock, AllocError>;

    /// The two halves of a pen, or 11.
    fn fork(heap: Global, pen: &Self::Pen) -> Made<(Self::Pen, Self::Pen)>;

    /// The pen with the marks of both, or 12 or 13.
    fn unite(heap: Global, pen: &Self::Pen, other: &Self::Pen) -> Made<Self::Pen>;

    /// The clock with an event of the pen's, or 14, 15 or 16.
    fn event(heap: Global, pen: &Self::Pen, clock: &Self::Clock) -> Made<Self::Clock>;

    /// The clock that knows what either knows, or 15.
    fn join(heap: Global, clock: &Self::Clock, other: &Self::Clock) -> Made<Self::Clock>;

    /// Whether the clock knows every mark of the other.
    fn covers(clock: &Self::Clock, other: &Self::Clock) -> bool;

    /// The pen as the kind writes it.
    fn pen_word(heap: Global, pen: &Self::Pen) -> Result<String, AllocError>;

    /// The clock as the kind writes it.
    fn clock_word(heap: Global, clock: &Self::Clock) -> Result<String, AllocError>;
}
