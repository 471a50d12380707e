ghost use Rattle.std.specs.Prelude.{◌≡◌};
ghost use Rattle.clock.specs.Causes.{number_of};

/// Why a call is refused. 1 to 8 come from the yard, 11 to 16 from a clock kind.
#[derive(Clone, Copy, PartialEq, Eq, Debug)]
pub enum Cause {
    /// The tables are not of the card's sizes, or out of limits.
    Sizes = 1,
    /// There is no such berth.
    NoBerth = 2,
    /// There is no such file.
    NoFile = 3,
    /// The same berth is named twice.
    SameBerth = 4,
    /// A berth is in another state than the call needs.
    WrongState = 5,
    /// The report buffer is shorter than the number of files.
    ShortBuffer = 6,
    /// There is no conflict to settle.
    NoConflict = 7,
    /// Some file is in conflict.
    InConflict = 8,
    /// The pen cannot be split.
    CannotSplit = 11,
    /// Two pens have a mark in common.
    PensOverlap = 12,
    /// The united pen is too large.
    PenTooLarge = 13,
    /// The pen may make no mark.
    PenSpent = 14,
    /// The clock is too large.
    ClockTooLarge = 15,
    /// A count is at its limit.
    AtLimit = 16,
}

/// The number of the cause, as it is printed.
impl From<Cause> for u8 {
    ghost from_gives = { λ cause number. number ≡ number_of cause };

    fn from(cause: Cause) -> u8 {
        cause as u8
    }
}
