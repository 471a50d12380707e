/// A call that reads, and changes no table: it serves under either card.
#[derive(Clone, Copy, PartialEq, Eq, Debug)]
pub enum Reading {
    /// The verdict on a's copy of file f against b's.
    Judge { a: usize, b: usize, f: usize },
    /// The verdict on each of a's copies against b's.
    Report { a: usize, b: usize },
    /// The pen of berth a and the clock of its copy of file f.
    Show { a: usize, f: usize },
}

/// A call that writes: it serves under an open card only.
#[derive(Clone, Copy, PartialEq, Eq, Debug)]
pub enum Writing<P> {
    /// Empty berth b gets half of a's pen, and a's copies.
    Fork {
        a: usize,
        b: usize,
    },
    /// Berth a writes the payload into its copy of file f.
    Edit {
        a: usize,
        f: usize,
        payload: P,
    },
    /// Berth b takes a's copies where its own are stale.
    Pull {
        a: usize,
        b: usize,
    },
    /// Berth b ends the conflict of its copy of file f with a's.
    Settle {
        a: usize,
        b: usize,
        f: usize,
        payload: P,
    },
    /// Berth a hands its pen and its copies to berth b.
    Retire {
        a: usize,
        b: usize,
    },
    /// Berth a becomes empty.
    Drop {
        a: usize,
    },
}

/// A call of a yard that stands, by its berths, files and payload; its card and
/// its buffer are handed over beside it.
#[derive(Clone, Copy, PartialEq, Eq, Debug)]
pub enum Call<P> {
    Reads(Reading),
    Writes(Writing<P>),
    /// The open card is given away for a sealed one.
    Seal,
}
