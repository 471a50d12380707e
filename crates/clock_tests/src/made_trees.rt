ghost use Rattle.clock.specs.Meaning.{Yes};
ghost use Rattle.tree_clock.specs.Stored.{clock_made, pen_made};

use clock::Fault;
use std::alloc::Global;
use std::fmt::Display;
use std::test::*;
use tree_clock::{TreeClock, TreePen};

// A pen that is known to be well made, so that a test may pass it on. One generic
// struct for pens and clocks would need a trait and two impls for its one fact.
#[derive(Clone, Copy)]
pub struct MadePen {
    pen: TreePen,
    ghost ok: { Yes (pen_made pen) },
}

// A clock that is known to be well made.
#[derive(Clone, Copy)]
pub struct MadeClock {
    clock: TreeClock,
    ghost ok: { Yes (clock_made clock) },
}

impl MadePen {
    pub fn seed() -> MadePen {
        MadePen {
            pen: TreePen::seed(),
        }
    }

    pub fn none() -> MadePen {
        MadePen {
            pen: TreePen::none(),
        }
    }

    pub fn fork(&self) -> Result<(MadePen, MadePen), Fault> {
        let (first, second) = self.pen.fork()?;
        Ok((MadePen { pen: first }, MadePen { pen: second }))
    }

    pub fn unite(&self, other: &MadePen) -> Result<MadePen, Fault> {
        let pen = self.pen.unite(&other.pen)?;
        Ok(MadePen { pen })
    }

    // The part of the seed at the end of a path: 0 takes the first half, any other the second.
    pub fn at(path: &str) -> Result<MadePen, Fault> {
        let mut pen = MadePen::seed();
        for step in path.bytes() {
            let (first, second) = pen.fork()?;
            pen = if step == b'0' { first } else { second };
        }
        Ok(pen)
    }

    pub fn same(&self, other: &MadePen) -> bool {
        self.pen.same(&other.pen)
    }

    pub fn shows(&self, heap: Global, text: &str) -> Result<(), Fail> {
        prints(heap, &self.pen, text)
    }
}

impl MadeClock {
    pub fn blank() -> MadeClock {
        MadeClock {
            clock: TreeClock::blank(),
        }
    }

    pub fn event(&self, pen: &MadePen) -> Result<MadeClock, Fault> {
        let clock = self.clock.event(&pen.pen)?;
        Ok(MadeClock { clock })
    }

    pub fn join(&self, other: &MadeClock) -> Result<MadeClock, Fault> {
        let clock = self.clock.join(&other.clock)?;
        Ok(MadeClock { clock })
    }

    // The empty clock after some events: so many at the end of each path.
    pub fn after(events: &[(u32, &str)]) -> Result<MadeClock, Fault> {
        let mut clock = MadeClock::blank();
        for (count, path) in events {
            clock = clock.later(*count, path)?;
        }
        Ok(clock)
    }

    fn later(&self, count: u32, path: &str) -> Result<MadeClock, Fault> {
        let pen = MadePen::at(path)?;
        let mut clock = *self;
        for _ in 0..count {
            clock = clock.event(&pen)?;
        }
        Ok(clock)
    }

    pub fn covers(&self, other: &MadeClock) -> bool {
        self.clock.covers(&other.clock)
    }

    pub fn same(&self, other: &MadeClock) -> bool {
        self.clock.same(&other.clock)
    }

    pub fn judges(&self, heap: Global, other: &MadeClock, verdict: &str) -> Result<(), Fail> {
        prints(heap, &self.clock.compare(&other.clock), verdict)
    }

    pub fn shows(&self, heap: Global, text: &str) -> Result<(), Fail> {
        prints(heap, &self.clock, text)
    }
}

// Fails with what a value prints, where that is not the text that was wanted.
fn prints(heap: Global, value: &impl Display, wanted: &str) -> Result<(), Fail> {
    let printed = format!(in heap; "{value}")?;
    if printed.as_str() != wanted {
        Err(printed)?;
    }
    Ok(())
}

// The 16 first halves at depth 5: a pen or a clock with these alone has 63 nodes.
pub const FIRST_HALVES: [&str; 16] = [
    "00000", "00010", "00100", "00110", "01000", "01010", "01100", "01110", "10000", "10010",
    "10100", "10110", "11000", "11010", "11100", "11110",
];

// A tree of which each of the 16 subtrees at depth 4 prints as `part`, and each
// node above begins with `base`.
pub fn full_text(heap: Global, base: &str, part: &str) -> Result<String, Fail> {
    let mut text = format!(in heap; "{part}")?;
    for _ in 0..4 {
        text = format!(in heap; "({base}{text},{text})")?;
    }
    Ok(text)
}
