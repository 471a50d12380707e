use crate::kinds::{Kind, Made};
use std::alloc::{AllocError, Global};

/// Vectors: a pen is a set of 16 names, a clock a count for each.
pub struct Names;

// The largest count.
const LIMIT: u32 = 65535;

impl Kind for Names {
    const NAME: &'static str = "vectors";

    const START: u64 = 20;

    type Pen = [bool; 16];

    type Clock = [u32; 16];

    fn seed(_heap: Global) -> Result<[bool; 16], AllocError> {
        Ok([true; 16])
    }

    fn no_pen(_heap: Global) -> Result<[bool; 16], AllocError> {
        Ok([false; 16])
    }

    fn blank(_heap: Global) -> Result<[u32; 16], AllocError> {
        Ok([0; 16])
    }

    fn fork(_heap: Global, pen: &[bool; 16]) -> Made<([bool; 16], [bool; 16])> {
        let size = count(pen);
        if size < 2 {
            return Ok(Err(11));
        }
        let mut first = [false; 16];
        let mut second = [false; 16];
        for (name, held) in pen.iter().enumerate() {
            let low = count(&first) < size.div_ceil(2);
            first[name] = *held && low;
            second[name] = *held && !low;
        }
        Ok(Ok((first, second)))
    }

    fn unite(_heap: Global, pen: &[bool; 16], other: &[bool; 16]) -> Made<[bool; 16]> {
        let mut both = [false; 16];
        for (name, (mine, theirs)) in pen.iter().zip(other).enumerate() {
            if *mine && *theirs {
                return Ok(Err(12));
            }
            both[name] = *mine || *theirs;
        }
        Ok(Ok(both))
    }

    fn event(_heap: Global, pen: &[bool; 16], clock: &[u32; 16]) -> Made<[u32; 16]> {
        if count(pen) == 0 {
            return Ok(Err(14));
        }
        let mut counts = *clock;
        for name in 0..16 {
            if pen[name] && counts[name] < LIMIT {
                counts[name] += 1;
                return Ok(Ok(counts));
            }
        }
        Ok(Err(16))
    }

    fn join(_heap: Global, clock: &[u32; 16], other: &[u32; 16]) -> Made<[u32; 16]> {
        let mut larger = [0; 16];
        for name in 0..16 {
            larger[name] = clock[name].max(other[name]);
        }
        Ok(Ok(larger))
    }

    fn covers(clock: &[u32; 16], other: &[u32; 16]) -> bool {
        clock
            .iter()
            .zip(other)
            .all(|(mine, theirs)| *mine >= *theirs)
    }

    fn pen_word(heap: Global, pen: &[bool; 16]) -> Result<String, AllocError> {
        let mut word = String::from_str(heap, "{")?;
        for (name, held) in pen.iter().enumerate() {
            if *held {
                let comma = if word.len() > 1 { "," } else { "" };
                write!(word, "{comma}{name}")?;
            }
        }
        word.push_str("}")?;
        Ok(word)
    }

    fn clock_word(heap: Global, clock: &[u32; 16]) -> Result<String, AllocError> {
        let mut word = String::from_str(heap, "[")?;
        for count in clock {
            let comma = if word.len() > 1 { "," } else { "" };
            write!(word, "{comma}{count}")?;
        }
        word.push_str("]")?;
        Ok(word)
    }
}

// How many names a pen has.
fn count(pen: &[bool; 16]) -> usize {
    pen.iter().filter(|held| **held).count()
}
