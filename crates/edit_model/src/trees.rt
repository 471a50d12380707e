use crate::heights::{fill, grow, largest, write_tree};
use crate::kinds::{Kind, Made};
use crate::places::{MOST_NODES, PLACES, any, cut, nodes, write_id};
use std::alloc::{AllocError, Global};

/// Interval tree clocks with no tree: a pen is the table of the places that it
/// holds, a clock the table of its values.
pub struct Trees;

// The largest value.
const LIMIT: u32 = 65535;

impl Kind for Trees {
    const NAME: &'static str = "trees";

    const START: u64 = 10;

    type Pen = Vec<bool>;

    type Clock = Vec<u32>;

    fn seed(heap: Global) -> Result<Vec<bool>, AllocError> {
        vec![in heap; true; PLACES]
    }

    fn no_pen(heap: Global) -> Result<Vec<bool>, AllocError> {
        vec![in heap; false; PLACES]
    }

    fn blank(heap: Global) -> Result<Vec<u32>, AllocError> {
        vec![in heap; 0; PLACES]
    }

    fn fork(heap: Global, pen: &Vec<bool>) -> Made<(Vec<bool>, Vec<bool>)> {
        let Some(middle) = cut(pen, 0) else {
            return Ok(Err(11));
        };
        let mut first = Vec::new(heap);
        let mut second = Vec::new(heap);
        for (place, held) in pen.iter().enumerate() {
            first.push(*held && place < middle)?;
            second.push(*held && place >= middle)?;
        }
        Ok(Ok((first, second)))
    }

    fn unite(heap: Global, pen: &Vec<bool>, other: &Vec<bool>) -> Made<Vec<bool>> {
        let mut both = Vec::new(heap);
        for (mine, theirs) in pen.iter().zip(other) {
            if *mine && *theirs {
                return Ok(Err(12));
            }
            both.push(*mine || *theirs)?;
        }
        if nodes(&both) > MOST_NODES {
            return Ok(Err(13));
        }
        Ok(Ok(both))
    }

    fn event(_heap: Global, pen: &Vec<bool>, clock: &Vec<u32>) -> Made<Vec<u32>> {
        if !any(pen) {
            return Ok(Err(14));
        }
        let mut values = clock.clone()?;
        fill(pen, &mut values);
        if values.as_slice() == clock.as_slice() {
            grow(pen, &mut values);
        }
        if nodes(&values) > MOST_NODES {
            return Ok(Err(15));
        }
        if largest(&values) > LIMIT {
            return Ok(Err(16));
        }
        Ok(Ok(values))
    }

    fn join(heap: Global, clock: &Vec<u32>, other: &Vec<u32>) -> Made<Vec<u32>> {
        let mut larger = Vec::new(heap);
        for (mine, theirs) in clock.iter().zip(other) {
            larger.push((*mine).max(*theirs))?;
        }
        if nodes(&larger) > MOST_NODES {
            return Ok(Err(15));
        }
        Ok(Ok(larger))
    }

    fn covers(clock: &Vec<u32>, other: &Vec<u32>) -> bool {
        clock
            .iter()
            .zip(other)
            .all(|(mine, theirs)| *mine >= *theirs)
    }

    fn pen_word(heap: Global, pen: &Vec<bool>) -> Result<String, AllocError> {
        let mut word = String::new(heap);
        write_id(&mut word, pen)?;
        Ok(word)
    }

    fn clock_word(heap: Global, clock: &Vec<u32>) -> Result<String, AllocError> {
        let mut word = String::new(heap);
        write_tree(&mut word, clock, 0)?;
        Ok(word)
    }
}
