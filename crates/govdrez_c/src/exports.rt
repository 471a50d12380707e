ghost use Rattle.std.specs.Prelude.{◌≤◌, length};

use crate::calls::{YardCall, ticket};
use crate::rounds::rounds;
use crate::seasons::{BERTHS, FILES, seasons, tell_season};
use crate::steps::{SLOTS, Step, slot};
use crate::telling::tell_steps;
use payload::Ticket;
use tree_clock::{TreeClock, TreePen};
use vector_clock::{VectorClock, VectorPen};
use yard::{blank_berth, blank_copy};

// Each kind has its own tables of plain values on the stack: an array's entry type is a plain type and no parameter.

/// Does the steps on tree clocks, pen 0 being the seed, the others empty and
/// each clock empty. A line for each step in `text`; the answer is its length.
#[unsafe(no_mangle)]
pub extern "C" fn govdrez_tree_steps(steps: &[Step], text: &mut [u8]) -> usize
    ensures { result ≤ length text.old }
{
    let mut pens = [TreePen::none(); SLOTS];
    let mut clocks = [TreeClock::blank(); SLOTS];
    tell_steps(&mut pens, &mut clocks, steps, text)
}

/// The same on vectors.
#[unsafe(no_mangle)]
pub extern "C" fn govdrez_vector_steps(steps: &[Step], text: &mut [u8]) -> usize
    ensures { result ≤ length text.old }
{
    let mut pens = [VectorPen::none(); SLOTS];
    let mut clocks = [VectorClock::zero(); SLOTS];
    tell_steps(&mut pens, &mut clocks, steps, text)
}

/// Does the steps `before` once, on tree clocks, and then makes one call with
/// the numbers of each step of `work`, as many times as `times` says. A sum
/// over all that was answered.
#[unsafe(no_mangle)]
pub extern "C" fn govdrez_tree_rounds(
    before: &[Step],
    call: u32,
    work: &[Step],
    times: u32,
) -> u64 {
    let mut pens = [TreePen::none(); SLOTS];
    let mut clocks = [TreeClock::blank(); SLOTS];
    rounds(&mut pens, &mut clocks, before, call, work, times)
}

/// The same on vectors.
#[unsafe(no_mangle)]
pub extern "C" fn govdrez_vector_rounds(
    before: &[Step],
    call: u32,
    work: &[Step],
    times: u32,
) -> u64 {
    let mut pens = [VectorPen::none(); SLOTS];
    let mut clocks = [VectorClock::zero(); SLOTS];
    rounds(&mut pens, &mut clocks, before, call, work, times)
}

/// A season of a yard with 16 berths and 32 files, on tree clocks: a line for
/// each call and one for each copy in `text`; the answer is its length.
#[unsafe(no_mangle)]
pub extern "C" fn govdrez_tree_season(calls: &[YardCall], text: &mut [u8]) -> usize
    ensures { result ≤ length text.old }
{
    let mut berths = [blank_berth::<TreeClock>(); BERTHS];
    let mut copies = [blank_copy::<TreeClock, Ticket>(ticket(0)); BERTHS * FILES];
    tell_season(&mut berths, &mut copies, calls, text)
}

/// The same on vectors.
#[unsafe(no_mangle)]
pub extern "C" fn govdrez_vector_season(calls: &[YardCall], text: &mut [u8]) -> usize
    ensures { result ≤ length text.old }
{
    let mut berths = [blank_berth::<VectorClock>(); BERTHS];
    let mut copies = [blank_copy::<VectorClock, Ticket>(ticket(0)); BERTHS * FILES];
    tell_season(&mut berths, &mut copies, calls, text)
}

/// The season as many times as `times` says, on tree clocks. A sum over all that was answered.
#[unsafe(no_mangle)]
pub extern "C" fn govdrez_tree_seasons(calls: &[YardCall], times: u32) -> u64 {
    let mut berths = [blank_berth::<TreeClock>(); BERTHS];
    let mut copies = [blank_copy::<TreeClock, Ticket>(ticket(0)); BERTHS * FILES];
    seasons(&mut berths, &mut copies, calls, times)
}

/// The same on vectors.
#[unsafe(no_mangle)]
pub extern "C" fn govdrez_vector_seasons(calls: &[YardCall], times: u32) -> u64 {
    let mut berths = [blank_berth::<VectorClock>(); BERTHS];
    let mut copies = [blank_copy::<VectorClock, Ticket>(ticket(0)); BERTHS * FILES];
    seasons(&mut berths, &mut copies, calls, times)
}

/// Copies record `a` over record `to` for each step, among 128 records of tree
/// clocks and tickets, as many times as `times` says. The payload's number of record 0.
#[unsafe(no_mangle)]
pub extern "C" fn govdrez_record_copies(steps: &[Step], times: u32) -> u64 {
    let mut copies = [blank_copy::<TreeClock, Ticket>(ticket(0)); SLOTS];
    for (i, copy) in copies.iter_mut().enumerate() {
        copy.payload = ticket(i as u64);
    }
    for _ in 0..times {
        for step in steps {
            copies[slot(step.to)] = copies[slot(step.a)];
        }
    }
    copies[0].payload.length()
}
