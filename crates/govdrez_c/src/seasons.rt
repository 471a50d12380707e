ghost use Rattle.std.specs.Prelude.{◌≤◌, length};
ghost use Rattle.yard_rules.specs.Tables.{Made};

use crate::calls::{YardCall, ticket};
use crate::outcomes::Outcome;
use clock::{Clock, Fault};
use payload::Ticket;
use std::fmt::Display;
use std::io;
use std::io::Write;
use yard::OpenCard;
use yard_rules::{Berth, Call, Record};

/// How many berths and files a season has.
pub(crate) const BERTHS: usize = 16;

pub(crate) const FILES: usize = 32;

/// Makes the call.
pub(crate) fn make<C: Clock>(
    card: &OpenCard,
    berths: &mut [Berth<C::Pen>],
    copies: &mut [Record<C, Ticket>],
    bytes: &mut [u8],
    call: &YardCall,
) -> Outcome
    requires made { Made C.Clock.meaning berths.old copies.old }
    ensures made { Made C.Clock.meaning berths.new copies.new }
{
    match call.call() {
        Call::Reads(call) => Outcome::of(yard::read(card, berths, copies, bytes, call)),
        Call::Writes(call) => Outcome::of(yard::write(card, berths, copies, bytes, call)),
        // no number stands for it
        Call::Seal => Outcome::done(),
    }
}

/// A season from open on. The sum of the outcomes' numbers.
pub(crate) fn season<C: Clock>(
    berths: &mut [Berth<C::Pen>],
    copies: &mut [Record<C, Ticket>],
    calls: &[YardCall],
) -> Result<u64, Fault> {
    let card = yard::open(berths, copies, &[ticket(0); FILES])?;
    let mut bytes = [0; FILES];
    let mut sum: u64 = 0;
    for call in calls {
        let outcome = make(&card, berths, copies, &mut bytes, call);
        sum = sum.wrapping_add(outcome.number());
    }
    Ok(sum)
}

/// The same season again and again.
pub(crate) fn seasons<C: Clock>(
    berths: &mut [Berth<C::Pen>],
    copies: &mut [Record<C, Ticket>],
    calls: &[YardCall],
    rounds: u32,
) -> u64 {
    let mut sum: u64 = 0;
    for _ in 0..rounds {
        sum = sum.wrapping_add(season(berths, copies, calls).unwrap_or(0));
    }
    sum
}

// Writes a line for each call, and then one for each copy.
fn write_season<C: Clock + Display>(
    page: &mut &mut [u8],
    berths: &mut [Berth<C::Pen>],
    copies: &mut [Record<C, Ticket>],
    calls: &[YardCall],
) -> io::Result<()> {
    let Ok(card) = yard::open(berths, copies, &[ticket(0); FILES]) else {
        return writeln!(page, "refused");
    };
    let mut bytes = [0; FILES];
    for call in calls {
        let outcome = make(&card, berths, copies, &mut bytes, call);
        writeln!(page, "{outcome}")?;
    }
    for copy in &*copies {
        let number = copy.payload.length();
        writeln!(page, "{} {number}", copy.clock)?;
    }
    Ok(())
}

/// A season as text: a line for each call and one for each copy. The text's length.
pub(crate) fn tell_season<C: Clock + Display>(
    berths: &mut [Berth<C::Pen>],
    copies: &mut [Record<C, Ticket>],
    calls: &[YardCall],
    text: &mut [u8],
) -> usize
    ensures { result ≤ length text.old }
{
    let room = text.len();
    let mut page = text;
    let _ = write_season(&mut page, berths, copies, calls);
    room.saturating_sub(page.len())
}
