ghost use Rattle.std.specs.Fmt.{WritesOnOk};
ghost use Rattle.vector_clock.specs.Texts.{item_text};

use std::fmt;

// Writes one number of a list, with a comma in front where others stand before it. Into the loops over lists: as a
// call, each number is written through the formatter as a whole.
#[inline(always)]
pub(crate) fn write_item<W: fmt::Write>(
    f: &mut fmt::Formatter<W>,
    after: bool,
    number: usize,
) -> fmt::Result
    ensures { WritesOnOk W.write_str_gives f.old result (item_text after number) f.new }
{
    if after {
        f.write_str(",")?;
    }
    write!(f, "{number}")
}
