ghost use Rattle.std.specs.Prelude.{◌≡◌, ◌+◌, ◌*◌, ◌<◌, ◌≤◌};

use std::ops::Range;
use yard_rules::Sizes;

/// Where the records of berth a stand, one for each file.
pub fn row(sizes: Sizes, a: usize) -> Range<usize>
    requires { (a < sizes.berths) × ((sizes.berths ≤ 16) × (sizes.files ≤ 32)) }
    ensures start { result.start ≡ a * sizes.files }
    ensures end { result.end ≡ a * sizes.files + sizes.files }
    ensures within { result.end ≤ sizes.berths * sizes.files }
{
    let start = a * sizes.files;
    start..start + sizes.files
}

/// The record of berth a and file f.
pub fn place(sizes: Sizes, a: usize, f: usize) -> usize
    requires { (a < sizes.berths) × ((sizes.berths ≤ 16)
        × ((f < sizes.files) × (sizes.files ≤ 32))) }
    ensures is { result ≡ a * sizes.files + f }
    ensures within { result < sizes.berths * sizes.files }
{
    a * sizes.files + f
}
