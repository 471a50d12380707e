ghost use Rattle.std.specs.Prelude.{◌≡◌, ◌==◌, count_by};
ghost use Rattle.clock.specs.Verdicts.{byte_of};

use clock::Verdict;

/// How many of a report's bytes tell this verdict.
pub fn count_verdict(bytes: &[u8], verdict: Verdict) -> usize
    ensures { result ≡ count_by (λ byte. byte == byte_of verdict) bytes.now }
{
    let wanted = u8::from(verdict);
    // No `filter` with `count`, which tests one byte after the other: here all are counted at once.
    let mut count = 0;
    for byte in bytes {
        if *byte == wanted {
            count += 1;
        }
    }
    count
}
