ghost use Rattle.std.specs.Prelude.{◌≡◌};
ghost use Rattle.clock.specs.Answers.{fault_of};

use clock::{Cause, Fault};

// A refusal with no place. It is not inlined: where a fault's fields are written one by one beside a value, LLVM
// moves the `Result` in as many pieces, from one place to the next, and with this from where it was made to where
// it stays.
#[cold]
#[inline(never)]
pub(crate) fn fault(cause: Cause) -> Fault
    ensures { result ≡ fault_of cause }
{
    cause.into()
}
