ghost use Rattle.std.specs.Prelude.{◌≡◌, true, false, IfOk, IsErrOf, IsOkUnless, length};
ghost use Rattle.clock.specs.declared.causes.Cause.TheVariants.{Sizes as SizesCause};
ghost use Rattle.clock.specs.Answers.{fault_of};
ghost use Rattle.season.specs.Opens.{Opened, within};
ghost use Rattle.season.specs.declared.errors.OpenError.TheVariants.{Refused, OutOfMemory};

use crate::errors::OpenError;
use crate::seasons::Season;
use clock::{Cause, Clock, Fault};
use payload::Payload;
use std::alloc::Global;
use yard::{OpenCard, blank_berth, blank_copy, open};

// Whether a yard can have so many berths and files.
fn are_within_limits(berth_count: usize, file_count: usize) -> bool
    ensures { result ≡ within berth_count file_count }
{
    (1..=16).contains(&berth_count) && (1..=32).contains(&file_count)
}

impl<C: Clock, P: Payload> Season<OpenCard, C, P> {
    /// Opens a yard of so many berths, with a file for each payload, its opening
    /// one. Refused with 1.
    pub fn open(
        alloc: Global,
        berth_count: usize,
        payloads: &[P],
    ) -> Result<Season<OpenCard, C, P>, OpenError>
        ensures opened { IfOk result (Opened C.meaning berth_count payloads.now) }
        ensures refused { within berth_count (length payloads.now) ≡ false
            → IsErrOf result (Refused (fault_of SizesCause)) }
        ensures accepted { within berth_count (length payloads.now) ≡ true
            → IsOkUnless result OutOfMemory }
    {
        if !are_within_limits(berth_count, payloads.len()) {
            return Err(OpenError::Refused(Fault::from(Cause::Sizes)));
        }
        let copy_count = berth_count * payloads.len();
        let mut berths = vec![in alloc; blank_berth::<C>(); berth_count]?;
        let mut copies = vec![in alloc; blank_copy::<C, P>(payloads[0]); copy_count]?;
        let card = open::<C, P>(&mut berths, &mut copies, payloads)?;
        Ok(Season {
            card,
            berths,
            copies,
        })
    }
}
