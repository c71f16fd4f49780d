//! What becomes of a record that came whole.

ghost use Rattle.std.specs.Prelude.{◌≡◌, ◌<◌, ◌≤◌, false, ℕ, List, length, take, IfErr, IfOk};
ghost use Rattle.cob_limits.specs.Limits.{longest_record};
ghost use Rattle.cob_records.specs.Frame.{IsRecord};
ghost use Rattle.cob_convert_record.specs.Conversion.{Conversion as Converts, in_length, out_length};
ghost use Rattle.cob_convert_record.specs.Rejecting.{IsRejectedFor};
ghost use Rattle.cob_convert_record.specs.Rooms.{capacity_for};
ghost use Rattle.cob_convert.specs.Outcomes.{IsRejected};
ghost use Rattle.cob_convert.specs.Run.{IsConverted};

use cob_convert_record::{Conversion, Rejection, Room, stop_reason};
use cob_convert_stream::Reason;

/// The reason of a record that is rejected.
fn reason_of(rejection: Rejection) -> Reason
    ensures { (conversion : Converts) (input : List ℕ)
        → IsRejectedFor conversion input rejection → IsRejected conversion input result }
{
    match rejection {
        Rejection::Misfit(why) => why,
        Rejection::Stopped(stop) => stop_reason(stop),
    }
}

/// Makes the output record of an input record that came whole, and answers how many bytes of its storage are written.
///
/// # Errors
///
/// Why the record is rejected: it isn't one of its layout, or its conversion stops.
#[inline(always)]
pub(crate) fn converted(
    conversion: &Conversion,
    input: &[u8],
    output: &mut [u8],
    room: &mut Room,
) -> Result<usize, Reason>
    requires record { IsRecord conversion.now.in_form (in_length conversion.now) input.now }
    requires output { length output.old ≡ out_length conversion.now }
    requires room { room.old ≡ capacity_for conversion.now.records }
    ensures size { IfOk result
        (λ made. (0 < made) × (made ≤ length output.new) × (made ≤ longest_record)) }
    ensures converts { IfOk result
        (λ made. IsConverted conversion.now (input.now, take made output.new)) }
    ensures rejects { IfErr result (IsRejected conversion.now input.now) }
    ensures room { room.new ≡ room.old }
{
    match conversion.convert_whole(input, output, room) {
        Ok(made) => Ok(made),
        Err(rejection) => Err(reason_of(rejection)),
    }
}
