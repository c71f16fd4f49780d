//! Reading a record and judging it.

ghost use Rattle.std.specs.Prelude.{◌≡◌, false, length, IfErr, IfOk, IfSome};
ghost use Rattle.cob_layout.specs.Storage.{greatest_length};
ghost use Rattle.cob_layout.specs.Standing.{IsRoomFor};
ghost use Rattle.cob_records.specs.Device.{Told, counted};
ghost use Rattle.cob_records.specs.Forms.{HasBlockSize};
ghost use Rattle.cob_convert_stream.specs.Input.{IsInputReason, IsJudged, ReadsRecord};
ghost use Rattle.cob_convert_stream.specs.Reasons.{is_read_cause, is_refused_for, is_write_cause};

use crate::fault::Reason;
use crate::misfit::measure;
use cob_layout::{Counts, Layout};
use cob_records::{Form, Source, next_in_form};

/// Reads the next record into the front of the slice, judges it by its layout, and answers how many bytes it has, or `None` where no
/// byte is left. The slice has room for a record of the greatest length. `left` is what the open block still holds: 0 before the first
/// record, and always without blocks.
///
/// # Errors
///
/// The fault of a frame that can't be read, at the front of the record. In forms v and b the first count that isn't valid, at its item, or
/// [`RecordFault::Length`](cob_records::RecordFault::Length) where the record has another length than its counts give.
#[inline(always)]
pub fn read_record<R: Source>(
    source: &mut R,
    layout: &Layout,
    form: Form,
    slot: &mut [u8],
    left: &mut u16,
    counts: &mut Counts,
) -> Result<Option<usize>, Reason>
    requires block { HasBlockSize form }
    requires slot { length slot.old ≡ greatest_length layout.now }
    requires room { IsRoomFor layout.now counts.old }

    // Where the source tells its bytes: which of them were read, and what they are.
    ensures reads { Told (R.coming source.old) (R.coming source.new)
        (ReadsRecord form layout.now left.old slot.new result left.new) }

    // At any source: what is answered is a record of the layout that stands in the slice, or why the next one is refused, which is
    // no fault of writing.
    ensures judged { IfOk result (λ found. IfSome found (IsJudged form layout.now slot.new)) }
    ensures reason { IfErr result (IsInputReason form layout.now slot.new) }
    ensures kind { IfErr result (λ why. is_write_cause why.cause ≡ false) }

    // A read failed exactly where that is the reason.
    ensures cause { R.failures source.new
        ≡ counted (is_refused_for is_read_cause result) (R.failures source.old) }
    ensures room { IsRoomFor layout.now counts.new }
{
    let count = match next_in_form(source, form, layout.greatest(), slot, left) {
        Ok(None) => return Ok(None),
        Ok(Some(count)) => count,
        Err(fault) => return Err(Reason::of_frame(fault)),
    };
    match measure(layout, form, &slot[..count], counts) {
        Ok(()) => Ok(Some(count)),
        Err(why) => Err(Reason::of_misfit(why)),
    }
}
