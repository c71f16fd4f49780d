//! Reading a record as it came, and judging it behind that.

ghost use Rattle.std.specs.Prelude.{◌≡◌, false, length, IfErr, IfOk, IfSome, OnOk};
ghost use Rattle.cob_layout.specs.Storage.{greatest_length};
ghost use Rattle.cob_layout.specs.Standing.{IsRoomFor};
ghost use Rattle.cob_records.specs.Device.{Told, counted};
ghost use Rattle.cob_records.specs.Forms.{HasBlockSize};
ghost use Rattle.cob_records.specs.Frame.{IsRecord};
ghost use Rattle.cob_convert_stream.specs.Reasons.{is_read_cause, is_refused_for, is_write_cause};
ghost use Rattle.cob_convert_stream.specs.Sizes.{IsSized};
ghost use Rattle.cob_convert_stream.specs.Whole.{IsMisfitReason, IsWholeRecord, ReadsWhole};

use crate::fault::Reason;
use crate::misfit::measure;
use cob_layout::{Counts, Layout};
use cob_records::{Form, Source, next_in_form};

/// Reads the next record into the front of the slice as it came, and answers how many bytes it has, or `None` where no byte is left. The
/// record stands whole in its frame; whether it is one of its layout is for [`judge`] to say. The slice has room for a record of the greatest
/// length. `left` is what the open block still holds: 0 before the first record, and always without blocks.
///
/// # Errors
///
/// The fault of a frame that can't be read, at the front of the record.
#[inline(always)]
pub fn next_whole<R: Source>(
    source: &mut R,
    layout: &Layout,
    form: Form,
    slot: &mut [u8],
    left: &mut u16,
) -> Result<Option<usize>, Reason>
    requires block { HasBlockSize form }
    requires slot { length slot.old ≡ greatest_length layout.now }

    // Where the source tells its bytes: which of them were read, and what they are.
    ensures reads { Told (R.coming source.old) (R.coming source.new)
        (ReadsWhole form layout.now left.old slot.new result left.new) }

    // At any source: what is answered is a record that may stand in a frame, and a fault is none of writing.
    ensures whole { IfOk result (λ found. IfSome found (IsWholeRecord form layout.now slot.new)) }
    ensures kind { IfErr result (λ why. is_write_cause why.cause ≡ false) }

    // A read failed exactly where that is the reason.
    ensures cause { R.failures source.new
        ≡ counted (is_refused_for is_read_cause result) (R.failures source.old) }
{
    match next_in_form(source, form, layout.greatest(), slot, left) {
        Ok(None) => Ok(None),
        Ok(Some(count)) => Ok(Some(count)),
        Err(fault) => Err(Reason::of_frame(fault)),
    }
}

/// Judges a record that came whole by its layout, as [`read_record`](crate::read_record) does.
///
/// # Errors
///
/// In forms v and b the first count that isn't valid, at its item, or [`RecordFault::Length`](cob_records::RecordFault::Length) where the record
/// has another length than its counts give.
pub fn judge(layout: &Layout, form: Form, input: &[u8], counts: &mut Counts) -> Result<(), Reason>
    requires record { IsRecord form (greatest_length layout.now) input.now }
    requires room { IsRoomFor layout.now counts.old }
    ensures sized { OnOk result (IsSized form layout.now input.now) }
    ensures misfit { IfErr result (IsMisfitReason form layout.now input.now) }
    ensures room { IsRoomFor layout.now counts.new }
{
    match measure(layout, form, input, counts) {
        Ok(()) => Ok(()),
        Err(why) => Err(Reason::of_misfit(why)),
    }
}
