//! How far records go: whether the length of one that came is that of its counts, and how much of an output's storage is written.

ghost use Rattle.std.specs.Prelude.{◌≡◌, ◌<◌, ◌≤◌, length, take, IfErr, IfOk, OnOk};
ghost use Rattle.cob_move_data.specs.declared.operands.Side.TheVariants.{Out};
ghost use Rattle.cob_limits.specs.Limits.{longest_record};
ghost use Rattle.cob_move_apply.specs.Located.{stop_at};
ghost use Rattle.cob_layout.specs.Kept.{AreKeptOf};
ghost use Rattle.cob_layout.specs.Standing.{room_for};
ghost use Rattle.cob_layout.specs.Storage.{greatest_length};
ghost use Rattle.cob_move_apply.specs.declared.stop.StopCause.TheVariants.{Count};
ghost use Rattle.cob_records.specs.Frame.{IsRecord};
ghost use Rattle.cob_records.specs.declared.records.Form.TheVariants.{Variable};
ghost use Rattle.cob_convert_stream.specs.Output.{IsOutputOf};
ghost use Rattle.cob_convert_stream.specs.Sizes.{IsSized};
ghost use Rattle.cob_convert_stream.specs.Whole.{IsMisfitReason};
ghost use Rattle.cob_convert_record.specs.Becoming.{IsCountStop};

use cob_convert_stream::{Reason, is_always_whole, length_in_form, measure_by};
use cob_move_apply::{CountFault, Layout, Scratch, Side, Stop, StopCause};
use cob_records::Form;

/// The stop of a conversion at a count of the output that isn't valid.
fn count_stop(fault: CountFault) -> Stop
    ensures { result ≡ stop_at Out fault.offset Count }
{
    Stop {
        side: Side::Out,
        offset: fault.offset,
        cause: StopCause::Count,
    }
}

/// How many bytes of the output record's storage are written. What the room keeps of its counts is not read again.
///
/// # Errors
///
/// The first count of the storage that isn't valid.
#[inline(always)]
pub(crate) fn kept_output_length(
    layout: &Layout,
    form: Form,
    storage: &[u8],
    scratch: &mut Scratch,
) -> Result<usize, Stop>
    requires storage { length storage.now ≡ greatest_length layout.now }
    requires room { scratch.old.room.outputs ≡ room_for layout.now }
    requires kept { AreKeptOf layout.now storage.now scratch.old.kept_output }
    ensures size { IfOk result
        (λ made. (0 < made) × (made ≤ length storage.now) × (made ≤ longest_record)) }
    ensures written { IfOk result
        (λ made. IsOutputOf form layout.now storage.now (take made storage.now)) }
    ensures stops { IfErr result (λ stop. IsCountStop layout.now storage.now stop) }
    ensures room { scratch.new.room ≡ scratch.old.room }
{
    let greatest = layout.greatest();
    if is_always_whole(layout, form) {
        return Ok(usize::from(greatest));
    }
    match scratch.output_length(layout, storage) {
        Ok(current) => Ok(length_in_form(form, storage, current)),
        Err(fault) => Err(count_stop(fault)),
    }
}

/// Judges an input record of form v or b that came whole. Its counts are kept by the room.
///
/// # Errors
///
/// A count of the record that isn't valid, or a length other than that which its counts give.
#[inline(always)]
fn judge_current(layout: &Layout, input: &[u8], scratch: &mut Scratch) -> Result<(), Reason>
    requires room { scratch.old.room.inputs ≡ room_for layout.now }
    ensures sized { OnOk result (IsSized Variable layout.now input.now) }
    ensures misfit { IfErr result (IsMisfitReason Variable layout.now input.now) }
    ensures kept { AreKeptOf layout.now input.now scratch.new.kept_input }
    ensures room { scratch.new.room ≡ scratch.old.room }
{
    match measure_by(input, scratch.input_length(layout, input)) {
        Ok(()) => Ok(()),
        Err(why) => Err(Reason::of_misfit(why)),
    }
}

/// Judges an input record that came whole by its layout. The counts that are read are kept by the room: in form f none.
///
/// # Errors
///
/// In forms v and b a count of the record that isn't valid, or a length other than that which its counts give.
#[inline(always)]
pub(crate) fn judge_kept(
    layout: &Layout,
    form: Form,
    input: &[u8],
    scratch: &mut Scratch,
) -> Result<(), Reason>
    requires record { IsRecord form (greatest_length layout.now) input.now }
    requires room { scratch.old.room.inputs ≡ room_for layout.now }
    ensures sized { OnOk result (IsSized form layout.now input.now) }
    ensures misfit { IfErr result (IsMisfitReason form layout.now input.now) }
    ensures kept { AreKeptOf layout.now input.now scratch.new.kept_input }
    ensures room { scratch.new.room ≡ scratch.old.room }
{
    match form {
        Form::Fixed => {
            scratch.forget_input();
            Ok(())
        }
        Form::Variable | Form::Blocked(_) => judge_current(layout, input, scratch),
    }
}
