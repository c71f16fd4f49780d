//! Writing records and counting what the sink took.

ghost use Rattle.std.specs.Prelude.{◌≡◌, ◌<◌, ◌≤◌, true, ℕ, List, length, take, Err, Ok, IfErr, IfOk, IsTrue, OnErr, OnOk, is_err};
ghost use Rattle.cob_copybook_tree.specs.Forests.{Forest};
ghost use Rattle.cob_copybook_tree.specs.Nodes.{Resolved};
ghost use Rattle.cob_limits.specs.Limits.{longest_record};
ghost use Rattle.cob_layout.specs.Counting.{CountsOf};
ghost use Rattle.cob_layout.specs.Storage.{greatest_length};
ghost use Rattle.cob_layout.specs.Standing.{IsRoomFor};
ghost use Rattle.cob_records.specs.Device.{Took, counted};
ghost use Rattle.cob_records.specs.Frame.{is_write_error, is_write_fault};
ghost use Rattle.cob_records.specs.Forms.{FitsIn, emptied, pending_in, outlet_with, written_by};
ghost use Rattle.cob_convert_stream.specs.Output.{IsOutputOf, PutsCounted, taken_in};
ghost use Rattle.cob_convert_stream.specs.Sizes.{GivesLength};

use cob_layout::{Counts, Layout};
use cob_layout_places::CountFault;
use cob_records::{Form, Outlet, RecordFault, Sink};

/// Whether all of a storage is written, whatever its bytes: in form f, where no table varies.
#[inline(always)]
pub fn is_always_whole(layout: &Layout, form: Form) -> bool
    ensures { IsTrue result → (storage : List ℕ) → IsOutputOf form layout.now storage storage }
{
    if layout.varies() {
        return false;
    }
    matches!(form, Form::Fixed)
}

/// How many bytes of an output storage are written, where its counts are all valid and give this length: all in form f, and in forms v and b its
/// current part.
#[inline(always)]
pub fn length_in_form(form: Form, storage: &[u8], current: u16) -> usize
    ensures size { 0 < current → current ≤ length storage.now
        → (0 < result) × (result ≤ length storage.now) }
    ensures written { (tree : Forest Resolved) → GivesLength tree storage.now (Ok current)
        → IsOutputOf form tree storage.now (take result storage.now) }
{
    match form {
        Form::Fixed => storage.len(),
        Form::Variable => usize::from(current),
        Form::Blocked(_) => usize::from(current),
    }
}

/// How many bytes of an output storage are written: all in form f, and in forms v and b its current part. The counts are room that it needs.
///
/// # Errors
///
/// The first count of the storage that isn't valid, in every form.
#[inline(always)]
pub fn written_length(
    layout: &Layout,
    form: Form,
    storage: &[u8],
    counts: &mut Counts,
) -> Result<usize, CountFault>
    requires storage { length storage.now ≡ greatest_length layout.now }
    requires room { IsRoomFor layout.now counts.old }
    ensures size { IfOk result
        (λ made. (0 < made) × (made ≤ length storage.now) × (made ≤ longest_record)) }
    ensures written { IfOk result
        (λ made. IsOutputOf form layout.now storage.now (take made storage.now)) }
    ensures faulty { IfErr result (λ fault. CountsOf layout.now storage.now (Err fault)) }
    ensures room { IsRoomFor layout.now counts.new }
{
    let greatest = layout.greatest();
    if is_always_whole(layout, form) {
        return Ok(usize::from(greatest));
    }
    let current = layout.current_length(storage, counts)?;
    Ok(length_in_form(form, storage, current))
}

/// How many bytes the sink took, where so many were to be written and this was the answer.
#[inline(always)]
fn taken_by(answer: Result<(), RecordFault>, whole: u16) -> u64
    ensures { result ≡ taken_in whole answer }
{
    match answer {
        Ok(()) => u64::from(whole),
        Err(fault) => fault.taken() as u64,
    }
}

/// Writes a record by way of an outlet, and adds to `written` the bytes that the sink took, up to the greatest `u64`: in forms f and v its
/// frame; in form b the open block, where the frame does not fit into it.
///
/// # Errors
///
/// Those of [`Outlet::add`]: the sink took a beginning of the frame, or of the block.
#[inline(always)]
pub fn write_record<W: Sink>(
    sink: &mut W,
    outlet: &mut Outlet,
    body: &[u8],
    written: &mut u64,
) -> Result<(), RecordFault>
    requires low { 0 < length body.now }
    requires high { length body.now ≤ longest_record }
    requires fits { FitsIn outlet.old body.now }
    ensures puts { Took (W.taken sink.old) (W.taken sink.new)
        (PutsCounted (written_by outlet.old body.now) result written.old written.new) }
    ensures added { OnOk result (outlet.new ≡ outlet_with outlet.old body.now) }
    ensures emptied { OnErr result (outlet.new ≡ emptied outlet.old) }
    ensures kind { IfErr result (λ fault. is_write_fault fault ≡ true) }
    ensures cause { W.failures sink.new ≡ counted (is_err result) (W.failures sink.old) }
    ensures errors { W.errors sink.new ≡ counted (is_write_error result) (W.errors sink.old) }
{
    let whole = outlet.written_by(body);
    let answer = outlet.add(sink, body);
    *written = written.saturating_add(taken_by(answer, whole));
    answer
}

/// Writes what an outlet holds back, in form b the open block, and adds to `written` the bytes that the sink took of it, up to the greatest
/// `u64`. Then nothing is held back.
///
/// # Errors
///
/// Those of [`Outlet::finish`]: the sink took a beginning of the block.
pub fn write_pending<W: Sink>(
    sink: &mut W,
    outlet: &mut Outlet,
    written: &mut u64,
) -> Result<(), RecordFault>
    ensures puts { Took (W.taken sink.old) (W.taken sink.new)
        (PutsCounted (pending_in outlet.old) result written.old written.new) }
    ensures emptied { outlet.new ≡ emptied outlet.old }
    ensures kind { IfErr result (λ fault. is_write_fault fault ≡ true) }
    ensures cause { W.failures sink.new ≡ counted (is_err result) (W.failures sink.old) }
    ensures errors { W.errors sink.new ≡ counted (is_write_error result) (W.errors sink.old) }
{
    let whole = outlet.pending();
    let answer = outlet.finish(sink);
    *written = written.saturating_add(taken_by(answer, whole));
    answer
}
