//! Whether a record that came is one of its layout.

ghost use Rattle.std.specs.Prelude.{◌≡◌, ℕ, List, length, Err, IfErr, IsFalse, IsTrue, OnOk};
ghost use Rattle.cob_copybook_tree.specs.Forests.{Forest};
ghost use Rattle.cob_copybook_tree.specs.Nodes.{Resolved};
ghost use Rattle.cob_layout.specs.Counting.{CountsOf};
ghost use Rattle.cob_layout.specs.Storage.{greatest_length};
ghost use Rattle.cob_layout.specs.Standing.{IsRoomFor};
ghost use Rattle.cob_records.specs.Frame.{IsRecord};
ghost use Rattle.cob_records.specs.declared.records.Form.TheVariants.{Variable};
ghost use Rattle.cob_convert_stream.specs.Sizes.{GivesLength, IsFitting, IsMeasureFault, IsSized};

use cob_layout::{Counts, Layout};
use cob_layout_places::CountFault;
use cob_records::Form;

/// Why a record that came whole isn't one of the input layout.
#[derive(Clone, Copy, PartialEq, Eq)]
pub enum MeasureFault {
    /// A count that isn't valid, with the offset of its item.
    Count { offset: u32 },
    /// A length other than the layout's under the record's own counts.
    Length,
}

/// The misfit of a record whose counts give no length.
fn measure_fault_of(fault: CountFault) -> MeasureFault
    ensures { (tree : Forest Resolved) (input : List ℕ)
        → CountsOf tree input (Err fault) → IsMeasureFault Variable tree input result }
{
    if fault.short {
        MeasureFault::Length
    } else {
        MeasureFault::Count {
            offset: fault.offset,
        }
    }
}

/// Whether a record of form v or b that came in a frame is one of its layout, where this is the length that its own counts give, or the fault of the
/// first that isn't valid: it has that length.
///
/// # Errors
///
/// The count that isn't valid, or a length other than that which the counts give.
#[inline(always)]
pub fn measure_by(input: &[u8], current: Result<u16, CountFault>) -> Result<(), MeasureFault>
    ensures sized { OnOk result ((tree : Forest Resolved)
        → GivesLength tree input.now current → IsSized Variable tree input.now) }
    ensures misfit { IfErr result (λ why. (tree : Forest Resolved)
        → GivesLength tree input.now current → IsMeasureFault Variable tree input.now why) }
{
    match current {
        Ok(current) if input.len() == usize::from(current) => Ok(()),
        Ok(_) => Err(MeasureFault::Length),
        Err(fault) => Err(measure_fault_of(fault)),
    }
}

/// Whether a record has the length that its own counts give.
fn measure_current(layout: &Layout, input: &[u8], counts: &mut Counts) -> Result<(), MeasureFault>
    requires room { IsRoomFor layout.now counts.old }
    ensures sized { OnOk result (IsSized Variable layout.now input.now) }
    ensures misfit { IfErr result (λ why. IsMeasureFault Variable layout.now input.now why) }
    ensures room { IsRoomFor layout.now counts.new }
{
    measure_by(input, layout.current_length(input, counts))
}

/// Whether a record that came whole has the length that its counts give: in form f it is as long as at most, whatever they say.
pub fn is_fitting(form: Form, current: u16, count: usize) -> bool
    ensures must { IsTrue result → IsFitting form current count }
    ensures only { IsFalse result → IsFitting form current count → ⊥ }
{
    match form {
        Form::Fixed => true,
        Form::Variable | Form::Blocked(_) => count == usize::from(current),
    }
}

/// Whether a record that came in a frame is one of its layout. In form f no count is looked at. The counts are room that it needs.
///
/// # Errors
///
/// In forms v and b a count of the record that isn't valid, or a length other than that which its counts give.
#[inline(always)]
pub fn measure(
    layout: &Layout,
    form: Form,
    input: &[u8],
    counts: &mut Counts,
) -> Result<(), MeasureFault>
    requires record { IsRecord form (greatest_length layout.now) input.now }
    requires room { IsRoomFor layout.now counts.old }
    ensures sized { OnOk result (IsSized form layout.now input.now) }
    ensures misfit { IfErr result (λ why. IsMeasureFault form layout.now input.now why) }
    ensures room { IsRoomFor layout.now counts.new }
{
    match form {
        Form::Fixed => Ok(()),
        Form::Variable => measure_current(layout, input, counts),
        Form::Blocked(_) => measure_current(layout, input, counts),
    }
}
