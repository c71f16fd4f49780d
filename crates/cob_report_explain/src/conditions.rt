//! Conditions, tested where a record is walked, and the entry that stops one.

ghost use Rattle.std.specs.Prelude.{◌≡◌, ◌<◌, length, Some};
ghost use Rattle.std.specs.List.{AllByRecursion, slice_get};
ghost use Rattle.cob_layout.specs.Storage.{greatest_length};
ghost use Rattle.cob_move_apply.specs.Entries.{IsPlacedEntry};
ghost use Rattle.cob_move_condition.specs.Conditions.{condition_of};
ghost use Rattle.cob_move_condition.specs.declared.condition.Condition.{Condition as TheCondition};
ghost use Rattle.cob_move_deeds.specs.Flows.{sender_at};
ghost use Rattle.cob_move_deeds.specs.Prepared.{flow_support};
ghost use Rattle.cob_move_deeds.specs.Tests.{Holds, Judged};
ghost use Rattle.cob_report_explain.specs.Flowing.{IsWalk, plain_answer, records_walked};
ghost use Rattle.cob_report_explain.specs.Walked.{HasWalkRoom};

use crate::flows::Walk;
use crate::walk::{ConditionStop, RecordStop, WalkRoom};
use cob_layout::Place;
use cob_move_apply::{PlacedEntry, Stop, StopCause};
use cob_move_condition::{Comparand, Condition};
use cob_move_data::Side;

/// Whether what is compared is the entry with this number.
fn is_entry(comparand: &Comparand, entry: usize) -> bool {
    matches!(*comparand, Comparand::Entry(number) if number == entry)
}

/// Whether a condition asks for the entry with this number.
fn asks_for(condition: &Condition, entry: usize) -> bool {
    match condition {
        Condition::Always => false,
        Condition::Compares(first, _, second) => is_entry(first, entry) || is_entry(second, entry),
        Condition::HasClass(number, _) => *number == entry,
        Condition::Not(inner) => asks_for(inner, entry),
        Condition::Both(first, second) | Condition::Either(first, second) => {
            asks_for(first, entry) || asks_for(second, entry)
        }
    }
}

/// Whether a stop tells that bytes at this place of a side represent no value.
fn is_no_value_at(stop: Stop, side: Side, place: Place) -> bool {
    stop.cause == StopCause::NoValue && stop.side == side && stop.offset == place.offset
}

/// Whether it is this entry that a condition stops at: what its place needs is missing, or it stands where bytes represent no value.
fn is_stop_of(
    walk: &Walk<'_>,
    entry: &PlacedEntry,
    output: &[u8],
    room: &mut WalkRoom,
    stop: Stop,
) -> bool
    requires placed { IsPlacedEntry (records_walked walk.now) entry.now }
    requires room { HasWalkRoom (records_walked walk.now) room.old }
    ensures { HasWalkRoom (records_walked walk.now) room.new }
{
    room.scratch.forget_input();
    room.scratch.forget_output();
    match entry.place(
        walk.layouts.input,
        walk.layouts.output,
        walk.input,
        output,
        &mut room.scratch,
    ) {
        Ok(place) => is_no_value_at(stop, entry.side(), place),
        Err(found) => found == stop,
    }
}

/// The number of the first entry of those that a condition asks for at which it stops.
fn entry_of_stop(
    walk: &Walk<'_>,
    condition: &Condition,
    output: &[u8],
    room: &mut WalkRoom,
    stop: Stop,
) -> Option<usize>
    requires walk { IsWalk walk.now }
    requires room { HasWalkRoom (records_walked walk.now) room.old }
    ensures { HasWalkRoom (records_walked walk.now) room.new }
{
    let entries = walk.deeds.asked().entries.as_slice();
    for number in 0..entries.len() {
        if asks_for(condition, number) && is_stop_of(walk, &entries[number], output, room, stop) {
            return Some(number);
        }
    }
    None
}

/// Whether the condition with this number holds.
///
/// # Errors
///
/// What is missing for it.
pub(crate) fn condition_given(
    walk: &Walk<'_>,
    condition: usize,
    output: &[u8],
    room: &mut WalkRoom,
) -> Result<bool, RecordStop>
    requires walk { IsWalk walk.now }
    requires within { condition < length walk.now.deeds.now.asked.conditions.items }
    requires output { length output.now ≡ greatest_length walk.now.layouts.output.now }
    requires room { HasWalkRoom (records_walked walk.now) room.old }
    ensures says { (c : TheCondition)
        → slice_get walk.now.deeds.now.asked.conditions.items condition ≡ Some c
        → Judged (records_walked walk.now) (Holds (condition_of
        (sender_at (records_walked walk.now) (flow_support walk.now.deeds.now)) c))
        walk.now.input.now output.now (plain_answer result) }
    ensures room { HasWalkRoom (records_walked walk.now) room.new }
{
    match walk.deeds.condition_says(
        condition,
        walk.layouts.input,
        walk.layouts.output,
        walk.input,
        output,
        &mut room.scratch,
    ) {
        Ok(holds) => Ok(holds),
        Err(stop) => {
            let tested = &walk.deeds.asked().conditions[condition];
            let entry = entry_of_stop(walk, tested, output, room, stop);
            Err(RecordStop::AtCondition(ConditionStop {
                condition,
                entry,
                stop,
            }))
        }
    }
}
