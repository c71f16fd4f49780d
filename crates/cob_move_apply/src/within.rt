//! Single moves from one place of the output record to another that were made ready, carried out. The sender's bytes are those of the storage before the move:
//! they are read where they stand, where no byte of the receiver is among them, and else they are taken first.

ghost use Rattle.std.specs.Prelude.{◌≡◌, ◌+◌, ◌≤◌, false, length, List, OnErr, IsTrue};
ghost use Rattle.cob_codec.specs.Readings.{KeepsZones};
ghost use Rattle.cob_layout.specs.Storage.{greatest_length, IsStorage};
ghost use Rattle.cob_move_data.specs.declared.operands.Side.TheVariants.{Out};
ghost use Rattle.cob_move_data.specs.Moves.{Move as Meant};
ghost use Rattle.cob_move_apply.specs.Applied.{done, ending};
ghost use Rattle.cob_move_apply.specs.Made.{IsMadeReady};
ghost use Rattle.cob_move_apply.specs.Promised.{AnyEnd, AnyHaveSpent, AnySpend, PreparedMeans};
ghost use Rattle.cob_move_apply.specs.Spent.{IsSpent};
ghost use Rattle.cob_move_apply.specs.Steps.{StandsBefore};
ghost use Rattle.cob_move_apply.specs.Surveyed.{IsWorkspace, records};
ghost use Rattle.cob_move_apply.specs.Written.{HasPlaces, ended};
ghost use Rattle.cob_move_steps.specs.Pool.{IsMoveStep, MoveKinds};

use crate::layouts::Layouts;
use crate::senders::copy_field;
use crate::step::{MovePlaces, Plan, PreparedMove};
use crate::stop::{Stop, StopCause};
use crate::workspace::Workspace;
use cob_move_data::Side;
use cob_move_steps::{MoveStep, MoveSteps};

/// Carries out a step between two places of a storage, where the sender stands before the receiver. It is inlined, so that it costs no call.
#[inline(always)]
fn step_onwards(
    prepared: &MoveSteps,
    places: &MovePlaces,
    step: MoveStep,
    storage: &mut [u8],
) -> bool
    requires step { (k : MoveKinds) × IsMoveStep prepared.now k step × HasPlaces places.now k }
    requires before { StandsBefore places.now }
    requires within { places.now.to.offset + places.now.to.length ≤ length storage.old }
    ensures made { IsMadeReady Out (record { places = places.now; step = step }) prepared.now
        storage.old storage.old (ended Out places.now result storage.new) }
    ensures same { result ≡ false → storage.new ≡ storage.old }
{
    let sent = places.from.offset as usize + places.from.length as usize;
    let received = places.to.length as usize;
    let (front, back) = storage.split_at_mut(places.to.offset as usize);
    prepared.run(step, &front[..sent], &mut back[..received])
}

/// Carries out a step between two places of a storage, where the sender stands behind the receiver.
fn step_backwards(
    prepared: &MoveSteps,
    places: &MovePlaces,
    step: MoveStep,
    storage: &mut [u8],
) -> bool
    requires step { (k : MoveKinds) × IsMoveStep prepared.now k step × HasPlaces places.now k }
    requires behind { places.now.to.offset + places.now.to.length ≤ places.now.from.offset }
    requires within { places.now.from.offset + places.now.from.length ≤ length storage.old }
    ensures made { IsMadeReady Out (record { places = places.now; step = step }) prepared.now
        storage.old storage.old (ended Out places.now result storage.new) }
    ensures same { result ≡ false → storage.new ≡ storage.old }
{
    let start = places.to.offset as usize;
    let end = start + places.to.length as usize;
    let sent = places.from.offset as usize + places.from.length as usize - end;
    let (front, back) = storage.split_at_mut(end);
    prepared.run(step, &back[..sent], &mut front[start..end])
}

/// Carries out a step between two places of a storage, which may share bytes: those of the sender are taken first.
fn step_taken(
    prepared: &MoveSteps,
    places: &MovePlaces,
    step: MoveStep,
    storage: &mut [u8],
    content: &mut [u8],
) -> bool
    requires step { (k : MoveKinds) × IsMoveStep prepared.now k step × HasPlaces places.now k }
    requires reads { places.now.from.offset + places.now.from.length ≤ length storage.old }
    requires writes { places.now.to.offset + places.now.to.length ≤ length storage.old }
    requires room { length content.old ≡ length storage.old }
    ensures made { IsMadeReady Out (record { places = places.now; step = step }) prepared.now
        storage.old storage.old (ended Out places.now result storage.new) }
    ensures same { result ≡ false → storage.new ≡ storage.old }
{
    copy_field(places.from, storage, content);
    let sent = places.from.length as usize;
    let start = places.to.offset as usize;
    let end = start + places.to.length as usize;
    prepared.run(step, &content[..sent], &mut storage[start..end])
}

/// Carries out a step between two places of a storage, wherever these are.
fn step_anywhere(
    prepared: &MoveSteps,
    places: &MovePlaces,
    step: MoveStep,
    storage: &mut [u8],
    content: &mut [u8],
) -> bool
    requires step { (k : MoveKinds) × IsMoveStep prepared.now k step × HasPlaces places.now k }
    requires reads { places.now.from.offset + places.now.from.length ≤ length storage.old }
    requires writes { places.now.to.offset + places.now.to.length ≤ length storage.old }
    requires room { length content.old ≡ length storage.old }
    ensures made { IsMadeReady Out (record { places = places.now; step = step }) prepared.now
        storage.old storage.old (ended Out places.now result storage.new) }
    ensures same { result ≡ false → storage.new ≡ storage.old }
{
    let sent = places.from.offset as usize + places.from.length as usize;
    let end = places.to.offset as usize + places.to.length as usize;
    if sent <= places.to.offset as usize {
        step_onwards(prepared, places, step, storage)
    } else if end <= places.from.offset as usize {
        step_backwards(prepared, places, step, storage)
    } else {
        step_taken(prepared, places, step, storage, content)
    }
}

/// Carries out a single move from one place of the output record to another that was made ready. It isn't inlined: few moves share bytes.
///
/// # Errors
///
/// A value of the sender is missing. The storage is as it was then.
#[inline(never)]
pub(crate) fn make_within(
    plan: &Plan,
    places: &MovePlaces,
    step: MoveStep,
    layouts: &Layouts<'_>,
    input: &[u8],
    output: &mut [u8],
    space: &mut Workspace,
) -> Result<(), Stop>
    requires keeps { KeepsZones layouts.now.reading }
    requires step { (own : List Meant) × PreparedMeans Out plan.now places.now step layouts.now
        own }
    requires input { IsStorage layouts.now.input.now input.now }
    requires output { length output.old ≡ greatest_length layouts.now.output.now }
    requires space { IsWorkspace (records layouts.now) input.now output.old space.old }
    ensures applied { AnyEnd (PreparedMeans Out plan.now places.now step) layouts.now input.now
        output.old (ending result output.new) }
    ensures space { IsWorkspace (records layouts.now) input.now output.new space.new }
    ensures spends { AnySpend (PreparedMeans Out plan.now places.now step) layouts.now input.now
        output.old result output.new space.old space.new }
    ensures same { OnErr result ((output.new ≡ output.old)
        × IsSpent layouts.now.output.now 0 space.old.output space.new.output) }
{
    let prepared = &plan.prepared;
    let content = space.content.as_mut_slice();
    if step_anywhere(prepared, places, step, output, content) {
        space.output.change_output(layouts, places.to);
        Ok(())
    } else {
        Err(Stop {
            side: Side::Out,
            offset: places.from.offset,
            cause: StopCause::NoValue,
        })
    }
}

/// Carries out a single move from one place of the output record to another that was made ready. False where a value of the sender is missing: the storage is as
/// it was then.
#[inline(always)]
pub(crate) fn run_within(
    plan: &Plan,
    one: &PreparedMove,
    layouts: &Layouts<'_>,
    input: &[u8],
    output: &mut [u8],
    space: &mut Workspace,
) -> bool
    requires keeps { KeepsZones layouts.now.reading }
    requires step { (own : List Meant) × PreparedMeans Out plan.now one.now.places one.now.step
        layouts.now own }
    requires input { IsStorage layouts.now.input.now input.now }
    requires output { length output.old ≡ greatest_length layouts.now.output.now }
    requires space { IsWorkspace (records layouts.now) input.now output.old space.old }
    ensures applied { IsTrue result → AnyEnd (PreparedMeans Out plan.now one.now.places
        one.now.step) layouts.now input.now output.old (done output.new) }
    ensures space { IsWorkspace (records layouts.now) input.now output.new space.new }
    ensures spends { IsTrue result → AnyHaveSpent (PreparedMeans Out plan.now one.now.places
        one.now.step) layouts.now input.now output.old output.new space.old space.new }
    ensures same { result ≡ false → (output.new ≡ output.old)
        × IsSpent layouts.now.output.now 0 space.old.output space.new.output }
{
    let places = &one.places;
    match make_within(plan, places, one.step, layouts, input, output, space) {
        Ok(()) => true,
        Err(_) => false,
    }
}

/// Carries out a single move from one place of the output record to another behind it that was made ready. False where a value of the sender is missing: all is as
/// it was then. It is inlined, so that it costs no call.
#[inline(always)]
pub(crate) fn run_onwards(
    plan: &Plan,
    places: &MovePlaces,
    step: MoveStep,
    layouts: &Layouts<'_>,
    input: &[u8],
    output: &mut [u8],
    space: &mut Workspace,
) -> bool
    requires keeps { KeepsZones layouts.now.reading }
    requires step { (own : List Meant) × PreparedMeans Out plan.now places.now step layouts.now
        own }
    requires before { StandsBefore places.now }
    requires input { IsStorage layouts.now.input.now input.now }
    requires output { length output.old ≡ greatest_length layouts.now.output.now }
    requires space { IsWorkspace (records layouts.now) input.now output.old space.old }
    ensures applied { IsTrue result → AnyEnd (PreparedMeans Out plan.now places.now step)
        layouts.now input.now output.old (done output.new) }
    ensures space { IsWorkspace (records layouts.now) input.now output.new space.new }
    ensures spends { IsTrue result → AnyHaveSpent (PreparedMeans Out plan.now places.now step)
        layouts.now input.now output.old output.new space.old space.new }
    ensures same { result ≡ false → (output.new ≡ output.old) × (space.new ≡ space.old) }
{
    if step_onwards(&plan.prepared, places, step, output) {
        space.output.change_output(layouts, places.to);
        true
    } else {
        false
    }
}
