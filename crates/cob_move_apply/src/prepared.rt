//! Single moves that were made ready, carried out.

ghost use Rattle.std.specs.Prelude.{◌≡◌, ◌+◌, ◌≤◌, length, OnErr};
ghost use Rattle.cob_layout.specs.Fields.{field_of, with_field};
ghost use Rattle.cob_layout.specs.Storage.{greatest_length};
ghost use Rattle.cob_move_data.specs.declared.operands.Side.TheVariants.{In};
ghost use Rattle.cob_move_apply.specs.Applied.{done, ending};
ghost use Rattle.cob_move_apply.specs.Spent.{PlaceSpends, WriteSpends};
ghost use Rattle.cob_move_apply.specs.Surveyed.{IsWorkspace, records};
ghost use Rattle.cob_move_apply.specs.Made.{IsMadeReady};
ghost use Rattle.cob_move_apply.specs.Written.{HasPlaces};
ghost use Rattle.cob_move_steps.specs.Pool.{IsMoveStep, MoveKinds};
ghost use Rattle.cob_move_steps.specs.declared.pool.MoveStep.TheVariants.{Characters};

use crate::layouts::Layouts;
use crate::step::{MovePlaces, copy_across};
use crate::stop::{Stop, StopCause};
use crate::workspace::Workspace;
use cob_move_data::Side;
use cob_move_steps::{CharactersStep, MoveStep, MoveSteps};

/// Carries out a single move that was made ready. It is inlined, so that it costs no call.
///
/// # Errors
///
/// A value of the sender is missing. The storage is as it was then.
#[inline(always)]
pub(crate) fn make_prepared(
    prepared: &MoveSteps,
    places: &MovePlaces,
    step: MoveStep,
    layouts: &Layouts<'_>,
    input: &[u8],
    output: &mut [u8],
    space: &mut Workspace,
) -> Result<(), Stop>
    requires step { (k : MoveKinds) × IsMoveStep prepared.now k step × HasPlaces places.now k }
    requires reads { places.now.from.offset + places.now.from.length ≤ length input.now }
    requires writes { places.now.to.offset + places.now.to.length
        ≤ greatest_length layouts.now.output.now }
    requires output { length output.old ≡ greatest_length layouts.now.output.now }
    requires space { IsWorkspace (records layouts.now) input.now output.old space.old }
    ensures made { IsMadeReady In (record { places = places.now; step = step }) prepared.now
        input.now output.old (ending result output.new) }
    ensures space { IsWorkspace (records layouts.now) input.now output.new space.new }
    ensures spends { WriteSpends layouts.now.output.now output.old places.now.to result
        space.old.output space.new.output }
    ensures same { OnErr result ((output.new ≡ output.old) × (space.new ≡ space.old)) }
{
    let sent = places.from.offset as usize + places.from.length as usize;
    let start = places.to.offset as usize;
    let end = start + places.to.length as usize;
    if prepared.run(step, &input[..sent], &mut output[start..end]) {
        space.output.change_output(layouts, places.to);
        Ok(())
    } else {
        Err(Stop {
            side: Side::In,
            offset: places.from.offset,
            cause: StopCause::NoValue,
        })
    }
}

/// The step of characters that these places have. Its sender is said to have as many bytes as its place, so that the compiler finds the first of them at
/// once.
#[inline(always)]
fn step_between(step: CharactersStep, places: &MovePlaces) -> CharactersStep
    requires { step.sent ≡ places.now.from.length }
    ensures { result ≡ step }
{
    CharactersStep {
        sent: places.from.length as usize,
        right: step.right,
    }
}

/// Carries out a single move of characters that was made ready, which has no other outcome. It is inlined, so that it costs no call.
#[inline(always)]
pub(crate) fn make_characters(
    prepared: &MoveSteps,
    places: &MovePlaces,
    step: CharactersStep,
    layouts: &Layouts<'_>,
    input: &[u8],
    output: &mut [u8],
    space: &mut Workspace,
)
    requires step { (k : MoveKinds) × IsMoveStep prepared.now k (Characters step)
        × HasPlaces places.now k }
    requires reads { places.now.from.offset + places.now.from.length ≤ length input.now }
    requires writes { places.now.to.offset + places.now.to.length
        ≤ greatest_length layouts.now.output.now }
    requires output { length output.old ≡ greatest_length layouts.now.output.now }
    requires space { IsWorkspace (records layouts.now) input.now output.old space.old }
    ensures made { IsMadeReady In (record { places = places.now; step = Characters step })
        prepared.now input.now output.old (done output.new) }
    ensures space { IsWorkspace (records layouts.now) input.now output.new space.new }
    ensures spends { PlaceSpends layouts.now.output.now output.old places.now.to
        space.old.output space.new.output }
{
    let sent = places.from.offset as usize + places.from.length as usize;
    let start = places.to.offset as usize;
    let end = start + places.to.length as usize;
    let step = step_between(step, places);
    prepared.run_characters(step, &input[..sent], &mut output[start..end]);
    space.output.change_output(layouts, places.to);
}

/// Copies the bytes of the sender to the receiver, which has as many. It is inlined, so that it costs no call.
#[inline(always)]
fn make_copy(
    places: &MovePlaces,
    layouts: &Layouts<'_>,
    input: &[u8],
    output: &mut [u8],
    space: &mut Workspace,
)
    requires same { places.now.from.length ≡ places.now.to.length }
    requires reads { places.now.from.offset + places.now.from.length ≤ length input.now }
    requires writes { places.now.to.offset + places.now.to.length
        ≤ greatest_length layouts.now.output.now }
    requires output { length output.old ≡ greatest_length layouts.now.output.now }
    requires space { IsWorkspace (records layouts.now) input.now output.old space.old }
    ensures copied { output.new ≡ with_field output.old places.now.to
        (field_of places.now.from input.now) }
    ensures space { IsWorkspace (records layouts.now) input.now output.new space.new }
    ensures spends { PlaceSpends layouts.now.output.now output.old places.now.to
        space.old.output space.new.output }
{
    copy_across(*places, input, output);
    space.output.change_output(layouts, places.to);
}

/// Does what [`make_characters`] does. Where the receiver has as many bytes as the sender, these are copied at once.
#[inline(always)]
pub(crate) fn make_text(
    prepared: &MoveSteps,
    places: &MovePlaces,
    step: CharactersStep,
    layouts: &Layouts<'_>,
    input: &[u8],
    output: &mut [u8],
    space: &mut Workspace,
)
    requires step { (k : MoveKinds) × IsMoveStep prepared.now k (Characters step)
        × HasPlaces places.now k }
    requires reads { places.now.from.offset + places.now.from.length ≤ length input.now }
    requires writes { places.now.to.offset + places.now.to.length
        ≤ greatest_length layouts.now.output.now }
    requires output { length output.old ≡ greatest_length layouts.now.output.now }
    requires space { IsWorkspace (records layouts.now) input.now output.old space.old }
    ensures made { IsMadeReady In (record { places = places.now; step = Characters step })
        prepared.now input.now output.old (done output.new) }
    ensures space { IsWorkspace (records layouts.now) input.now output.new space.new }
    ensures spends { PlaceSpends layouts.now.output.now output.old places.now.to
        space.old.output space.new.output }
{
    if places.from.length == places.to.length {
        make_copy(places, layouts, input, output, space);
    } else {
        make_characters(prepared, places, step, layouts, input, output, space);
    }
}
