//! Steps that were made ready, carried out at once: an answer of yes or no is all that goes from one to the next, so that many of them go fast.
//!
//! A step that stops is carried out once more, as all others are (`application`), to say why.

ghost use Rattle.std.specs.Prelude.{◌≡◌, List, false, length, IsTrue};
ghost use Rattle.cob_codec.specs.Readings.{KeepsZones};
ghost use Rattle.cob_layout.specs.Sound.{IsSound};
ghost use Rattle.cob_layout.specs.Storage.{greatest_length, IsStorage};
ghost use Rattle.cob_move_data.specs.declared.operands.StatementMoves.{StatementMoves as Said};
ghost use Rattle.cob_move_data.specs.declared.operands.Side.TheVariants.{In};
ghost use Rattle.cob_move_data.specs.Moves.{Move as Meant};
ghost use Rattle.cob_move_apply.specs.Applied.{done};
ghost use Rattle.cob_move_apply.specs.Promised.{AnyEnd, AnyHaveSpent, PicturedEnds, PicturedHasSpent, PicturedMeans, PreparedMeans, StepEnds, StepHasSpent, StepMeans};
ghost use Rattle.cob_move_apply.specs.Spent.{IsSpent};
ghost use Rattle.cob_move_apply.specs.Surveyed.{IsWorkspace, records};
ghost use Rattle.cob_move_apply.specs.declared.step.Part.{Part as PartOf};

use crate::application::make_single;
use crate::constant::{make_constant, run_located_constant};
use crate::layouts::Layouts;
use crate::located_within::run_located_within;
use crate::pictured::run_pictured;
use crate::prepared::make_characters;
use crate::step::{MovePlaces, PicturedMove, Plan, PreparedMove, Step, copy_across};
use crate::within::{run_onwards, run_within};
use crate::workspace::Workspace;
use cob_codec::Reading;
use cob_move_steps::MoveStep;

/// Carries out a single move that was made ready. False where a value of the sender is missing: all is as it was then.
#[inline(always)]
fn run_single(
    plan: &Plan,
    places: &MovePlaces,
    step: MoveStep,
    layouts: &Layouts<'_>,
    input: &[u8],
    output: &mut [u8],
    space: &mut Workspace,
) -> bool
    requires keeps { KeepsZones layouts.now.reading }
    requires step { (own : List Meant) × PreparedMeans In plan.now places.now step layouts.now own }
    requires input { IsStorage layouts.now.input.now input.now }
    requires output { length output.old ≡ greatest_length layouts.now.output.now }
    requires space { IsWorkspace (records layouts.now) input.now output.old space.old }
    ensures applied { IsTrue result → AnyEnd (PreparedMeans In plan.now places.now step) layouts.now
        input.now output.old (done output.new) }
    ensures space { IsWorkspace (records layouts.now) input.now output.new space.new }
    ensures spends { IsTrue result → AnyHaveSpent (PreparedMeans In plan.now places.now step)
        layouts.now input.now output.old output.new space.old space.new }
    ensures same { result ≡ false → (output.new ≡ output.old) × (space.new ≡ space.old) }
{
    match make_single(plan, places, step, layouts, input, output, space) {
        Ok(()) => true,
        Err(_) => false,
    }
}

/// Carries out a single move that was made ready, as [`run_single`] does. It isn't inlined: moves of rarer kinds come here, and what carries out the others
/// stays short.
#[inline(never)]
fn run_one(
    plan: &Plan,
    one: &PreparedMove,
    layouts: &Layouts<'_>,
    input: &[u8],
    output: &mut [u8],
    space: &mut Workspace,
) -> bool
    requires keeps { KeepsZones layouts.now.reading }
    requires step { (own : List Meant) × PreparedMeans In plan.now one.now.places one.now.step
        layouts.now own }
    requires input { IsStorage layouts.now.input.now input.now }
    requires output { length output.old ≡ greatest_length layouts.now.output.now }
    requires space { IsWorkspace (records layouts.now) input.now output.old space.old }
    ensures applied { IsTrue result → AnyEnd (PreparedMeans In plan.now one.now.places one.now.step)
        layouts.now input.now output.old (done output.new) }
    ensures space { IsWorkspace (records layouts.now) input.now output.new space.new }
    ensures spends { IsTrue result → AnyHaveSpent (PreparedMeans In plan.now one.now.places
        one.now.step) layouts.now input.now output.old output.new space.old space.new }
    ensures same { result ≡ false → (output.new ≡ output.old) × (space.new ≡ space.old) }
{
    let places = &one.places;
    run_single(plan, places, one.step, layouts, input, output, space)
}

/// Carries out a single move that was made ready where senders are read as their pictures say. False where they are read otherwise, or a value of the
/// sender is missing: all is as it was then.
#[inline(always)]
fn run_part(
    plan: &Plan,
    one: PicturedMove,
    layouts: &Layouts<'_>,
    input: &[u8],
    output: &mut [u8],
    space: &mut Workspace,
) -> bool
    requires part { (given : List Said) × (part : PartOf) × (m : Meant)
        × PicturedMeans given plan.now one part layouts.now m }
    requires input { IsStorage layouts.now.input.now input.now }
    requires output { length output.old ≡ greatest_length layouts.now.output.now }
    requires space { IsWorkspace (records layouts.now) input.now output.old space.old }
    ensures moved { IsTrue result → PicturedEnds plan.now one layouts.now input.now output.old
        (done output.new) }
    ensures space { IsWorkspace (records layouts.now) input.now output.new space.new }
    ensures spends { IsTrue result → PicturedHasSpent plan.now one layouts.now input.now output.old
        output.new space.old space.new }
    ensures same { result ≡ false → (output.new ≡ output.old) × (space.new ≡ space.old) }
{
    match layouts.reading {
        Reading::Pictured => {
            match run_pictured(&plan.pictured, one, layouts, input, output, space) {
                Ok(()) => true,
                Err(_) => false,
            }
        }
        _ => false,
    }
}

/// Carries out a step that was made ready, but for a move between two places that are found as it is carried out. False where it is another one, or
/// where something is missing: the storage is as it was then. Whether a table of the output record varies is known from the type, so that a step of a
/// record without one asks nothing of kept counts.
#[inline(always)]
pub(crate) fn run_step<const VARIES: bool>(
    plan: &Plan,
    step: &Step,
    layouts: &Layouts<'_>,
    input: &[u8],
    output: &mut [u8],
    space: &mut Workspace,
) -> bool
    requires keeps { KeepsZones layouts.now.reading }
    requires varies { layouts.now.varies ≡ VARIES }
    requires out_sound { IsSound layouts.now.output.now }
    requires step { (given : List Said) × (own : List Meant)
        × StepMeans given plan.now step.now layouts.now own }
    requires input { IsStorage layouts.now.input.now input.now }
    requires output { length output.old ≡ greatest_length layouts.now.output.now }
    requires space { IsWorkspace (records layouts.now) input.now output.old space.old }
    ensures applied { IsTrue result → StepEnds plan.now step.now layouts.now input.now output.old
        (done output.new) }
    ensures space { IsWorkspace (records layouts.now) input.now output.new space.new }
    ensures spends { IsTrue result → StepHasSpent plan.now step.now layouts.now input.now output.old
        output.new space.old space.new }
    ensures same { result ≡ false → (output.new ≡ output.old)
        × IsSpent layouts.now.output.now 0 space.old.output space.new.output }
{
    // Only what is inlined is handed this: the compiler looks up anew what a call has seen.
    let told = Layouts {
        input: layouts.input,
        output: layouts.output,
        reading: layouts.reading,
        varies: VARIES,
    };
    match step {
        Step::Number(one) => {
            let step = MoveStep::Number(one.number);
            run_single(plan, &one.places, step, &told, input, output, space)
        }
        Step::Wide(one) => {
            let step = MoveStep::Wide(one.number);
            run_single(plan, &one.places, step, &told, input, output, space)
        }
        Step::AnyNumber(one) => {
            let step = MoveStep::AnyNumber(one.number);
            run_single(plan, &one.places, step, &told, input, output, space)
        }
        Step::Edited(one) => {
            let step = MoveStep::Edited(one.number);
            run_single(plan, &one.places, step, &told, input, output, space)
        }
        Step::Characters(one) => {
            let prepared = &plan.prepared;
            make_characters(prepared, &one.places, one.step, &told, input, output, space);
            true
        }
        Step::Prepared(one) => match one.step {
            MoveStep::Long(number) => {
                let step = MoveStep::Long(number);
                run_single(plan, &one.places, step, &told, input, output, space)
            }
            _ => run_one(plan, one, layouts, input, output, space),
        },
        Step::Pictured(one, _) => run_part(plan, *one, &told, input, output, space),
        Step::Constant(one) => {
            make_constant(plan, *one, &told, input, output, space);
            true
        }
        Step::Copy(places) => {
            copy_across(*places, input, output);
            true
        }
        Step::Part(_) => false,
        Step::Located(_) => false,
        Step::Within(one) => run_within(plan, one, layouts, input, output, space),
        Step::WithinNumber(one) => {
            let step = MoveStep::Number(one.number);
            run_onwards(plan, &one.places, step, &told, input, output, space)
        }
        Step::WithinEdited(one) => {
            let step = MoveStep::Edited(one.number);
            run_onwards(plan, &one.places, step, &told, input, output, space)
        }
        Step::LocatedWithin(number) => {
            run_located_within(plan, *number, layouts, input, output, space)
        }
        Step::LocatedConstant(number) => {
            run_located_constant(plan, *number, layouts, input, output, space)
        }
    }
}
