//! Single moves of constants that were made ready, carried out: to places that are the same in every storage, and wherever their receivers stand.

ghost use Rattle.std.specs.Prelude.{◌≡◌, ◌+◌, ◌≤◌, false, length, IsTrue, List, Err};
ghost use Rattle.cob_copybook_tree.specs.declared.node.Kind.{Kind};
ghost use Rattle.cob_copybook_entry.specs.Described.{PlainValue};
ghost use Rattle.cob_layout.specs.Sound.{IsSound};
ghost use Rattle.cob_layout.specs.Storage.{greatest_length};
ghost use Rattle.cob_move_data.specs.Moves.{Move as Meant};
ghost use Rattle.cob_move_apply.specs.Applied.{done, ending};
ghost use Rattle.cob_move_apply.specs.Made.{IsMadeConstant, ReceivesAt};
ghost use Rattle.cob_move_apply.specs.Promised.{AnyEnd, AnyHaveSpent, AnySpend, ConstantEnds, ConstantHasSpent, LocatedConstantMeans, WritesConstant};
ghost use Rattle.cob_move_apply.specs.Spent.{IsSpent, PlaceSpends};
ghost use Rattle.cob_move_apply.specs.Steps.{IsConstantAt};
ghost use Rattle.cob_move_apply.specs.Surveyed.{IsWorkspace, records};

use crate::basis::placed_operand;
use crate::layouts::Layouts;
use crate::places::{Stored, locate, locate_if_there};
use crate::step::{ConstantMove, LocatedConstant, Plan};
use crate::stop::Stop;
use crate::workspace::Workspace;
use cob_layout::Place;
use cob_move_data::Side;

/// Carries out the single move of a constant that was made ready. It is inlined, so that it costs no call.
#[inline(always)]
pub(crate) fn make_constant(
    plan: &Plan,
    one: ConstantMove,
    layouts: &Layouts<'_>,
    input: &[u8],
    output: &mut [u8],
    space: &mut Workspace,
)
    requires step { (constant : PlainValue) × (to : Kind)
        × IsConstantAt plan.now.constants.items one constant to }
    requires writes { one.to.offset + one.to.length ≤ greatest_length layouts.now.output.now }
    requires output { length output.old ≡ greatest_length layouts.now.output.now }
    requires space { IsWorkspace (records layouts.now) input.now output.old space.old }
    ensures made { IsMadeConstant one plan.now.constants.items output.old output.new }
    ensures space { IsWorkspace (records layouts.now) input.now output.new space.new }
    ensures spends { PlaceSpends layouts.now.output.now output.old one.to space.old.output
        space.new.output }
{
    let start = one.to.offset as usize;
    let end = start + one.to.length as usize;
    plan.constants[one.number].run(&mut output[start..end]);
    space.output.change_output(layouts, one.to);
}

/// Writes a constant that was made ready wherever its receiver stands to the place where this stands.
#[inline(always)]
fn make_there(
    plan: &Plan,
    one: &LocatedConstant,
    to: Place,
    layouts: &Layouts<'_>,
    input: &[u8],
    output: &mut [u8],
    space: &mut Workspace,
)
    requires writes { (constant : PlainValue) × WritesConstant plan.now one.now layouts.now
        constant }
    requires stand { ReceivesAt (records layouts.now) one.now output.old to }
    requires output { length output.old ≡ greatest_length layouts.now.output.now }
    requires space { IsWorkspace (records layouts.now) input.now output.old space.old }
    ensures moved { ConstantEnds plan.now one.now layouts.now input.now output.old
        (done output.new) }
    ensures space { IsWorkspace (records layouts.now) input.now output.new space.new }
    ensures spends { ConstantHasSpent plan.now one.now layouts.now input.now output.old output.new
        space.old space.new }
{
    let number = one.number;
    let there = ConstantMove { to, number };
    make_constant(plan, there, layouts, input, output, space);
}

/// Carries out the single move of a constant with this number at once, where its receiver stands. False where it stands nowhere: the storage is as it was
/// then. It isn't inlined, so that steps whose places are known stay short.
#[inline(never)]
pub(crate) fn run_located_constant(
    plan: &Plan,
    number: usize,
    layouts: &Layouts<'_>,
    input: &[u8],
    output: &mut [u8],
    space: &mut Workspace,
) -> bool
    requires sound { IsSound layouts.now.output.now }
    requires step { (own : List Meant) × LocatedConstantMeans plan.now number layouts.now own }
    requires output { length output.old ≡ greatest_length layouts.now.output.now }
    requires space { IsWorkspace (records layouts.now) input.now output.old space.old }
    ensures applied { IsTrue result → AnyEnd (LocatedConstantMeans plan.now number) layouts.now
        input.now output.old (done output.new) }
    ensures space { IsWorkspace (records layouts.now) input.now output.new space.new }
    ensures spends { IsTrue result → AnyHaveSpent (LocatedConstantMeans plan.now number) layouts.now
        input.now output.old output.new space.old space.new }
    ensures same { result ≡ false → (output.new ≡ output.old)
        × IsSpent layouts.now.output.now 0 space.old.output space.new.output }
{
    let one = &plan.located_constants[number];
    let receiving = Stored {
        side: Side::Out,
        layout: layouts.output,
        bytes: &*output,
    };
    let receiver = placed_operand(layouts.output, &one.receiver, &one.to);
    let Some(to) = locate_if_there(&receiving, &receiver, true, &mut space.output) else {
        return false;
    };
    make_there(plan, one, to, layouts, input, output, space);
    true
}

/// Carries out the single move of a constant with this number, where its receiver stands: it says why a move stops that [`run_located_constant`] doesn't
/// carry out.
///
/// # Errors
///
/// The place of the receiver is missing. The storage is as it was then.
#[inline(never)]
pub(crate) fn make_located_constant(
    plan: &Plan,
    number: usize,
    layouts: &Layouts<'_>,
    input: &[u8],
    output: &mut [u8],
    space: &mut Workspace,
) -> Result<(), Stop>
    requires sound { IsSound layouts.now.output.now }
    requires step { (own : List Meant) × LocatedConstantMeans plan.now number layouts.now own }
    requires output { length output.old ≡ greatest_length layouts.now.output.now }
    requires space { IsWorkspace (records layouts.now) input.now output.old space.old }
    ensures applied { AnyEnd (LocatedConstantMeans plan.now number) layouts.now input.now output.old
        (ending result output.new) }
    ensures space { IsWorkspace (records layouts.now) input.now output.new space.new }
    ensures spends { AnySpend (LocatedConstantMeans plan.now number) layouts.now input.now
        output.old result output.new space.old space.new }
{
    let one = &plan.located_constants[number];
    let receiving = Stored {
        side: Side::Out,
        layout: layouts.output,
        bytes: &*output,
    };
    let receiver = placed_operand(layouts.output, &one.receiver, &one.to);
    match locate(&receiving, &receiver, true, &mut space.output) {
        Ok(to) => {
            make_there(plan, one, to, layouts, input, output, space);
            Ok(())
        }
        Err(stop) => Err(stop),
    }
}
