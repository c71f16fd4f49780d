//! Moves and choices carried out one behind another, up to the first loop: for them nothing is kept of bounds. From there on all go on with what bounds are known to
//! give.

ghost use Rattle.std.specs.Prelude.{◌≡◌, ◌≤◌, length, IfErr, IfOk};
ghost use Rattle.cob_layout.specs.Storage.{greatest_length, IsStorage};
ghost use Rattle.cob_move_deeds.specs.Carrying.{AreCarriedTo, HasKept, StopWithin, carried_from, records_of_sides};
ghost use Rattle.cob_move_deeds.specs.Flows.{branch_left};
ghost use Rattle.cob_move_deeds.specs.Deeds.{Carried};
ghost use Rattle.cob_move_deeds.specs.Met.{ReadsOfDeeds};
ghost use Rattle.cob_move_deeds.specs.Tests.{Judged};
ghost use Rattle.cob_move_apply.specs.Applied.{ending};
ghost use Rattle.cob_move_deeds.specs.Prepared.{AreDeedsPrepared, flow_support};

use crate::carrying::{carry_loops, condition_says, make_moves};
use crate::flow::Flow;
use crate::ready::ReadyDeeds;
use crate::row::{behind, behind_skip};
use crate::sides::Sides;
use cob_move_apply::{Scratch, Stop};

/// The flows that are left behind a condition which holds or doesn't: those in front, or those behind so many and a skip.
#[inline(always)]
fn branch_left(more: &[Flow], holding: usize, holds: bool) -> &[Flow]
    ensures value { result.now ≡ branch_left holds holding more.now }
    ensures fewer { length result.now ≤ length more.now }
{
    if holds {
        return more;
    }
    behind_skip(more, holding)
}

/// Carries out the flows in front, up to the first that belongs to a loop, and answers those that are left then. It is inlined, so that where no loop stands
/// among the flows none of it goes through memory.
///
/// # Errors
///
/// The first thing missing. The storage is as the moves before left it then.
#[inline(always)]
pub(crate) fn carry_choices<'a>(
    deeds: &'a ReadyDeeds,
    sides: &Sides<'_>,
    output: &mut [u8],
    scratch: &mut Scratch,
) -> Result<&'a [Flow], Stop>
    requires prepared { AreDeedsPrepared (records_of_sides sides.now) deeds.now }
    requires input { IsStorage sides.now.input_layout.now sides.now.input.now }
    requires output { length output.old ≡ greatest_length sides.now.output_layout.now }
    requires kept { HasKept (records_of_sides sides.now) sides.now.input.now output.old
        scratch.old }
    ensures carried { IfOk result (λ left. AreCarriedTo (records_of_sides sides.now)
        (flow_support deeds.now) deeds.now.flows.items left.now sides.now.input.now output.old
        output.new scratch.old scratch.new) }
    ensures stops { IfErr result (λ stop. StopWithin (records_of_sides sides.now)
        (flow_support deeds.now) deeds.now.flows.items sides.now.input.now output.old stop
        output.new scratch.old scratch.new) }
{
    let mut rest = deeds.flows.as_slice();
    while let Some((flow, more)) = rest.split_first() {
        match *flow {
            Flow::Moves(number) => {
                make_moves(deeds, number, number + 1, sides, output, scratch)?;
                rest = more;
            }
            Flow::Where {
                condition,
                holding,
                ..
            } => {
                let holds = condition_says(deeds, condition, sides, output, scratch)?;
                rest = branch_left(more, holding, holds);
            }
            Flow::Skip(count) => rest = behind(more, count),
            Flow::Turns(_) | Flow::Until { .. } => return Ok(rest),
        }
    }
    Ok(rest)
}

/// Carries out the flows of deeds in order. It isn't inlined, so that what it needs costs nothing where all moves are carried out at once.
///
/// # Errors
///
/// The first thing missing. The storage is as the moves before left it then.
#[inline(never)]
pub(crate) fn carry_out(
    deeds: &ReadyDeeds,
    sides: &Sides<'_>,
    output: &mut [u8],
    scratch: &mut Scratch,
) -> Result<(), Stop>
    requires prepared { AreDeedsPrepared (records_of_sides sides.now) deeds.now }
    requires input { IsStorage sides.now.input_layout.now sides.now.input.now }
    requires output { length output.old ≡ greatest_length sides.now.output_layout.now }
    requires kept { HasKept (records_of_sides sides.now) sides.now.input.now output.old
        scratch.old }
    ensures carried { Carried (Judged (records_of_sides sides.now)) (records_of_sides sides.now)
        (carried_from (records_of_sides sides.now) (flow_support deeds.now)
        (length deeds.now.flows.items) deeds.now.flows.items) sides.now.input.now output.old
        (ending result output.new) }
    ensures kept { HasKept (records_of_sides sides.now) sides.now.input.now output.new
        scratch.new }
    ensures reads { ReadsOfDeeds (records_of_sides sides.now)
        (carried_from (records_of_sides sides.now) (flow_support deeds.now)
        (length deeds.now.flows.items) deeds.now.flows.items) sides.now.input.now output.old result
        scratch.old scratch.new }
{
    let left = carry_choices(deeds, sides, output, scratch)?;
    if left.is_empty() {
        return Ok(());
    }
    carry_loops(deeds, left, sides, output, scratch)
}
