//! Plans of moves that are parted by marks.

ghost use Rattle.std.specs.Prelude.{◌≡◌, ◌≤◌, ◌++◌, [], ◌∷◌, length, map, IfOk, OnOk};
ghost use Rattle.cob_move_data.specs.Moves.{AreMoves, moves};
ghost use Rattle.cob_move_apply.specs.Marked.{RiseUpTo, ArePartedBy, CountsSome, PlanGrows, StandForSome, last_mark, statement_of};
ghost use Rattle.cob_move_apply.specs.Planned.{AreBetween, records_between};
ghost use Rattle.cob_move_apply.specs.Steps.{support_of};

use crate::planning::{Between, empty_plan, neither_varies, push_statement};
use crate::step::{Plan, Step};
use cob_layout::Layout;
use cob_move_data::StatementMoves;
use std::alloc::{AllocError, Global};
use std::mem::swap;

/// Where statements are parted, and the steps for their moves.
#[derive(Clone, Copy)]
pub(crate) struct Mark {
    /// So many statements stand before it.
    pub(crate) statement: usize,
    /// So many steps do.
    pub(crate) step: usize,
}

/// A plan with the marks that part its steps.
#[derive(Drop)]
pub(crate) struct MarkedPlan {
    pub(crate) plan: Plan,
    pub(crate) marks: Vec<Mark>,
}

/// Puts the steps for the moves of the statements from one number up to another into a plan that has none.
///
/// # Errors
///
/// Where no memory is left.
fn push_some(
    given: &[StatementMoves],
    from: usize,
    to: usize,
    both: &Between<'_>,
    plan: &mut Plan,
) -> Result<(), AllocError>
    requires both { AreBetween both.now }
    requires given { AreMoves (records_between both.now) (moves (records_between both.now) given.now) }
    requires rises { from ≤ to }
    requires within { to ≤ length given.now }
    requires none { plan.old.steps.items ≡ [] }
    ensures grows { OnOk result (PlanGrows plan.old plan.new) }
    ensures stand { OnOk result (StandForSome both.now given.now from to plan.new) }
    ensures count { OnOk result (CountsSome both.now given.now from to plan.new) }
{
    for number in from..to {
        push_statement(given, number, both, plan)?;
    }
    Ok(())
}

/// Puts these steps behind those so far, and leaves none of them. Where there are none so far they stay where they are in memory, so that the steps of a
/// paragraph without tests, which one mark ends, stand there once.
///
/// # Errors
///
/// Where no memory is left.
fn take_steps(steps: &mut Vec<Step>, added: &mut Vec<Step>) -> Result<(), AllocError>
    ensures taken { OnOk result (steps.new.items ≡ steps.old.items ++ added.old.items) }
    ensures none { OnOk result (added.new.items ≡ []) }
{
    if steps.is_empty() {
        swap(steps, added);
        return Ok(());
    }
    steps.append(added)?;
    Ok(())
}

/// Puts the steps for the moves of the statements behind the last mark, up to a number, behind those so far, and a mark behind them. The plan has none of
/// the steps itself, so that no copy is joined over a mark.
///
/// # Errors
///
/// Where no memory is left.
fn push_marked(
    given: &[StatementMoves],
    begin: usize,
    end: usize,
    both: &Between<'_>,
    plan: &mut Plan,
    steps: &mut Vec<Step>,
    marks: &mut Vec<Mark>,
) -> Result<(), AllocError>
    requires both { AreBetween both.now }
    requires given { AreMoves (records_between both.now) (moves (records_between both.now) given.now) }
    requires begin { (last_mark marks.old.items).statement ≡ begin }
    requires rises { begin ≤ end }
    requires within { end ≤ length given.now }
    requires none { plan.old.steps.items ≡ [] }
    requires parted { ArePartedBy (records_between both.now) given.now (support_of plan.old)
        steps.old.items marks.old.items }
    ensures none { OnOk result (plan.new.steps.items ≡ []) }
    ensures parted { OnOk result (ArePartedBy (records_between both.now) given.now
        (support_of plan.new) steps.new.items marks.new.items) }
    ensures end { OnOk result ((last_mark marks.new.items).statement ≡ end) }
    ensures ends { OnOk result (map statement_of marks.new.items
        ≡ map statement_of marks.old.items ++ end ∷ []) }
{
    push_some(given, begin, end, both, plan)?;
    take_steps(steps, &mut plan.steps)?;
    let mark = Mark {
        statement: end,
        step: steps.len(),
    };
    marks.push(mark)?;
    Ok(())
}

/// The plan of moves between the records of these layouts, with a mark before all of them, and one behind each of these numbers of statements.
///
/// # Errors
///
/// Where no memory is left.
pub(crate) fn marked_plan(
    alloc: Global,
    given: &[StatementMoves],
    ends: &[usize],
    input: &Layout,
    output: &Layout,
) -> Result<MarkedPlan, AllocError>
    requires given { AreMoves (record { input = input.now; output = output.now })
        (moves (record { input = input.now; output = output.now }) given.now) }
    requires ends { RiseUpTo 0 (length given.now) ends.now }
    ensures parted { IfOk result (λ m. ArePartedBy (record { input = input.now; output = output.now })
        given.now (support_of m.plan) m.plan.steps.items m.marks.items) }
    ensures whole { IfOk result (λ m. (last_mark m.marks.items).statement ≡ length given.now) }
    ensures ends { IfOk result (λ m. map statement_of m.marks.items ≡ 0 ∷ ends.now) }
{
    let both = Between {
        input,
        output,
        is_fixed: neither_varies(alloc, input, output)?,
        alloc,
    };
    let mut plan = empty_plan(alloc);
    let mut steps = Vec::with_capacity(alloc, given.len())?;
    let mut marks = Vec::with_capacity(alloc, ends.len())?;
    marks.push(Mark {
        statement: 0,
        step: 0,
    })?;
    let mut begin = 0;
    for end in ends {
        push_marked(given, begin, *end, &both, &mut plan, &mut steps, &mut marks)?;
        begin = *end;
    }
    plan.steps = steps;
    Ok(MarkedPlan { plan, marks })
}
