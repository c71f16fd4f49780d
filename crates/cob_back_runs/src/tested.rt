//! The moves that no test stands before, and of each statement whether one does.

ghost use Rattle.std.specs.Prelude.{◌≡◌, ◌+◌, ◌++◌, ◌<◌, ◌≤◌, drop, false, get_or, length, map, replicate, take, true, IfOk, OnOk, Some};
ghost use Rattle.std.specs.List.{AllByRecursion, flat_map};
ghost use Rattle.cob_back_moves.specs.Tested.{layout_records};
ghost use Rattle.cob_back_runs.specs.Tested.{AreBetween, flow_marks, flow_moves, move_count, moves_counted, moves_told, passed_of, statement_marks, stretches_of, tested_moves, untested_moves};
ghost use Rattle.cob_move_apply.specs.Marked.{moves_between_marks};
ghost use Rattle.cob_move_data.specs.Moves.{Records};
ghost use Rattle.cob_move_deeds.specs.Deeds.{moves_of_deeds};
ghost use Rattle.cob_move_deeds.specs.Flows.{IsFlow, IsLoop, loop_done};
ghost use Rattle.cob_move_deeds.specs.Prepared.{AreDeedsPrepared, flow_support};

use cob_back_moves::{BothLayouts, MovesBetween};
use cob_convert_record::Conversion;
use cob_move_data::StatementMoves;
use cob_move_deeds::{CountedLoop, Flow, ReadyDeeds};
use std::alloc::{AllocError, Global};

/// How many flows stand under the test that a flow is, of those behind it.
fn passed_over(flow: &Flow, rest: &[Flow]) -> usize
    ensures within { result ≤ length rest.now }
    ensures inside { take result rest.now ≡ take (passed_of flow.now) rest.now }
    ensures behind { drop result rest.now ≡ drop (passed_of flow.now) rest.now }
{
    match *flow {
        Flow::Until { skip, .. } => skip.min(rest.len()),
        Flow::Where {
            holding,
            lacking,
            ..
        } => holding
            .saturating_add(1)
            .saturating_add(lacking)
            .min(rest.len()),
        Flow::Moves(_) | Flow::Turns(_) | Flow::Skip(_) => 0,
    }
}

/// The moves of deeds between the mark with this number and the next one.
fn stretch<'a>(layouts: &BothLayouts<'a>, deeds: &'a ReadyDeeds, number: usize) -> MovesBetween<'a>
    requires prepared { (r : Records) × AreDeedsPrepared r deeds.now }
    requires within { number + 1 < length deeds.now.moves.marks.items }
    requires reading { layouts.now.reading ≡ deeds.now.moves.moves.reading }
    ensures layouts { result.layouts ≡ layouts.now }
    ensures moves { moves_told result
        ≡ moves_between_marks (layout_records layouts.now) deeds.now.moves number (number + 1) }
{
    MovesBetween {
        layouts: *layouts,
        statements: deeds.statements_between(number, number + 1),
    }
}

/// Adds the stretch that a flow is, if it is one.
fn push_stretch<'a>(
    layouts: &BothLayouts<'a>,
    deeds: &'a ReadyDeeds,
    flow: &Flow,
    stretches: &mut Vec<MovesBetween<'a>>,
) -> Result<(), AllocError>
    requires prepared { (r : Records) × AreDeedsPrepared r deeds.now }
    requires flow { IsFlow (flow_support deeds.now) flow.now }
    requires reading { layouts.now.reading ≡ deeds.now.moves.moves.reading }
    requires records { AllByRecursion (AreBetween (layout_records layouts.now)) stretches.old.items }
    ensures moves { OnOk result (map moves_told stretches.new.items
        ≡ map moves_told stretches.old.items
        ++ stretches_of (layout_records layouts.now) (flow_support deeds.now) flow.now) }
    ensures records { OnOk result
        (AllByRecursion (AreBetween (layout_records layouts.now)) stretches.new.items) }
{
    if let Flow::Moves(number) = *flow {
        stretches.push(stretch(layouts, deeds, number))?;
    }
    Ok(())
}

/// The moves of a conversion that are carried out whatever tests say: of each stretch of them that no test stands before, those between two marks. What
/// stands behind a loop is such a stretch again.
///
/// # Errors
///
/// Where no memory is left.
pub fn untested(alloc: Global, conversion: &Conversion) -> Result<Vec<MovesBetween<'_>>, AllocError>
    ensures records { IfOk result (λ stretches.
        AllByRecursion (AreBetween conversion.now.records) stretches.items) }
    ensures moves { IfOk result (λ stretches.
        map moves_told stretches.items ≡ untested_moves conversion.now.deeds) }
{
    let (input, output) = conversion.layouts();
    let deeds = conversion.deeds();
    let layouts = BothLayouts {
        input,
        output,
        reading: deeds.reading(),
    };
    let mut stretches = Vec::new(alloc);
    let mut rest = deeds.flows();
    while let Some((flow, more)) = rest.split_first() {
        push_stretch(&layouts, deeds, flow, &mut stretches)?;
        let (_, behind) = more.split_at(passed_over(flow, more));
        rest = behind;
    }
    Ok(stretches)
}

/// How many moves a statement makes.
fn moves_made(statement: &StatementMoves) -> usize
    ensures { result ≡ move_count statement.now }
{
    match statement {
        StatementMoves::Single(_) => 1,
        StatementMoves::Pairs(group) => group.pairs.len(),
    }
}

/// Adds as many marks.
fn push_marks(count: usize, mark: bool, marks: &mut Vec<bool>) -> Result<(), AllocError>
    ensures { OnOk result (marks.new.items ≡ marks.old.items ++ replicate count mark) }
{
    for _ in 0..count {
        marks.push(mark)?;
    }
    Ok(())
}

/// Adds a mark for each move of these statements.
fn push_for_moves(
    statements: &[StatementMoves],
    mark: bool,
    marks: &mut Vec<bool>,
) -> Result<(), AllocError>
    ensures { OnOk result (marks.new.items
        ≡ marks.old.items ++ replicate (moves_counted statements.now) mark) }
{
    let mut rest = statements;
    while let Some((statement, more)) = rest.split_first() {
        push_marks(moves_made(statement), mark, marks)?;
        rest = more;
    }
    Ok(())
}

/// Adds marks for the moves between the mark with this number and the next one.
fn push_for_stretch(
    deeds: &ReadyDeeds,
    number: usize,
    mark: bool,
    marks: &mut Vec<bool>,
) -> Result<(), AllocError>
    requires prepared { (r : Records) × AreDeedsPrepared r deeds.now }
    requires within { number + 1 < length deeds.now.moves.marks.items }
    ensures { (r : Records) → OnOk result (marks.new.items ≡ marks.old.items
        ++ replicate (length (moves_between_marks r deeds.now.moves number (number + 1))) mark) }
{
    push_for_moves(deeds.statements_between(number, number + 1), mark, marks)
}

/// Adds marks for the moves of the turns of a loop: a test stands before each.
fn push_for_turns(
    deeds: &ReadyDeeds,
    turned: &CountedLoop,
    marks: &mut Vec<bool>,
) -> Result<(), AllocError>
    requires prepared { (r : Records) × AreDeedsPrepared r deeds.now }
    requires turned { IsLoop (flow_support deeds.now) turned.now }
    ensures { (r : Records) → AreDeedsPrepared r deeds.now → OnOk result (marks.new.items
        ≡ marks.old.items ++ replicate (length (moves_of_deeds
        (loop_done r (flow_support deeds.now) (Some turned.now)))) true) }
{
    let end = turned.first + turned.turns;
    push_for_moves(deeds.statements_between(turned.first, end), true, marks)
}

/// Adds marks for the moves that a flow may carry out.
fn push_for_flow(
    deeds: &ReadyDeeds,
    flow: &Flow,
    mark: bool,
    marks: &mut Vec<bool>,
) -> Result<(), AllocError>
    requires prepared { (r : Records) × AreDeedsPrepared r deeds.now }
    requires flow { IsFlow (flow_support deeds.now) flow.now }
    ensures { (r : Records) → AreDeedsPrepared r deeds.now → OnOk result (marks.new.items
        ≡ marks.old.items ++ flow_marks r (flow_support deeds.now) mark flow.now) }
{
    match *flow {
        Flow::Moves(number) => push_for_stretch(deeds, number, mark, marks),
        Flow::Turns(number) => push_for_turns(deeds, &deeds.loops()[number], marks),
        Flow::Until { .. } | Flow::Where { .. } | Flow::Skip(_) => Ok(()),
    }
}

/// Adds marks for the moves of flows that a test may pass over.
fn push_for_flows(
    deeds: &ReadyDeeds,
    flows: &[Flow],
    marks: &mut Vec<bool>,
) -> Result<(), AllocError>
    requires prepared { (r : Records) × AreDeedsPrepared r deeds.now }
    requires flows { AllByRecursion (IsFlow (flow_support deeds.now)) flows.now }
    ensures { (r : Records) → AreDeedsPrepared r deeds.now → OnOk result (marks.new.items
        ≡ marks.old.items
        ++ replicate (length (flat_map (flow_moves r (flow_support deeds.now)) flows.now)) true) }
{
    let mut rest = flows;
    while let Some((flow, more)) = rest.split_first() {
        push_for_flow(deeds, flow, true, marks)?;
        rest = more;
    }
    Ok(())
}

/// Of each move of a conversion, whether a test stands before it.
fn move_marks(alloc: Global, conversion: &Conversion) -> Result<Vec<bool>, AllocError>
    ensures { IfOk result (λ marks. marks.items ≡ tested_moves false conversion.now.deeds) }
{
    let deeds = conversion.deeds();
    let mut marks = Vec::new(alloc);
    let mut rest = deeds.flows();
    while let Some((flow, more)) = rest.split_first() {
        let (inside, behind) = more.split_at(passed_over(flow, more));
        push_for_flow(deeds, flow, false, &mut marks)?;
        push_for_flows(deeds, inside, &mut marks)?;
        rest = behind;
    }
    Ok(marks)
}

/// Whether the first of these marks is set.
fn is_first_set(marks: &[bool]) -> bool
    ensures { result ≡ get_or marks.now 0 false }
{
    match marks.split_first() {
        Some((first, _)) => *first,
        None => false,
    }
}

/// Of each statement the mark of its first move.
fn first_marks(
    alloc: Global,
    statements: &[StatementMoves],
    marks: &[bool],
) -> Result<Vec<bool>, AllocError>
    ensures { IfOk result (λ firsts. firsts.items ≡ statement_marks marks.now statements.now) }
{
    let mut firsts = Vec::with_capacity(alloc, statements.len())?;
    let mut left = statements;
    let mut rest = marks;
    while let Some((statement, more)) = left.split_first() {
        let (own, others) = rest.split_at(moves_made(statement).min(rest.len()));
        firsts.push(is_first_set(own))?;
        left = more;
        rest = others;
    }
    Ok(firsts)
}

/// Of each of the statements that make the moves of a conversion, whether a test stands before its first move.
///
/// # Errors
///
/// Where no memory is left.
pub fn tested_statements(
    alloc: Global,
    conversion: &Conversion,
    statements: &[StatementMoves],
) -> Result<Vec<bool>, AllocError>
    ensures { IfOk result (λ marks. marks.items
        ≡ statement_marks (tested_moves false conversion.now.deeds) statements.now) }
{
    let marks = move_marks(alloc, conversion)?;
    first_marks(alloc, statements, marks.as_slice())
}
