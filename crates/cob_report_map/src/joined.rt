//! What the single moves of statements join.

ghost use Rattle.std.specs.Prelude.{◌≡◌, IfOk};
ghost use Rattle.cob_move_data.specs.Singles.{plain_sent, plain_single};
ghost use Rattle.cob_report_map.specs.Joined.{ends_in, sent_origin, side_origin, single_ends};

use cob_back_losses::Unkept;
use cob_move_data::{Sent, Side, SingleMove, Singles, StatementMoves};
use cob_report_html::{JoinedEnds, Origin};
use indexmap::IndexMap;
use std::alloc::{AllocError, Global};

/// The entry with this number of a record.
fn side_origin(side: Side, number: usize) -> Origin
    ensures { result ≡ side_origin side number }
{
    match side {
        Side::In => Origin::Input(number),
        Side::Out => Origin::Output(number),
    }
}

/// What is sent in the statement with this place.
fn sent_origin(sent: Sent<'_>, statement: usize) -> Origin
    ensures { result ≡ sent_origin statement (plain_sent sent.entry) }
{
    match sent {
        Sent::Entry { side, entry } => side_origin(side, entry.number),
        Sent::Constant(_) => Origin::Constant(statement),
    }
}

/// What a single move joins.
fn single_ends(single: SingleMove<'_>) -> JoinedEnds
    ensures { result ≡ single_ends (plain_single single.entry) }
{
    JoinedEnds {
        from: sent_origin(single.sent, single.statement),
        to: single.receiver.number,
    }
}

/// What each single move of statements joins, in their order.
///
/// # Errors
///
/// Where no memory is left.
pub fn ends_of(alloc: Global, statements: &[StatementMoves]) -> Result<Vec<JoinedEnds>, AllocError>
    ensures { IfOk result (λ ends. ends.items ≡ ends_in statements.now) }
{
    let mut ends = Vec::new(alloc);
    for single in Singles::new(statements) {
        ends.push(single_ends(single))?;
    }
    Ok(ends)
}

/// Of each single move, of which it is said what it joins and by which byte it may lose its description, whether one that joins the same may.
///
/// # Errors
///
/// Where no memory is left.
pub(crate) fn marked_ends(
    alloc: Global,
    ends: &[JoinedEnds],
    descriptions: &[Option<Unkept>],
) -> Result<Vec<bool>, AllocError> {
    let mut lost = IndexMap::new(alloc);
    for (ends, unkept) in ends.iter().zip(descriptions.iter()) {
        if unkept.is_some() {
            lost.insert(*ends, true)?;
        }
    }
    let mut marks = Vec::new(alloc);
    for ends in ends {
        marks.push(lost.get(ends).is_some())?;
    }
    Ok(marks)
}

/// Of each single move of statements, of which it is said what it joins and of which statements it is whether a test stands before them, whether one stands
/// before all that join the same.
///
/// # Errors
///
/// Where no memory is left.
pub(crate) fn tested_ends(
    alloc: Global,
    statements: &[StatementMoves],
    ends: &[JoinedEnds],
    tested: &[bool],
) -> Result<Vec<bool>, AllocError> {
    let mut always = IndexMap::new(alloc);
    let mut rest = ends;
    for single in Singles::new(statements) {
        if let Some((own, more)) = rest.split_first() {
            if !matches!(tested.get(single.statement), Some(true)) {
                always.insert(*own, true)?;
            }
            rest = more;
        }
    }
    let mut marks = Vec::new(alloc);
    for ends in ends {
        marks.push(always.get(ends).is_none())?;
    }
    Ok(marks)
}
