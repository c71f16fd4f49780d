//! Whether the move of an entry to an item stands as a statement.

ghost use Rattle.std.specs.Prelude.{◌≡◌, IfNone, IfOk, IfSome, IsTrue};
ghost use Rattle.cob_report_partners.specs.Verdicts.{AreLosses, JudgesBytes, JudgesKinds, JudgesLevel, JudgesLevels, JudgesPlaces, KeepsAll, MayStand, Objects, greatest_element, is_filled_count, is_open_count};

use crate::bounds::{DraftCounts, TableSize, is_among, is_moved, is_moved_from};
use crate::entries::DraftEntry;
use cob_back_losses::{JudgedSent, Losses, Unkept, description_lost, losses_of};
use cob_copybook_tree::{Kind, Node, element_length};
use cob_move_receive::{Refusal, SenderKind, refusal_of};
use std::alloc::{AllocError, Global};

/// What is against the move of an entry to an item.
#[derive(Clone, Copy, PartialEq, Eq)]
pub enum Objection {
    /// They stand in tables that aren't as many.
    Tables,
    /// No statement can name the count of a table that the sender stands in.
    Unnamed,
    /// Nothing is moved to the count of a table that the receiver stands in.
    Unmoved,
    /// What is moved to that count is not the count of the sender's table.
    Apart,
    /// The receiver is the count of a table that is not filled, or holds a count.
    Counts,
    /// There is no such move.
    Refused(Refusal),
    /// It may lose something.
    Loses(Losses),
    /// It copies bytes, and this byte of the item is not described as what it gets.
    Description(Unkept),
}

/// What the move of an entry of so many bytes to another one may lose, if it may lose something.
fn losses_between(from: &Kind, sent: u32, to: &Kind, room: u32) -> Option<Losses>
    ensures none { IfNone result (KeepsAll from.now sent to.now room) }
    ensures some { IfSome result (λ l. AreLosses from.now sent to.now room l) }
{
    let losses = losses_of(&SenderKind::Entry(from), sent, to, room);
    if losses.are_none() {
        return None;
    }
    Some(losses)
}

/// Why no loop over the elements of a table of the input record and of one of the output record may end, if none may.
fn objection_of_level(counts: DraftCounts<'_>, from: TableSize, to: TableSize) -> Option<Objection>
    ensures { JudgesLevel counts.entry from to result }
{
    match (from.count, to.count) {
        (None, None) => None,
        (Some(sent), None) if is_among(counts.named, sent) => None,
        (Some(_), None) => Some(Objection::Unnamed),
        (None, Some(count)) if is_moved(counts.moved, count) => None,
        (Some(sent), Some(count)) if is_moved_from(counts.moved, sent, count) => None,
        (Some(_), Some(count)) if is_moved(counts.moved, count) => Some(Objection::Apart),
        (None, Some(_)) => Some(Objection::Unmoved),
        (Some(_), Some(_)) => Some(Objection::Unmoved),
    }
}

/// Why no loop over some two of these tables may end, the outermost first, if none may.
fn objection_of_levels(
    counts: DraftCounts<'_>,
    from: &[TableSize],
    to: &[TableSize],
) -> Option<Objection>
    ensures { JudgesLevels counts.entry from.now to.now result }
{
    let Some((sent, inner)) = from.split_first() else {
        return None;
    };
    let Some((received, others)) = to.split_first() else {
        return None;
    };
    match objection_of_level(counts, *sent, *received) {
        Some(objection) => Some(objection),
        None => objection_of_levels(counts, inner, others),
    }
}

/// Whether an entry is the count of a table that is filled.
fn is_filled_count(counts: DraftCounts<'_>, entry: &DraftEntry<'_>) -> bool
    ensures { result ≡ is_filled_count counts.entry entry.now }
{
    !entry.entry.kind.is_group() && is_among(counts.filled, entry.entry.number)
}

/// Whether an entry is the count of a table that is not filled, or holds a count.
fn is_open_count(counts: DraftCounts<'_>, entry: &DraftEntry<'_>) -> bool
    ensures { result ≡ is_open_count counts.entry entry.now }
{
    entry.counts && !is_filled_count(counts, entry)
}

/// Whether an entry is a group that holds a count.
fn holds_count(counts: DraftCounts<'_>, entry: &DraftEntry<'_>) -> bool
    ensures { IsTrue result → IsTrue (is_open_count counts.entry entry.now) }
{
    entry.entry.kind.is_group() && is_open_count(counts, entry)
}

/// What is against the move of an entry to another one by where they stand.
fn objection_of_places(
    counts: DraftCounts<'_>,
    from: &DraftEntry<'_>,
    to: &DraftEntry<'_>,
) -> Option<Objection>
    ensures { JudgesPlaces counts.entry from.now to.now result }
{
    if from.tables.len() != to.tables.len() {
        return Some(Objection::Tables);
    }
    if let Some(objection) = objection_of_levels(
        counts,
        from.tables.as_slice(),
        to.tables.as_slice(),
    ) {
        return Some(objection);
    }
    if holds_count(counts, to) {
        return Some(Objection::Counts);
    }
    None
}

/// What is against the move of an entry to another one by what they describe, where their elements have so many bytes.
fn objection_of_kinds(
    from: &DraftEntry<'_>,
    sent: u32,
    to: &DraftEntry<'_>,
    room: u32,
) -> Option<Objection>
    ensures { JudgesKinds from.now sent to.now room result }
{
    if let Some(refusal) = refusal_of(&SenderKind::Entry(&from.entry.kind), &to.entry.kind) {
        return Some(Objection::Refused(refusal));
    }
    match losses_between(&from.entry.kind, sent, &to.entry.kind, room) {
        Some(losses) => Some(Objection::Loses(losses)),
        None => None,
    }
}

/// What is against the move of an entry to another one by their bytes, or since it is that of a count whose table is not filled.
fn objection_of_bytes(
    alloc: Global,
    counts: DraftCounts<'_>,
    from: &DraftEntry<'_>,
    to: &DraftEntry<'_>,
) -> Result<Option<Objection>, AllocError>
    ensures { IfOk result (λ objection. JudgesBytes counts.entry from.now to.now objection) }
{
    match description_lost(alloc, &JudgedSent::Entry(from.entry), to.entry)? {
        Some(unkept) => Ok(Some(Objection::Description(unkept))),
        None if is_open_count(counts, to) => Ok(Some(Objection::Counts)),
        None => Ok(None),
    }
}

/// What is against the move of an entry to another one: nothing exactly where the statement may stand. That its table is not filled is told of a count last.
///
/// # Errors
///
/// Where no memory is left.
pub fn objection_to(
    alloc: Global,
    counts: DraftCounts<'_>,
    from: &DraftEntry<'_>,
    to: &DraftEntry<'_>,
) -> Result<Option<Objection>, AllocError>
    ensures none { IfOk result (λ objection. IfNone objection
        (MayStand counts.entry from.now (greatest_element from.now.entry.now) to.now
        (greatest_element to.now.entry.now))) }
    ensures some { IfOk result (λ objection. IfSome objection
        (λ o. Objects counts.entry from.now (greatest_element from.now.entry.now) to.now
        (greatest_element to.now.entry.now) o)) }
{
    if let Some(objection) = objection_of_places(counts, from, to) {
        return Ok(Some(objection));
    }
    let (sent, room) = (greatest_element(from.entry), greatest_element(to.entry));
    if let Some(objection) = objection_of_kinds(from, sent, to, room) {
        return Ok(Some(objection));
    }
    objection_of_bytes(alloc, counts, from, to)
}

/// How long one element of an entry is at most.
fn greatest_element(entry: &Node) -> u32
    ensures { result ≡ greatest_element entry.now }
{
    element_length(entry)
}
