//! What single moves may lose.

ghost use Rattle.std.specs.Prelude.{IfNone, IfOk, IfSome};
ghost use Rattle.cob_move_data.specs.Moves.{record_of};
ghost use Rattle.cob_move_data.specs.Singles.{plain_single};
ghost use Rattle.cob_back_moves.specs.Tested.{layout_records};
ghost use Rattle.cob_move_receive.specs.Table.{sender_kind};
ghost use Rattle.cob_report_cover.specs.Losing.{AreAllLosses, AreLossesOf, AreLossesOfEntry, AreLossesTo, HasNoEntry, StandsAs};

use cob_back_losses::{Losses, losses_of};
use cob_back_moves::{BothLayouts, MovesBetween};
use cob_copybook_tree::Kind;
use cob_layout::Layout;
use cob_move_data::{Sent, Side, SingleMove, Singles};
use cob_move_receive::SenderKind;
use std::alloc::{AllocError, Global};

/// What an entry describes, and how many bytes its first element has where each table has its greatest number of elements.
#[derive(Clone, Copy)]
pub(crate) struct Measured<'a> {
    kind: &'a Kind,
    bytes: u32,
}

/// The entry with this number of a record, measured.
fn entry_at(layout: &Layout, number: usize) -> Option<Measured<'_>>
    ensures some { IfSome result (λ m. StandsAs layout.now number m.kind.now m.bytes) }
    ensures none { IfNone result (HasNoEntry layout.now number) }
{
    match layout.greatest_spots().get(number) {
        Some(spot) => Some(Measured {
            kind: layout.kind(number),
            bytes: spot.length,
        }),
        None => None,
    }
}

/// Nothing that may be lost.
fn no_losses() -> Losses {
    Losses {
        before: false,
        behind: false,
        characters: false,
        sign: false,
    }
}

/// What the move of a sender of so many bytes to the entry with this number of the output record may lose; nothing where there is no such entry.
fn losses_to(from: &SenderKind<'_>, bytes: u32, output: &Layout, number: usize) -> Losses
    ensures { AreLossesTo (sender_kind from.now) bytes output.now number result }
{
    match entry_at(output, number) {
        Some(receiver) => losses_of(from, bytes, receiver.kind, receiver.bytes),
        None => no_losses(),
    }
}

/// What the move of an entry of this side may lose to one of the output record, both by their numbers; nothing where there is no such entry.
fn entry_losses(layouts: &BothLayouts<'_>, side: Side, from: usize, to: usize) -> Losses
    ensures { AreLossesOfEntry (record_of (layout_records layouts.now) side) from
        layouts.now.output.now to result }
{
    match entry_at(layouts.of(side), from) {
        Some(sender) => losses_to(
            &SenderKind::Entry(sender.kind),
            sender.bytes,
            layouts.output,
            to,
        ),
        None => no_losses(),
    }
}

/// What a single move may lose.
fn single_losses(layouts: &BothLayouts<'_>, single: &SingleMove<'_>) -> Losses
    ensures { AreLossesOf layouts.now (plain_single single.now) result }
{
    let to = single.receiver.number;
    match single.sent {
        Sent::Entry { side, entry } => entry_losses(layouts, side, entry.number, to),
        Sent::Constant(value) => losses_to(&SenderKind::Constant(value), 0, layouts.output, to),
    }
}

/// What each single move may lose, in their order.
///
/// # Errors
///
/// Where no memory is left.
pub fn losses_in(alloc: Global, moves: &MovesBetween<'_>) -> Result<Vec<Losses>, AllocError>
    ensures { IfOk result (λ losses.
        AreAllLosses moves.now.layouts moves.now.statements.now losses.items) }
{
    let mut losses = Vec::new(alloc);
    for single in Singles::new(moves.statements) {
        losses.push(single_losses(&moves.layouts, &single))?;
    }
    Ok(losses)
}
