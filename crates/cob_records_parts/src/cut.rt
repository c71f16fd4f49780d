//! Pieces that are closed one behind another.

ghost use Rattle.std.specs.Prelude.{◌≡◌, ◌+◌, ◌++◌, ◌∷◌, [], ◌<◌, ◌≤◌, length, IfOk, IsTrue};
ghost use Rattle.cob_records_parts.specs.Reading.{ClosesPiece, EndsPieces, piece_to};

use crate::piece::{Piece, Start};
use std::alloc::AllocError;

/// Adds the piece that begins here and ends before so many bytes.
pub(crate) fn push_piece(pieces: &mut Vec<Piece>, start: Start, end: u64) -> Result<(), AllocError>
    requires { start.offset ≤ end }
    ensures added { IfOk result
        (λ _. pieces.new.items ≡ pieces.old.items ++ piece_to start end ∷ []) }
    ensures long { IfOk result (λ _. length pieces.new.items ≡ length pieces.old.items + 1) }
{
    pieces.push(Piece {
        offset: start.offset,
        bytes: end - start.offset,
        first: start.first,
    })?;
    Ok(())
}

/// Whether the open piece of a stream of this size has its share of what isn't in the pieces before it, where so many pieces may still come, itself
/// counted, and isn't the last of them.
fn has_share(start: Start, end: u64, size: u64, room: u64) -> bool
    requires { start.offset ≤ end }
    ensures some { IsTrue result → start.offset < end }
    ensures room { IsTrue result → 1 < room }
{
    if end == start.offset || room <= 1 {
        return false;
    }
    end - start.offset >= size.saturating_sub(start.offset) / room
}

/// Closes the open piece where no block is open and it has its share of a stream of this size, of which there may be so many, and answers where the
/// open piece begins then.
pub(crate) fn close_full(
    pieces: &mut Vec<Piece>,
    start: Start,
    here: Start,
    left: u16,
    size: u64,
    most: u64,
) -> Result<Start, AllocError>
    requires order { start.offset ≤ here.offset }
    requires few { length pieces.old.items < most }
    ensures closes { IfOk result (ClosesPiece left pieces.old.items start here pieces.new.items) }
    ensures few { IfOk result (λ _. length pieces.new.items < most) }
    ensures order { IfOk result (λ now. now.offset ≤ here.offset) }
{
    let room = most - pieces.len() as u64;
    if left != 0 || !has_share(start, here.offset, size, room) {
        return Ok(start);
    }
    push_piece(pieces, start, here.offset)?;
    Ok(here)
}

/// The pieces with the last one, which ends before so many bytes, where it isn't empty.
pub(crate) fn finish(
    mut pieces: Vec<Piece>,
    start: Start,
    end: u64,
) -> Result<Vec<Piece>, AllocError>
    requires { start.offset ≤ end }
    ensures last { IfOk result (λ all. EndsPieces pieces.items start end all.items) }
    ensures few { IfOk result (λ all. length all.items ≤ length pieces.items + 1) }
{
    if end > start.offset {
        push_piece(&mut pieces, start, end)?;
    }
    Ok(pieces)
}
