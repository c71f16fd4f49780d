//! Entries that moves leave as they are.

ghost use Rattle.std.specs.Prelude.{◌≡◌, ◌+◌, ◌<◌, ◌≤◌, length, IfSome, IsTrue, Some};
ghost use Rattle.cob_codec.specs.declared.reading.Reading.{Reading as Read};
ghost use Rattle.cob_move_apply.specs.declared.basis.Basis.TheVariants.{Noted};
ghost use Rattle.cob_move_apply.specs.declared.basis.NotedPlace.{NotedPlace as Stand};
ghost use Rattle.cob_move_apply.specs.Spared.{AllBeginFrom, NoneBefore, SpareEntry};
ghost use Rattle.cob_move_data.specs.Moves.{AreMoves, Records, moves_by};

use crate::basis::Basis;
use crate::marked::MarkedMoves;
use crate::placed::PlacedEntry;
use cob_layout::Layout;
use cob_move_data::{Side, Singles, StatementMoves};

/// Whether no element of the entry with this number begins before this byte, whatever the counts.
fn begins_from(layout: &Layout, byte: u32, number: usize) -> bool
    ensures { IsTrue result → NoneBefore layout.now byte number }
{
    byte <= layout.least_offset(number)
}

/// Whether each receiver of the moves of statements begins at this byte or behind it, whatever the counts.
fn all_begin_from(output: &Layout, byte: u32, statements: &[StatementMoves]) -> bool
    ensures { IsTrue result → (r : Records) (x : Read) → r.output ≡ output.now
        → AreMoves r (moves_by x r statements.now)
        → AllBeginFrom r.output byte (moves_by x r statements.now) }
{
    for single in Singles::new(statements) {
        if !begins_from(output, byte, single.receiver.number) {
            return false;
        }
    }
    true
}

/// The byte behind a place that no count decides.
fn end_of(basis: Basis) -> Option<u32>
    ensures { IfSome result (λ end. (n : Stand) × (basis ≡ Noted n) × (n.least ≡ 0)
        × (end ≡ n.place.offset + n.place.length)) }
{
    match basis {
        Basis::Noted(noted) if noted.least == 0 => {
            noted.place.offset.checked_add(noted.place.length)
        }
        _ => None,
    }
}

impl MarkedMoves {
    ghost use Rattle.cob_move_apply.specs.Entries.{IsPlacedEntry};
    ghost use Rattle.cob_move_apply.specs.Marked.{AreMarkedPrepared, moves_between_marks};

    /// Whether the moves from one mark to another leave the bytes of an entry as they are, whatever the storages hold. In doubt it says no: of the output
    /// record it knows an entry alone that no count moves, and before which no receiver begins.
    pub fn spare(&self, from: usize, to: usize, entry: &PlacedEntry, output: &Layout) -> bool
        requires prepared { (r : Records) × AreMarkedPrepared r self.now }
        requires rises { from ≤ to }
        requires within { to < length self.now.marks.items }
        ensures { IsTrue result → (r : Records) → r.output ≡ output.now
            → AreMarkedPrepared r self.now → IsPlacedEntry r entry.now
            → SpareEntry r (moves_between_marks r self.now from to) entry.now }
    {
        match entry.side {
            Side::In => true,
            Side::Out => match end_of(entry.basis) {
                Some(end) => all_begin_from(output, end, self.statements_between(from, to)),
                None => false,
            },
        }
    }
}
