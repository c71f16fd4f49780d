//! Whether no occurrence receives twice.

ghost use Rattle.std.specs.Bool.{Decides};
ghost use Rattle.cob_codec.specs.declared.reading.Reading.{Reading as Read};
ghost use Rattle.cob_move_data.specs.Moves.{Records};
ghost use Rattle.cob_back_moves.specs.Singles.{ReceiveOnce};
ghost use Rattle.cob_back_moves.specs.Brought.{singles_in};
ghost use Rattle.cob_move_data.specs.Singles.{plain_element};
ghost use Rattle.cob_back_moves.specs.Received.{ReceivesOnce, singles_by};

use crate::noted::note_all;
use crate::single::is_at;
use crate::some::MovesBetween;
use cob_move_data::{Element, Singles, StatementMoves};

/// Whether an occurrence receives in no two single moves of statements.
fn receives_once(element: &Element<'_>, statements: &[StatementMoves]) -> bool
    ensures { (x : Read) (r : Records) → Decides result
        (ReceivesOnce (plain_element element.now) (singles_by x r statements.now)) }
{
    let mut receives = false;
    for single in Singles::new(statements) {
        if is_at(&single.receiver, element.number, element.subscripts) {
            if receives {
                return false;
            }
            receives = true;
        }
    }
    true
}

/// Whether no occurrence receives twice in the single moves of statements: each is looked for among all, until one is found twice. It takes no
/// memory.
pub fn receive_once(statements: &[StatementMoves]) -> bool
    ensures { (x : Read) (r : Records) → Decides result
        (ReceiveOnce (singles_by x r statements.now)) }
{
    for single in Singles::new(statements) {
        if !receives_once(&single.receiver, statements) {
            return false;
        }
    }
    true
}

/// Whether no occurrence receives twice in moves, the receivers of which are noted, so that a search for one finds its statement. Those that begin each
/// at a byte of its own, as the items of a record that stands in one way do, are not looked for. Where two begin at one byte, the second of them is
/// looked for first, and all are only where it receives once.
pub(crate) fn receive_once_in(moves: &MovesBetween<'_>, noted: &mut [Option<u32>]) -> bool
    ensures { Decides result (ReceiveOnce (singles_in moves.now)) }
{
    match note_all(noted, moves.layouts.output, moves.statements) {
        None => true,
        Some(element) => receives_once(&element, moves.statements)
            && receive_once(moves.statements),
    }
}
