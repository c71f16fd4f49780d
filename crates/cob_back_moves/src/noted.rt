//! The statements in which occurrences receive, noted by the bytes at which the occurrences begin.
//!
//! Where each byte is noted once, none of the occurrences receives twice; and a search for what one receives has where to begin. A note takes no
//! memory: there is one for each byte that a record may have.

ghost use Rattle.std.specs.Prelude.{◌≡◌, IfNone, IfSome, IsTrue};
ghost use Rattle.cob_codec.specs.declared.reading.Reading.{Reading as Read};
ghost use Rattle.cob_move_data.specs.Moves.{Records};
ghost use Rattle.cob_back_moves.specs.Noting.{BeginsAt, IsNotedFirst, NotesFirst};
ghost use Rattle.cob_move_data.specs.Singles.{occurrence, plain_element};
ghost use Rattle.cob_back_moves.specs.Singles.{ReceiveOnce};
ghost use Rattle.cob_back_moves.specs.Received.{singles_by};

use cob_layout::Layout;
use cob_limits::MAX_RECORD;
use cob_move_data::{Element, Singles, StatementMoves};

/// How many bytes a record may have.
pub(crate) const MOST_BYTES: usize = MAX_RECORD as usize;

/// The byte of a layout's record at which an occurrence of an entry begins. None where the record has no such occurrence, or where that rests on a
/// count.
fn byte_of(layout: &Layout, number: usize, subscripts: &[u32]) -> Option<usize>
    ensures { IfSome result (λ at. BeginsAt layout.now (occurrence number subscripts.now) at) }
{
    let reference = layout.reference(number, subscripts)?;
    let place = layout.fixed_place(&reference, true)?;
    Some(place.offset as usize)
}

/// Notes that what begins at a byte receives in a statement, where there is such a byte and nothing is noted there. Tells whether it was noted.
fn note_at(noted: &mut [Option<u32>], at: usize, statement: u32) -> bool
    ensures { IsTrue result → IsNotedFirst noted.old at statement noted.new }
{
    if at >= noted.len() || noted[at].is_some() {
        return false;
    }
    noted[at] = Some(statement);
    true
}

/// Notes that an occurrence of an entry of the output record receives in a statement, where it is known at which byte it begins and nothing is noted
/// there. Tells whether it was noted.
fn note(noted: &mut [Option<u32>], output: &Layout, element: &Element<'_>, statement: u32) -> bool
    ensures { IsTrue result
        → NotesFirst output.now noted.old (plain_element element.now) noted.new }
{
    match byte_of(output, element.number, element.subscripts) {
        Some(at) => note_at(noted, at, statement),
        None => false,
    }
}

/// Notes the receivers of statements, each with the number of its statement. None where each begins at a byte of its own: then none receives
/// twice. Else the first that doesn't, or of which that isn't known.
pub(crate) fn note_all<'a>(
    noted: &mut [Option<u32>],
    output: &Layout,
    statements: &'a [StatementMoves],
) -> Option<Element<'a>>
    ensures { IfNone result ((x : Read) (r : Records)
        → ReceiveOnce (singles_by x r statements.now)) }
{
    for single in Singles::new(statements) {
        let statement = u32::try_from(single.statement).unwrap_or(u32::MAX);
        if !note(noted, output, &single.receiver, statement) {
            return Some(single.receiver);
        }
    }
    None
}

/// The number of the statement in which an occurrence of an entry of the output record receives, or 0 where none is noted.
pub(crate) fn noted_for(
    noted: &[Option<u32>],
    output: &Layout,
    number: usize,
    subscripts: &[u32],
) -> usize {
    let Some(at) = byte_of(output, number, subscripts) else {
        return 0;
    };
    match noted.get(at) {
        Some(Some(statement)) => *statement as usize,
        _ => 0,
    }
}
