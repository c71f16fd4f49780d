//! Statements, one after another.

ghost use Rattle.std.specs.Prelude.{◌≡◌, length};
ghost use Rattle.cob_layout.specs.Sound.{IsSound};
ghost use Rattle.cob_layout.specs.Storage.{greatest_length, IsStorage};
ghost use Rattle.cob_move_data.specs.Moves.{AreMoves, moves_by};
ghost use Rattle.cob_move_apply.specs.Applied.{Applied};
ghost use Rattle.cob_report_explain.specs.Each.{each_ending, plain_ending_of};
ghost use Rattle.cob_report_explain.specs.Room.{HasEachRoom};
ghost use Rattle.cob_report_explain.specs.Seen.{SeesStatements, moves_meant, records_of_layouts};

use crate::room::{EachRoom, RecordLayouts};
use crate::single::MoveStop;
use crate::statements::walk_statement;
use crate::watcher::Watcher;
use cob_layout::records_are_sound;
use cob_move_data::StatementMoves;

/// Carries out the moves of statements in order, and hands each single move out.
fn walk_all<W: Watcher>(
    layouts: &RecordLayouts<'_>,
    statements: &[StatementMoves],
    input: &[u8],
    output: &mut [u8],
    room: &mut EachRoom,
    watcher: &mut W,
) -> Result<(), MoveStop>
    requires in_sound { IsSound layouts.now.input.now }
    requires out_sound { IsSound layouts.now.output.now }
    requires between { AreMoves (records_of_layouts layouts.now)
        (moves_meant layouts.now statements.now) }
    requires input { IsStorage layouts.now.input.now input.now }
    requires output { length output.old ≡ greatest_length layouts.now.output.now }
    requires room { HasEachRoom (records_of_layouts layouts.now) room.old }
    ensures seen { SeesStatements layouts.now statements.now input.now output.old
        (each_ending result output.new) (W.seen watcher.old) (W.seen watcher.new) }
    ensures room { HasEachRoom (records_of_layouts layouts.now) room.new }
{
    for (number, statement) in statements.iter().enumerate() {
        walk_statement(layouts, number, statement, input, output, room, watcher)?;
    }
    Ok(())
}

/// Carries out the moves of a paragraph's statements in order on the storage of an output record, and hands each single move to the watcher as soon as
/// it is done. It takes no memory.
///
/// The statements are those of `Moves::statements`, and the reading that of `Moves::reading`. The input is all of a record's storage, or its current
/// part; the output is all of a record's storage. The room is that of [`EachRoom::new`] for these layouts.
///
/// # Errors
///
/// The first thing missing, with the single move that asked for it. The storage is as the moves and receivers before left it then.
pub fn each<W: Watcher>(
    layouts: &RecordLayouts<'_>,
    statements: &[StatementMoves],
    input: &[u8],
    output: &mut [u8],
    room: &mut EachRoom,
    watcher: &mut W,
) -> Result<(), MoveStop>
    requires between { AreMoves (records_of_layouts layouts.now)
        (moves_meant layouts.now statements.now) }
    requires input { IsStorage layouts.now.input.now input.now }
    requires output { length output.old ≡ greatest_length layouts.now.output.now }
    requires room { HasEachRoom (records_of_layouts layouts.now) room.old }
    // All of them together are what `Moves::apply` says.
    ensures applied { Applied (records_of_layouts layouts.now)
        (moves_meant layouts.now statements.now) input.now output.old
        (plain_ending_of result output.new) }
    // What was handed out are the single moves in their order, up to the first that stops, which the answer names.
    ensures seen { SeesStatements layouts.now statements.now input.now output.old
        (each_ending result output.new) (W.seen watcher.old) (W.seen watcher.new) }
    ensures room { HasEachRoom (records_of_layouts layouts.now) room.new }
{
    records_are_sound();
    let _ = layouts.input.greatest();
    let _ = layouts.output.greatest();
    walk_all(layouts, statements, input, output, room, watcher)
}
