//! Two files compared as their keys merge them.

ghost use Rattle.std.specs.Prelude.{◌≡◌, map, IfOk};
ghost use Rattle.cob_convert_stream.specs.Reasons.{is_read_cause, is_write_cause};
ghost use Rattle.cob_records.specs.Device.{counted};
ghost use Rattle.cob_records.specs.Forms.{HasBlockSize};
ghost use Rattle.cob_report_show.specs.Elements.{named_item};
ghost use Rattle.cob_report_compare.specs.Chosen.{AreCompared};
ghost use Rattle.cob_report_compare.specs.Files.{IsFileRoom, is_stopped_for, is_stopped_on};
ghost use Rattle.cob_report_compare.specs.Keys.{AreKeyItems};
ghost use Rattle.cob_report_compare.specs.Merged.{AreFew, file_pair};
ghost use Rattle.cob_report_compare.specs.Merging.{Merges};

use crate::counted::PairCounts;
use crate::files::{CompareStop, FileSide, StopReason, stop_on};
use crate::heads::{FileRoom, Reached, fill};
use crate::pairs::ComparedFiles;
use crate::turns::{Turn, left_behind, right_behind, tell_turn, turn_of};
use cob_records::{Sink, Source};
use cob_report_show::{LIMIT, limit_reason};

/// Compares the records of two files as their keys merge them: those of one key are a pair, each the next of either file, and else the lesser stands alone.
/// Without a key they are pairs in the order in which they come. It tells those that differ or stand alone as far as at most so many, and says how many
/// there are of each kind.
///
/// # Errors
///
/// The first record that can't be read, whose counts are not all valid, or that is not as long as they say; whose key is no number, or stands below that of the
/// record before it; or whose lines can't be printed.
pub(crate) fn compare_merged<L: Source, R: Source, W: Sink>(
    files: ComparedFiles,
    sink: &mut W,
    left: &mut L,
    left_room: &mut FileRoom,
    right: &mut R,
    right_room: &mut FileRoom,
) -> Result<PairCounts, CompareStop>
    requires left_block { HasBlockSize files.left_form }
    requires right_block { HasBlockSize files.right_form }
    requires items { AreCompared files.layout.now (map named_item files.items.now) }
    requires keys { AreKeyItems files.layout.now (map named_item files.keys.now) }
    requires left_room { IsFileRoom files.layout.now (map named_item files.keys.now) left_room.old }
    requires right_room { IsFileRoom files.layout.now (map named_item files.keys.now) right_room.old }
    ensures merges { Merges (file_pair files.entry) (L.coming left.old) (L.coming left.new)
        (R.coming right.old) (R.coming right.new) (W.taken sink.old) (W.taken sink.new) result }
    ensures few { IfOk result AreFew }
    ensures left_reads { L.failures left.new ≡ counted
        (is_stopped_on FileSide.Left is_read_cause result) (L.failures left.old) }
    ensures right_reads { R.failures right.new ≡ counted
        (is_stopped_on FileSide.Right is_read_cause result) (R.failures right.old) }
    ensures writes { W.failures sink.new ≡ counted
        (is_stopped_for is_write_cause result) (W.failures sink.old) }
{
    let mut counts = PairCounts::none();
    let mut left_at = Reached::nothing();
    let mut right_at = Reached::nothing();
    for done in 0..LIMIT {
        let left_now = fill(files, FileSide::Left, left, left_room, left_at)?;
        let right_now = fill(files, FileSide::Right, right, right_room, right_at)?;
        let turn = turn_of(
            files.keys,
            left_room,
            left_now.head,
            right_room,
            right_now.head,
        );
        if let Turn::Done = turn {
            return Ok(counts);
        }
        counts = tell_turn(
            files, turn, sink, left_room, left_now, right_room, right_now, counts,
        )?;
        left_at = left_behind(turn, left_now);
        right_at = right_behind(turn, right_now);
    }
    Err(stop_on(
        FileSide::Left,
        LIMIT + 1,
        StopReason::Record(limit_reason()),
    ))
}
