//! What is told of two files next: two records that are a pair, or one that stands alone.

ghost use Rattle.std.specs.Prelude.{◌≡◌, ◌<◌, ◌≤◌, ℕ, List, length, map, take, true, false, IfErr, IfOk};
ghost use Rattle.cob_convert_stream.specs.Reasons.{is_read_cause, is_write_cause};
ghost use Rattle.cob_records.specs.Device.{counted};
ghost use Rattle.cob_report_show.specs.Elements.{NamedItem, named_item};
ghost use Rattle.cob_report_show.specs.Runs.{most_shown};
ghost use Rattle.cob_report_compare.specs.Chosen.{AreCompared};
ghost use Rattle.cob_report_compare.specs.Files.{is_reason_for, is_stopped_for};
ghost use Rattle.cob_report_compare.specs.Keys.{AreKeyParts, KeyPart, key_order, key_size};
ghost use Rattle.cob_report_compare.specs.Merged.{all_counted, file_pair, told_counted};
ghost use Rattle.cob_report_compare.specs.Merging.{turn_side};
ghost use Rattle.cob_report_compare.specs.Turns.{DecidesTurn, IsWhole, TellsSingle, TellsTurn, head_record, left_behind, right_behind, turn_by, turn_number};

use crate::counted::PairCounts;
use crate::elements::ComparedRecord;
use crate::files::{CompareStop, FileSide, StopReason, stop_on};
use crate::headings::{Heading, Numbers};
use crate::heads::{FileRoom, Head, Reached};
use crate::keys::order_of_keys;
use crate::lines::{tell_alone, tell_comparison};
use crate::pairs::{ComparedFiles, compare_pair};
use cob_convert_stream::Reason;
use cob_layout::Layout;
use cob_records::Sink;
use cob_report_show::ListedItem;
use std::cmp::Ordering;

/// What is told of two files next.
#[derive(Clone, Copy)]
pub(crate) enum Turn {
    /// Nothing: both are at their end.
    Done,
    /// The next record of both, which have one key.
    Both,
    /// The next record on the left, which stands alone.
    Left,
    /// The next record on the right, which stands alone.
    Right,
}

/// What is told of two next records with these keys: both where they have one key, and else the lesser.
fn turn_by(keys: &[ListedItem], left: &[u8], right: &[u8]) -> Turn
    requires left { length left.now ≡ key_size (map named_item keys.now) }
    requires right { length right.now ≡ key_size (map named_item keys.now) }
    ensures { (one other : List KeyPart) → AreKeyParts (map named_item keys.now) left.now one
        → AreKeyParts (map named_item keys.now) right.now other
        → result ≡ turn_by (key_order one other) }
{
    match order_of_keys(keys, left, right) {
        Ordering::Equal => Turn::Both,
        Ordering::Less => Turn::Left,
        Ordering::Greater => Turn::Right,
    }
}

/// What is told where the left file is at its end.
fn turn_at_end(right: Head) -> Turn
    requires { right ≡ Head.Unread → ⊥ }
    ensures { (keys : List NamedItem) (one other : FileRoom)
        → DecidesTurn keys one Head.Ended other right result }
{
    match right {
        Head::Unread => Turn::Done,
        Head::Ended => Turn::Done,
        Head::Waits(_) => Turn::Right,
    }
}

/// What is told where a record on the left stands next.
fn turn_waiting(
    keys: &[ListedItem],
    left_room: &FileRoom,
    right_room: &FileRoom,
    right: Head,
) -> Turn
    requires right { right ≡ Head.Unread → ⊥ }
    requires left_key { length left_room.now.key.items ≡ key_size (map named_item keys.now) }
    requires right_key { length right_room.now.key.items ≡ key_size (map named_item keys.now) }
    ensures { (count : ℕ) → DecidesTurn (map named_item keys.now) left_room.now (Head.Waits count)
        right_room.now right result }
{
    match right {
        Head::Unread => Turn::Left,
        Head::Ended => Turn::Left,
        Head::Waits(_) => turn_by(keys, &left_room.key, &right_room.key),
    }
}

/// What is told of two files of which each was read: both next records where they have one key, and else the lesser.
pub(crate) fn turn_of(
    keys: &[ListedItem],
    left_room: &FileRoom,
    left: Head,
    right_room: &FileRoom,
    right: Head,
) -> Turn
    requires left { left ≡ Head.Unread → ⊥ }
    requires right { right ≡ Head.Unread → ⊥ }
    requires left_key { length left_room.now.key.items ≡ key_size (map named_item keys.now) }
    requires right_key { length right_room.now.key.items ≡ key_size (map named_item keys.now) }
    ensures { DecidesTurn (map named_item keys.now) left_room.now left right_room.now right result }
{
    match left {
        Head::Unread => Turn::Done,
        Head::Ended => turn_at_end(right),
        Head::Waits(_) => turn_waiting(keys, left_room, right_room, right),
    }
}

/// How far the left file was read, when what this turn tells was told.
pub(crate) fn left_behind(turn: Turn, reached: Reached) -> Reached
    ensures { result ≡ left_behind turn reached }
{
    match turn {
        Turn::Both => reached.told(),
        Turn::Left => reached.told(),
        Turn::Done => reached,
        Turn::Right => reached,
    }
}

/// How far the right file was read, when what this turn tells was told.
pub(crate) fn right_behind(turn: Turn, reached: Reached) -> Reached
    ensures { result ≡ right_behind turn reached }
{
    match turn {
        Turn::Both => reached.told(),
        Turn::Right => reached.told(),
        Turn::Done => reached,
        Turn::Left => reached,
    }
}

/// The record of so many bytes that a room holds.
fn front_of<'a>(layout: &'a Layout, room: &'a FileRoom, count: usize) -> ComparedRecord<'a>
    requires most { count ≤ length room.now.bytes.items }
    ensures layout { result.layout.now ≡ layout.now }
    ensures places { result.places.now ≡ room.now.places }
    ensures bytes { result.bytes.now ≡ take count room.now.bytes.items }
{
    ComparedRecord {
        layout,
        places: &room.places,
        bytes: &room.bytes.as_slice()[..count],
    }
}

/// The record that stands next in a room.
fn head_of<'a>(layout: &'a Layout, room: &'a FileRoom, head: Head) -> ComparedRecord<'a>
    requires whole { IsWhole layout.now room.now head }
    ensures layout { result.layout.now ≡ layout.now }
    ensures places { result.places.now ≡ room.now.places }
    ensures bytes { result.bytes.now ≡ (head_record layout.now room.now head).bytes }
{
    match head {
        Head::Waits(count) => front_of(layout, room, count),
        Head::Unread => front_of(layout, room, 0),
        Head::Ended => front_of(layout, room, 0),
    }
}

/// Compares the next records of both files, which are a pair, and tells it.
fn tell_pair<W: Sink>(
    files: ComparedFiles,
    sink: &mut W,
    left_room: &FileRoom,
    left: Reached,
    right_room: &FileRoom,
    right: Reached,
    counts: PairCounts,
) -> Result<PairCounts, CompareStop>
    requires items { AreCompared files.layout.now (map named_item files.items.now) }
    requires left { IsWhole files.layout.now left_room.now left.head }
    requires right { IsWhole files.layout.now right_room.now right.head }
    requires key { length left_room.now.key.items ≡ key_size (map named_item files.keys.now) }
    requires few { all_counted counts < most_shown }
    ensures tells { IfOk result (TellsTurn (file_pair files.entry) Turn.Both left_room.now left right_room.now right counts
        (W.taken sink.old) (W.taken sink.new)) }
    ensures stop { IfErr result (λ stop. (stop.side ≡ FileSide.Left) × (stop.number ≡ left.number)) }
    ensures writing { IfErr result (λ stop. is_reason_for is_write_cause stop.reason ≡ true) }
    ensures reading { IfErr result (λ stop. is_reason_for is_read_cause stop.reason ≡ false) }
    ensures writes { W.failures sink.new ≡ counted (is_stopped_for is_write_cause result) (W.failures sink.old) }
{
    let one = head_of(files.layout, left_room, left.head);
    let other = head_of(files.layout, right_room, right.head);
    let comparison = compare_pair(files, one, other);
    let heading = Heading {
        numbers: Numbers::Pair(left.number, right.number),
        keys: files.keys,
        key: &left_room.key,
    };
    match tell_comparison(
        sink,
        files.most,
        counts.told(),
        &heading,
        one.bytes,
        other.bytes,
        &comparison,
    ) {
        Ok(()) => Ok(counts.with(&comparison)),
        Err(fault) => Err(stop_on(
            FileSide::Left,
            left.number,
            StopReason::Record(Reason::of_write(fault)),
        )),
    }
}

/// Tells the next record of a file, which stands alone.
fn tell_single<W: Sink>(
    files: ComparedFiles,
    sink: &mut W,
    side: FileSide,
    room: &FileRoom,
    number: u64,
    counts: PairCounts,
) -> Result<PairCounts, CompareStop>
    requires key { length room.now.key.items ≡ key_size (map named_item files.keys.now) }
    requires few { all_counted counts < most_shown }
    ensures tells { IfOk result (TellsSingle (file_pair files.entry) side room.now number counts
        (W.taken sink.old) (W.taken sink.new)) }
    ensures stop { IfErr result (λ stop. (stop.side ≡ side) × (stop.number ≡ number)) }
    ensures writing { IfErr result (λ stop. is_reason_for is_write_cause stop.reason ≡ true) }
    ensures reading { IfErr result (λ stop. is_reason_for is_read_cause stop.reason ≡ false) }
    ensures writes { W.failures sink.new ≡ counted (is_stopped_for is_write_cause result) (W.failures sink.old) }
{
    let heading = Heading {
        numbers: Numbers::Alone(side, number),
        keys: files.keys,
        key: &room.key,
    };
    match tell_alone(sink, files.most, counts.told(), &heading, side) {
        Ok(()) => Ok(counts.with_alone(side)),
        Err(fault) => Err(stop_on(side, number, StopReason::Record(Reason::of_write(fault)))),
    }
}

/// Tells what comes next of two files, and counts it.
///
/// # Errors
///
/// Lines that can't be printed.
pub(crate) fn tell_turn<W: Sink>(
    files: ComparedFiles,
    turn: Turn,
    sink: &mut W,
    left_room: &FileRoom,
    left: Reached,
    right_room: &FileRoom,
    right: Reached,
    counts: PairCounts,
) -> Result<PairCounts, CompareStop>
    requires some { turn ≡ Turn.Done → ⊥ }
    requires items { AreCompared files.layout.now (map named_item files.items.now) }
    requires left { turn ≡ Turn.Both → IsWhole files.layout.now left_room.now left.head }
    requires right { turn ≡ Turn.Both → IsWhole files.layout.now right_room.now right.head }
    requires left_key { length left_room.now.key.items ≡ key_size (map named_item files.keys.now) }
    requires right_key { length right_room.now.key.items ≡ key_size (map named_item files.keys.now) }
    requires few { all_counted counts < most_shown }
    ensures tells { IfOk result (TellsTurn (file_pair files.entry) turn left_room.now left right_room.now right counts
        (W.taken sink.old) (W.taken sink.new)) }
    ensures stop { IfErr result (λ stop. (stop.side ≡ turn_side turn) × (stop.number ≡ turn_number turn left right)) }
    ensures writing { IfErr result (λ stop. is_reason_for is_write_cause stop.reason ≡ true) }
    ensures reading { IfErr result (λ stop. is_reason_for is_read_cause stop.reason ≡ false) }
    ensures writes { W.failures sink.new ≡ counted (is_stopped_for is_write_cause result) (W.failures sink.old) }
{
    match turn {
        Turn::Done => Ok(counts),
        Turn::Both => tell_pair(files, sink, left_room, left, right_room, right, counts),
        Turn::Left => tell_single(files, sink, FileSide::Left, left_room, left.number, counts),
        Turn::Right => tell_single(
            files,
            sink,
            FileSide::Right,
            right_room,
            right.number,
            counts,
        ),
    }
}
