//! The records of one file, each with its key.

ghost use Rattle.std.specs.Prelude.{◌≡◌, ◌≤◌, length, map, take, false, IfErr, IfOk, IsFalse, IsTrue, OnOk};
ghost use Rattle.cob_convert_stream.specs.Reasons.{is_read_cause, is_write_cause};
ghost use Rattle.cob_layout.specs.Storage.{greatest_length};
ghost use Rattle.cob_records.specs.Device.{counted};
ghost use Rattle.cob_records.specs.Forms.{HasBlockSize};
ghost use Rattle.cob_report_show.specs.Elements.{named_item};
ghost use Rattle.cob_report_show.specs.Records.{HoldsRecord};
ghost use Rattle.cob_report_show.specs.Runs.{most_shown};
ghost use Rattle.cob_report_compare.specs.Equal.{printed_of};
ghost use Rattle.cob_report_compare.specs.Files.{IsFileRoom, ReadsNextHead, RefusesKey, StandsBelowHeld, StandsInOrder, StopsAtHead, TakesKey, form_on, is_reason_for, is_stopped_for};
ghost use Rattle.cob_report_compare.specs.Keys.{AreKeyItems, key_size, most_keys};

use crate::elements::ComparedRecord;
use crate::files::{CompareStop, FileSide, StopReason, stop_on};
use crate::keys::{key_length, key_offset, order_of_keys, take_key};
use crate::pairs::ComparedFiles;
use cob_layout::{Counts, Layout};
use cob_records::{Form, Source};
use cob_report_show::{ListedItem, read_record};
use std::alloc::{AllocError, Global};

/// Room for a record of a file that stands next, where its entries stand, and its key; and for the key of the one behind it.
#[derive(Drop)]
pub(crate) struct FileRoom {
    pub(crate) bytes: Vec<u8>,
    pub(crate) places: Counts,
    pub(crate) key: Vec<u8>,
    pub(crate) next: Vec<u8>,
}

/// What stands next in a file, behind the records that were told.
#[derive(Clone, Copy)]
pub(crate) enum Head {
    /// It was not read.
    Unread,
    /// The file is at its end.
    Ended,
    /// A record of so many bytes.
    Waits(usize),
}

/// How far a file was read: what the open block still holds, how many records came, and what stands next.
#[derive(Clone, Copy)]
pub(crate) struct Reached {
    pub(crate) opened: u16,
    pub(crate) number: u64,
    pub(crate) head: Head,
}

impl Reached {
    /// Nothing was read.
    pub(crate) fn nothing() -> Reached
        ensures { result ≡ record {
          opened = 0;
          number = 0;
          head = Head.Unread;
        } }
    {
        Reached {
            opened: 0,
            number: 0,
            head: Head::Unread,
        }
    }

    /// What stood next was told.
    pub(crate) fn told(self) -> Reached
        ensures { result ≡ record self { head = Head.Unread } }
    {
        Reached {
            head: Head::Unread,
            ..self
        }
    }
}

/// Room for a record of this layout with a key of these items, and for the key behind it.
pub(crate) fn file_room(
    alloc: Global,
    layout: &Layout,
    keys: &[ListedItem],
) -> Result<FileRoom, AllocError>
    requires few { length keys.now ≤ most_keys }
    ensures room { IfOk result (IsFileRoom layout.now (map named_item keys.now)) }
{
    let length = usize::from(layout.greatest());
    let of_key = key_length(keys);
    let bytes = vec![in alloc; 0u8; length]?;
    let places = layout.new_counts(alloc)?;
    let key = vec![in alloc; 0u8; of_key]?;
    let next = vec![in alloc; 0u8; of_key]?;
    Ok(FileRoom {
        bytes,
        places,
        key,
        next,
    })
}

/// Whether the key of a record stands below the one that is held, of the record before it, where there is one.
fn is_below(keys: &[ListedItem], held: &[u8], next: &[u8], first: bool) -> bool
    requires held { length held.now ≡ key_size (map named_item keys.now) }
    requires next { length next.now ≡ key_size (map named_item keys.now) }
    ensures yes { IsTrue result → StandsBelowHeld (map named_item keys.now) held.now next.now first }
    ensures no { IsFalse result → StandsInOrder (map named_item keys.now) held.now next.now first }
{
    if first {
        return false;
    }
    order_of_keys(keys, held, next).is_gt()
}

/// Takes the key of a record, which is the first of its file or has to stand no lower than the one that is held, and holds it from then on.
///
/// # Errors
///
/// An item of it that is no number, or a key that stands lower.
fn hold_key(
    compared: ComparedRecord,
    keys: &[ListedItem],
    held: &mut [u8],
    next: &mut [u8],
    first: bool,
) -> Result<(), StopReason>
    requires holds { HoldsRecord compared.layout.now compared.places.now (length compared.bytes.now) }
    requires keys { AreKeyItems compared.layout.now (map named_item keys.now) }
    requires held { length held.old ≡ key_size (map named_item keys.now) }
    requires next { length next.old ≡ key_size (map named_item keys.now) }
    ensures held { length held.new ≡ length held.old }
    ensures next { length next.new ≡ length next.old }
    ensures takes { OnOk result (TakesKey (map named_item keys.now) (printed_of compared.entry) first held.old held.new) }
    ensures refuses { IfErr result (RefusesKey (map named_item keys.now) (printed_of compared.entry) first held.old) }
{
    if let Err(offset) = take_key(compared, keys, next) {
        return Err(StopReason::NoNumber { offset });
    }
    if is_below(keys, held, next, first) {
        return Err(StopReason::Order {
            offset: key_offset(compared, keys),
        });
    }
    held.copy_from_slice(next);
    Ok(())
}

/// Holds the key of the record of so many bytes that came.
fn hold_head(
    layout: &Layout,
    keys: &[ListedItem],
    room: &mut FileRoom,
    count: usize,
    first: bool,
) -> Result<(), StopReason>
    requires holds { HoldsRecord layout.now room.old.places count }
    requires most { count ≤ length room.old.bytes.items }
    requires keys { AreKeyItems layout.now (map named_item keys.now) }
    requires room { IsFileRoom layout.now (map named_item keys.now) room.old }
    ensures room { IsFileRoom layout.now (map named_item keys.now) room.new }
    ensures bytes { room.new.bytes.items ≡ room.old.bytes.items }
    ensures places { room.new.places ≡ room.old.places }
    ensures takes { OnOk result (TakesKey (map named_item keys.now) (record {
      tree = layout.now;
      places = room.old.places;
      bytes = take count room.old.bytes.items;
    }) first room.old.key.items room.new.key.items) }
    ensures refuses { IfErr result (RefusesKey (map named_item keys.now) (record {
      tree = layout.now;
      places = room.old.places;
      bytes = take count room.old.bytes.items;
    }) first room.old.key.items) }
{
    let compared = ComparedRecord {
        layout,
        places: &room.places,
        bytes: &room.bytes.as_slice()[..count],
    };
    hold_key(compared, keys, &mut room.key, &mut room.next, first)
}

/// How the records stand in a file.
fn form_on(files: ComparedFiles, side: FileSide) -> Form
    ensures { result ≡ form_on files.entry side }
{
    match side {
        FileSide::Left => files.left_form,
        FileSide::Right => files.right_form,
    }
}

/// Reads what stands next in a file, and its key.
fn read_head<S: Source>(
    files: ComparedFiles,
    side: FileSide,
    source: &mut S,
    room: &mut FileRoom,
    reached: Reached,
) -> Result<Reached, CompareStop>
    requires block { HasBlockSize (form_on files side) }
    requires keys { AreKeyItems files.layout.now (map named_item files.keys.now) }
    requires room { IsFileRoom files.layout.now (map named_item files.keys.now) room.old }
    requires few { reached.number ≤ most_shown }
    requires unread { reached.head ≡ Head.Unread }
    ensures room { IsFileRoom files.entry.layout.now (map named_item files.entry.keys.now) room.new }
    ensures read { IfOk result (λ now. now.head ≡ Head.Unread → ⊥) }
    ensures next { IfOk result (ReadsNextHead (form_on files.entry side) files.entry.layout.now
        (map named_item files.entry.keys.now) reached room.old
        (S.coming source.old) (S.coming source.new) room.new) }
    ensures stops { IfErr result (StopsAtHead (form_on files.entry side) files.entry.layout.now
        (map named_item files.entry.keys.now) reached room.old
        (S.coming source.old) (S.coming source.new)) }
    ensures side { IfErr result (λ stop. stop.side ≡ side) }
    ensures reading { IfErr result (λ stop. is_reason_for is_write_cause stop.reason ≡ false) }
    ensures reads { S.failures source.new ≡ counted
        (is_stopped_for is_read_cause result) (S.failures source.old) }
{
    let mut opened = reached.opened;
    let number = reached.number + 1;
    let count = match read_record(
        files.layout,
        form_on(files, side),
        source,
        &mut room.bytes,
        &mut opened,
        &mut room.places,
    ) {
        Ok(None) => {
            return Ok(Reached {
                opened,
                number: reached.number,
                head: Head::Ended,
            });
        }
        Ok(Some(count)) => count,
        Err(reason) => return Err(stop_on(side, number, StopReason::Record(reason))),
    };
    match hold_head(files.layout, files.keys, room, count, reached.number == 0) {
        Ok(()) => Ok(Reached {
            opened,
            number,
            head: Head::Waits(count),
        }),
        Err(reason) => Err(stop_on(side, number, reason)),
    }
}

/// Reads what stands next in a file, where it was not read.
///
/// # Errors
///
/// A record that can't be read, whose counts are not all valid, or that is not as long as they say; that has no key, or one that stands below that of the
/// record before it.
pub(crate) fn fill<S: Source>(
    files: ComparedFiles,
    side: FileSide,
    source: &mut S,
    room: &mut FileRoom,
    reached: Reached,
) -> Result<Reached, CompareStop>
    requires block { HasBlockSize (form_on files side) }
    requires keys { AreKeyItems files.layout.now (map named_item files.keys.now) }
    requires room { IsFileRoom files.layout.now (map named_item files.keys.now) room.old }
    requires few { reached.head ≡ Head.Unread → reached.number ≤ most_shown }
    ensures room { IsFileRoom files.entry.layout.now (map named_item files.entry.keys.now) room.new }
    ensures read { IfOk result (λ now. now.head ≡ Head.Unread → ⊥) }
    ensures next { IfOk result (ReadsNextHead (form_on files.entry side) files.entry.layout.now
        (map named_item files.entry.keys.now) reached room.old
        (S.coming source.old) (S.coming source.new) room.new) }
    ensures stops { IfErr result (StopsAtHead (form_on files.entry side) files.entry.layout.now
        (map named_item files.entry.keys.now) reached room.old
        (S.coming source.old) (S.coming source.new)) }
    ensures side { IfErr result (λ stop. stop.side ≡ side) }
    ensures reading { IfErr result (λ stop. is_reason_for is_write_cause stop.reason ≡ false) }
    ensures reads { S.failures source.new ≡ counted
        (is_stopped_for is_read_cause result) (S.failures source.old) }
{
    match reached.head {
        Head::Unread => read_head(files, side, source, room, reached),
        Head::Ended => Ok(reached),
        Head::Waits(_) => Ok(reached),
    }
}
