//! The records of a file, each written as it comes.

ghost use Rattle.std.specs.Prelude.{◌≡◌, length};
ghost use Rattle.cob_copybook_tree.specs.Lengths.{greatest_number, sum_of};
ghost use Rattle.cob_layout.specs.Standing.{IsRoomFor};
ghost use Rattle.cob_records.specs.Forms.{HasBlockSize};

use crate::contents::ReceivedRecord;
use cob_convert_stream::Reason;
use cob_layout::{Counts, Layout};
use cob_records::{Form, RecordFault, Source};
use cob_report_show::{LIMIT, ShowFault, limit_reason, read_record, stop_at};
use std::alloc::{AllocError, Global};

/// Why a line was not written.
#[derive(Clone, Copy)]
pub(crate) enum Unwritten {
    /// Memory was refused.
    Memory,
    /// A write failed.
    Record(RecordFault),
}

impl From<AllocError> for Unwritten {
    fn from(_: AllocError) -> Unwritten {
        Unwritten::Memory
    }
}

impl From<RecordFault> for Unwritten {
    fn from(fault: RecordFault) -> Unwritten {
        Unwritten::Record(fault)
    }
}

/// The fault of a record whose line was not written.
pub(crate) fn unshown(number: u64, why: Unwritten, sent: u64) -> ShowFault {
    match why {
        Unwritten::Memory => ShowFault::Memory,
        Unwritten::Record(fault) => stop_at(number, Reason::of_write(fault), sent),
    }
}

/// A notation that records are written in.
pub(crate) trait RecordLines {
    /// Writes the line of a record.
    ///
    /// # Errors
    ///
    /// A write that failed, want of memory.
    fn put(&mut self, contents: ReceivedRecord<'_>) -> Result<(), Unwritten>;

    /// How many bytes the sink took.
    fn sent(&self) -> u64;
}

/// Writes the records of a source, one after another, up to its end or the first stop.
fn list_records<R: Source, L: RecordLines>(
    layout: &Layout,
    form: Form,
    bytes: &mut [u8],
    places: &mut Counts,
    source: &mut R,
    lines: &mut L,
) -> Result<u64, ShowFault>
    requires block { HasBlockSize form }
    requires bytes { length bytes.old ≡ sum_of greatest_number layout.now }
    requires room { IsRoomFor layout.now places.old }
{
    let mut left: u16 = 0;
    for done in 0..LIMIT {
        let count = match read_record(layout, form, source, bytes, &mut left, places) {
            Ok(None) => return Ok(done),
            Ok(Some(count)) => count,
            Err(reason) => return Err(stop_at(done + 1, reason, lines.sent())),
        };
        let contents = ReceivedRecord {
            spots: places.spots(),
            bytes: &bytes[..count],
        };
        if let Err(why) = lines.put(contents) {
            return Err(unshown(done + 1, why, lines.sent()));
        }
    }
    Err(stop_at(LIMIT + 1, limit_reason(), lines.sent()))
}

/// Writes the records of a source, one after another, up to its end or the first stop; the answer is how many there were.
///
/// # Errors
///
/// As [`show`](cob_report_show::show) has them; memory may be refused behind a record too.
pub(crate) fn list<R: Source, L: RecordLines>(
    alloc: Global,
    layout: &Layout,
    form: Form,
    source: &mut R,
    lines: &mut L,
) -> Result<u64, ShowFault>
    requires block { HasBlockSize form }
{
    let mut bytes = vec![in alloc; 0u8; usize::from(layout.greatest())]?;
    let mut places = layout.new_counts(alloc)?;
    list_records(layout, form, &mut bytes, &mut places, source, lines)
}
