//! Lists of records and of pieces that say why a record ends them.

ghost use Rattle.std.specs.Prelude.{◌≡◌, ◌<◌};
ghost use Rattle.cob_program_faults.specs.Ends.{EndsAmong, EndsAs, status_of_outcome};
ghost use Rattle.cob_program_faults.specs.Faults.{status_of};
ghost use Rattle.cob_program_faults.specs.declared.fault.CommandFault.TheVariants.{Stopped as StoppedFault};
ghost use Rattle.cob_program_list.specs.Ends.{MayEndListing};
ghost use Rattle.cob_records.specs.Forms.{HasBlockSize};

use crate::conversions::tell_known;
use crate::stops::can_be_read_again;
use cob_convert::Status;
use cob_convert_stream::{Cause, RunFault};
use cob_layout::Layout;
use cob_program_faults::{CommandFault, tell_fault};
use cob_program_line::{PiecesLine, ShowLine};
use cob_program_list::{list_pieces, list_records, read_record_book, tell_listed, tell_shown};
use cob_records::RecordFault;
use cob_records_parts::{Numbered, find_record, open_part};
use cob_report_faults::{FrameText, Reader, listed_count_words};
use std::alloc::{AllocError, Global};
use std::io::{Eprint, Input, Print};
use std::rt::{Clock, Files};

/// Why a frame ends a list, in words. Where no memory is left for them, there are none.
fn frame_words(alloc: Global, fault: RecordFault) -> Option<String> {
    let text = FrameText {
        fault,
        reader: Reader::List,
    };
    format!(in alloc; "{text}").ok()
}

/// Whether the first count of a record that isn't valid stands at this offset.
///
/// # Errors
///
/// Where no memory is left.
fn is_no_count(
    alloc: Global,
    layout: &Layout,
    record: &[u8],
    offset: u32,
) -> Result<bool, AllocError> {
    let mut counts = layout.new_counts(alloc)?;
    match layout.counts_of(record, &mut counts) {
        Ok(()) => Ok(false),
        Err(fault) => Ok(!fault.short && fault.offset == offset),
    }
}

/// Why the count at this offset of a record ends a list, in words; none where it does not.
///
/// # Errors
///
/// Where no memory is left.
fn words_of_count(
    alloc: Global,
    layout: &Layout,
    record: &[u8],
    offset: u32,
) -> Result<Option<String>, AllocError> {
    if is_no_count(alloc, layout, record, offset)? {
        listed_count_words(alloc, layout, record, offset)
    } else {
        Ok(None)
    }
}

/// Why a count ended a list of records, in words. Its record is read once more for that.
fn count_words<R: AllocGlobal + Files + Input>(
    rt: &R,
    line: &ShowLine<'_>,
    fault: RunFault,
) -> Option<String>
    requires { HasBlockSize line.now.form }
{
    let alloc = rt.alloc();
    let listed = read_record_book(rt, line.book, line.form, line.lrecl).ok()?;
    let greatest = listed.layout.greatest();
    let mut source = open_part(rt, line.input, 0, None).ok()?;
    let mut slot = vec![in alloc; 0u8; usize::from(greatest)].ok()?;
    let slot = slot.as_mut_slice();
    let number = fault.number.max(1);
    match find_record(&mut source, line.form, greatest, number, slot) {
        Ok(Numbered::Record(count)) => {
            words_of_count(alloc, &listed.layout, &slot[..count], fault.offset).ok()?
        }
        Ok(Numbered::Fewer(_)) | Err(_) => None,
    }
}

/// Whether the files of a list of records can be read once more.
fn can_be_listed_again<R: Files>(rt: &R, line: &ShowLine<'_>) -> bool {
    can_be_read_again(rt, line.book) && can_be_read_again(rt, line.input)
}

/// Why a record ended a list of records, in words: a frame is known by its fault; of a count the record is read once more, where its file can be.
fn record_words<R: AllocGlobal + Files + Input>(
    rt: &R,
    line: &ShowLine<'_>,
    fault: RunFault,
) -> Option<String>
    requires { HasBlockSize line.now.form }
{
    match fault.cause {
        Cause::Record(frame) => frame_words(rt.alloc(), frame),
        Cause::Count if can_be_listed_again(rt, line) => count_words(rt, line, fault),
        Cause::Count | Cause::NoValue | Cause::Subscript | Cause::Limit => None,
    }
}

/// Prints the fault line of a record or a device that ended a list of records, and behind it why a record did, and answers how the command ends.
fn tell_record_stop<R: AllocGlobal + Files + Input + Eprint>(
    rt: &R,
    line: &ShowLine<'_>,
    fault: RunFault,
) -> Status
    requires { HasBlockSize line.now.form }
    ensures { EndsAs (status_of (StoppedFault fault)) result }
{
    let status = tell_fault(rt, CommandFault::Stopped(fault));
    match Status::of_stop(fault.cause) {
        Status::Stopped => tell_known(rt, status, record_words(rt, line, fault)),
        _ => status,
    }
}

/// Prints what a list of records comes to, and behind a stop why, and answers how it ends.
fn tell_records<R: AllocGlobal + Files + Input + Print + Eprint>(
    rt: &R,
    line: &ShowLine<'_>,
    outcome: Result<u64, CommandFault>,
) -> Status
    requires { HasBlockSize line.now.form }
    ensures { EndsAs (status_of_outcome outcome) result }
{
    match outcome {
        Err(CommandFault::Stopped(fault)) => tell_record_stop(rt, line, fault),
        other => tell_shown(rt, line.listing, other),
    }
}

/// Lists the values of records, prints how many there were or what is at fault, and of a record why it ends the list, and answers how the program ends.
pub fn do_show_explained<R: AllocGlobal + Files + Input + Print + Eprint + Clock>(
    rt: &R,
    line: &ShowLine<'_>,
) -> Status
    requires { HasBlockSize line.now.form }
    ensures { EndsAmong MayEndListing result }
{
    tell_records(rt, line, list_records(rt, line))
}

/// Prints the fault line of a frame or a device that ended the list of a file's pieces, and behind it why a frame did, and answers how the command ends.
fn tell_piece_stop<R: AllocGlobal + Eprint>(rt: &R, fault: RunFault) -> Status
    ensures { EndsAs (status_of (StoppedFault fault)) result }
{
    let status = tell_fault(rt, CommandFault::Stopped(fault));
    match (Status::of_stop(fault.cause), fault.cause) {
        (Status::Stopped, Cause::Record(frame)) => {
            tell_known(rt, status, frame_words(rt.alloc(), frame))
        }
        _ => status,
    }
}

/// Prints what the list of a file's pieces comes to, and behind a stop why, and answers how it ends.
fn tell_pieces<R: AllocGlobal + Eprint>(rt: &R, outcome: Result<(), CommandFault>) -> Status
    ensures { EndsAs (status_of_outcome outcome) result }
{
    match outcome {
        Err(CommandFault::Stopped(fault)) => tell_piece_stop(rt, fault),
        other => tell_listed(rt, other),
    }
}

/// Lists the pieces of a file, prints what is at fault, and of a frame why it ends the list, and answers how the program ends.
pub fn do_pieces_explained<R: AllocGlobal + Files + Input + Print + Eprint>(
    rt: &R,
    line: &PiecesLine<'_>,
) -> Status
    requires block { HasBlockSize line.now.form }
    requires pieces { 0 < line.now.pieces }
    ensures { EndsAmong MayEndListing result }
{
    tell_pieces(rt, list_pieces(rt, line))
}
