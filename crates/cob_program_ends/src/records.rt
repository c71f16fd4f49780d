//! The records of a file that a command reads.

ghost use Rattle.std.specs.Prelude.{◌≡◌, ◌<◌, ◌≤◌, None, IfErr, IfOk, is_err};
ghost use Rattle.cob_limits.specs.Limits.{longest_record};
ghost use Rattle.cob_records.specs.Device.{counted};
ghost use Rattle.cob_records.specs.Forms.{HasBlockSize};
ghost use Rattle.cob_program_ends.specs.Jumps.{JumpsIn};
ghost use Rattle.cob_program_ends.specs.Records.{GivesWanted, JumpsOver, SkipsWanted, part_before};
ghost use Rattle.cob_program_ends.specs.Stops.{LacksRecords, unread};

use crate::stops::not_chosen;
use cob_program_faults::{CommandFault, FileName, opened};
use cob_records::{DeviceFault, Form, RecordFault, Source, size_of};
use cob_records_parts::{
    Choice, ChoiceFault, Incoming, PartSource, Stopped, StreamPart, choose, open_part,
};
use std::fs;
use std::io::Input;
use std::os::unix::fs::FileTypeExt;
use std::rt::Files;

/// Which records of which file a command reads.
#[derive(Clone, Copy, PartialEq, Eq)]
pub struct WantedRecords<'a> {
    /// The file; `-` is standard input.
    pub input: &'a str,
    /// How its records stand.
    pub form: Form,
    /// The greatest length of a record.
    pub greatest: u16,
    /// How many bytes of the file stand before the piece that is read.
    pub from: u64,
    /// How many bytes that piece has, where it isn't all that are left.
    pub bytes: Option<u64>,
    /// The number of its first record.
    pub first: u64,
    /// Which of its records are chosen.
    pub choice: Choice,
}

/// A part of a file, of whose records the first ones are jumped over where that is possible: they have one length, and the size of the file is known.
fn jumped_in(form: Form, greatest: u16, size: Option<u64>, part: StreamPart) -> StreamPart
    requires { 0 < greatest }
    ensures jumps { JumpsIn form greatest size part result }
    ensures none { size ≡ None → result ≡ part }
{
    match (form, size) {
        (Form::Fixed, Some(size)) => part.jumped(size, greatest),
        _ => part,
    }
}

/// The part of the file that is read, behind the records that are jumped over. The file is asked for its size only where some are passed over.
fn part_of<R: Files>(rt: &R, wanted: WantedRecords<'_>) -> StreamPart
    requires { 0 < wanted.greatest }
    ensures { JumpsOver wanted.entry result }
{
    let WantedRecords {
        from,
        bytes,
        choice: Choice { skip, .. },
        ..
    } = wanted;
    let size = if skip == 0 {
        None
    } else {
        size_of(rt, wanted.input)
    };
    jumped_in(
        wanted.form,
        wanted.greatest,
        size,
        StreamPart { from, bytes, skip },
    )
}

/// Whether a read of the file of this name waits for no one: it is a regular file, a folder or a device of blocks, and no pipe or terminal. `-` is what
/// standard input comes from.
fn reads_at_once<R: Files>(rt: &R, name: &str) -> bool {
    match fs::metadata(rt, if name == "-" { "/dev/stdin" } else { name }) {
        Ok(metadata) => {
            metadata.is_file() || metadata.is_dir() || metadata.file_type().is_block_device()
        }
        Err(_) => false,
    }
}

/// Reads ahead into the buffer of a source, by a piece without room, which is given nothing. So many records were jumped over before, and the piece of the
/// file that is read begins with the record of the number `first`.
///
/// # Errors
///
/// That read failed: so it is told of the first record that comes.
fn read_ahead<S: Source>(source: &mut S, first: u64, jumped: u64) -> Result<(), CommandFault>
    ensures kept { S.coming source.new ≡ S.coming source.old }
    ensures cause { S.failures source.new ≡ counted (is_err result) (S.failures source.old) }
    ensures told { IfErr result (λ fault. fault ≡ unread first jumped) }
    ensures lacks { IfErr result LacksRecords }
{
    match source.read(&mut []) {
        Ok(_) => Ok(()),
        Err(DeviceFault) => {
            let stop = Stopped {
                number: 1,
                fault: RecordFault::ReadFailed,
            };
            Err(not_chosen(first, jumped, ChoiceFault::Stopped(stop)))
        }
    }
}

/// Opens the file that `--in` names, moves to the piece that is wanted, and passes over its records before the chosen ones. Where its first read waits for
/// no one, it is done, so that what can't be read, as a folder, is found out before a command makes a file.
///
/// # Errors
///
/// A file that is not opened, or has no places where a piece of it is wanted; a first read that failed; the frame of a record that is passed over and can't be
/// read; want of memory.
pub fn open_records<R: AllocGlobal + Files + Input>(
    rt: &R,
    wanted: WantedRecords<'_>,
) -> Result<Incoming<PartSource<R::File, R::Reader>>, CommandFault>
    requires block { HasBlockSize wanted.form }
    requires low { 0 < wanted.greatest }
    requires high { wanted.greatest ≤ longest_record }
    // They are those of the part behind the records that are jumped over, and none but the chosen ones.
    ensures gives { IfOk result
        (GivesWanted wanted.entry.form wanted.entry.greatest wanted.entry.choice.records) }
    // Those before the chosen ones are jumped over or passed over.
    ensures skips { IfOk result (SkipsWanted wanted.entry) }
    ensures lacks { IfErr result LacksRecords }
{
    let part = part_of(rt, wanted);
    let end = open_part(rt, wanted.input, part.from, part.bytes);
    let mut source = opened(end, FileName::In)?;
    let jumped = wanted.choice.skip.saturating_sub(part.skip);
    if reads_at_once(rt, wanted.input) {
        read_ahead(&mut source, wanted.first, jumped)?;
    }
    let choice = Choice {
        skip: part.skip,
        ..wanted.choice
    };
    match choose(rt.alloc(), source, wanted.form, wanted.greatest, choice) {
        Ok(incoming) => Ok(incoming),
        Err(fault) => Err(not_chosen(wanted.first, jumped, fault)),
    }
}
