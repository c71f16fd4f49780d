//! Why a record stops a conversion, in words.

ghost use Rattle.std.specs.Prelude.{◌≡◌, ◌-◌};
ghost use Rattle.cob_records.specs.Forms.{HasBlockSize};

use cob_convert::Status;
use cob_convert_stream::RunFault;
use cob_program_explain::{Silent, Stretch, explain_record_of};
use cob_program_line::{ConvertLine, ExplainLine};
use cob_report_explain::{Explanation, StoppedRecord};
use std::io::Input;
use std::os::unix::fs::FileTypeExt;
use std::rt::Files;

/// The number that a record has in its piece of the input, which has this one in the file.
fn number_in_piece(line: &ConvertLine<'_>, number: u64) -> u64
    ensures { result ≡ number - (line.now.first - 1) }
{
    number.saturating_sub(line.first.saturating_sub(1))
}

/// The command line that explains the record of a conversion's piece with this number.
fn explaining<'a>(line: &ConvertLine<'a>, number: u64) -> ExplainLine<'a>
    requires in_block { HasBlockSize line.now.forms.input }
    requires out_block { HasBlockSize line.now.forms.output }
    ensures input { HasBlockSize result.forms.input }
    ensures output { HasBlockSize result.forms.output }
{
    ExplainLine {
        texts: line.texts,
        input: line.input,
        forms: line.forms,
        lrecl: line.lrecl,
        record: number,
    }
}

/// What is told of a record that stops a run.
fn stopped_in(explanation: Explanation) -> Option<StoppedRecord> {
    match explanation {
        Explanation::Stops(stopped) | Explanation::Refused(stopped) => Some(stopped),
        Explanation::Missing { .. } | Explanation::Converts => None,
    }
}

/// Whether a record with this number stops where a run did, at the same place for the same cause.
fn is_alike(found: RunFault, number: u64, fault: RunFault) -> bool {
    found.number == number
        && found.side == fault.side
        && found.offset == fault.offset
        && found.cause == fault.cause
}

/// The words of a record that stops as a run did.
fn words_alike(stopped: StoppedRecord, number: u64, fault: RunFault) -> Option<String> {
    let StoppedRecord {
        fault: found,
        words,
    } = stopped;
    if is_alike(found, number, fault) {
        Some(words)
    } else {
        None
    }
}

/// Why a run stopped at a record, in words, which is read once more for that, in the same piece of the file.
fn words_of<R: AllocGlobal + Files + Input>(
    rt: &R,
    line: &ConvertLine<'_>,
    fault: RunFault,
) -> Option<String>
    requires in_block { HasBlockSize line.now.forms.input }
    requires out_block { HasBlockSize line.now.forms.output }
{
    let number = number_in_piece(line, fault.number);
    let stretch = Stretch {
        from: line.from,
        bytes: line.bytes,
    };
    match explain_record_of(rt, &explaining(line, number), stretch, &mut Silent) {
        Ok(explanation) => words_alike(stopped_in(explanation)?, number, fault),
        Err(_) => None,
    }
}

/// Whether the file of this name has its bytes still when they were read: it is a regular file or a block device. A pipe gives them once, and its next
/// reader waits for a writer; standard input, `-`, goes on behind them.
pub fn can_be_read_again<R: Files>(rt: &R, name: &str) -> bool {
    if name == "-" {
        return false;
    }
    match rt.metadata(name) {
        Ok(metadata) => metadata.is_file() || metadata.file_type().is_block_device(),
        Err(_) => false,
    }
}

/// Whether all files of a conversion that it reads can be read once more.
fn can_be_explained<R: Files>(rt: &R, line: &ConvertLine<'_>) -> bool {
    can_be_read_again(rt, line.texts.in_book)
        && can_be_read_again(rt, line.texts.out_book)
        && can_be_read_again(rt, line.texts.moves)
        && can_be_read_again(rt, line.input)
}

/// Why a record stopped a conversion, in words, where one did and its files can be read once more.
pub(crate) fn stop_words<R: AllocGlobal + Files + Input>(
    rt: &R,
    line: &ConvertLine<'_>,
    fault: RunFault,
) -> Option<String>
    requires in_block { HasBlockSize line.now.forms.input }
    requires out_block { HasBlockSize line.now.forms.output }
{
    match Status::of_stop(fault.cause) {
        Status::Stopped if can_be_explained(rt, line) => words_of(rt, line, fault),
        _ => None,
    }
}
