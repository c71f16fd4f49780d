ghost use Rattle.std.specs.Prelude.{◌≡◌, ◌<◌, ◌≤◌, IfErr};
ghost use Rattle.cob_limits.specs.Limits.{longest_record};
ghost use Rattle.cob_records.specs.Forms.{HasBlockSize};
ghost use Rattle.cob_program_faults.specs.Texts.{LacksFile};
ghost use Rattle.cob_program_faults.specs.declared.fault.FileName.TheVariants.{Out};
ghost use Rattle.cob_program_ends.specs.Ends.{LacksEnds};

use crate::inputs::judge_output;
use crate::records::{WantedRecords, open_records};
use cob_program_faults::{CommandFault, FileName, create_part, opened, telling};
use cob_program_line::ConvertLine;
use cob_records::{FileSink, Telling, create_sink};
use cob_records_parts::{Choice, Incoming, PartSource};
use std::io::{Input, Print, Printer};
use std::rt::Files;

/// The two ends of a conversion: what gives its records, and what takes them.
#[derive(Drop)]
pub struct Ends<S, K> {
    pub source: S,
    pub sink: K,
}

/// Asks of the output of a conversion, and of the part that stands in for it where there is one, that neither is a file that is read.
fn judge_outputs<R: Files>(
    rt: &R,
    line: &ConvertLine<'_>,
    part: Option<&str>,
) -> Result<(), CommandFault>
    ensures { IfErr result LacksEnds }
{
    judge_output(rt, line, line.output)?;
    match part {
        Some(part) => judge_output(rt, line, part),
        None => Ok(()),
    }
}

/// The output of a conversion, which is made, or emptied where it is there; or its part.
fn output_of<'a, R: AllocGlobal + Files + Print>(
    rt: &'a R,
    line: &ConvertLine<'_>,
    part: Option<&str>,
) -> Result<FileSink<R::File, Printer<'a, R>>, CommandFault>
    ensures { IfErr result (LacksFile Out) }
{
    match part {
        Some(part) => opened(create_part(rt, line.output, part), FileName::Out),
        None => opened(create_sink(rt, line.output), FileName::Out),
    }
}

/// Which records a conversion chooses of its piece.
pub fn choice_of(line: &ConvertLine<'_>) -> Choice
    ensures skip { result.skip ≡ line.now.skip }
    ensures records { result.records ≡ line.now.records }
{
    Choice {
        skip: line.skip,
        records: line.records,
    }
}

/// Which records a conversion reads, of at most this length.
fn wanted_by<'a>(line: &ConvertLine<'a>, greatest: u16) -> WantedRecords<'a>
    ensures form { result.form ≡ line.now.forms.input }
    ensures greatest { result.greatest ≡ greatest }
    ensures from { result.from ≡ line.now.from }
    ensures bytes { result.bytes ≡ line.now.bytes }
    ensures first { result.first ≡ line.now.first }
    ensures skip { result.choice.skip ≡ line.now.skip }
    ensures records { result.choice.records ≡ line.now.records }
{
    WantedRecords {
        input: line.input,
        form: line.forms.input,
        greatest,
        from: line.from,
        bytes: line.bytes,
        first: line.first,
        choice: choice_of(line),
    }
}

/// Opens the ends of a conversion: the records that come, which have at most this length, of which only a piece is read where one is named and only those that
/// are chosen are given, and then its output or the part that stands in for it. Neither is opened where the output or the part is a file that is read, and the
/// output is not made where the records are not there.
///
/// # Errors
///
/// An output that is a file that is read, a file that is not opened or not made, a record that is passed over and can't be read, want of memory.
pub fn open_ends<'a, R: AllocGlobal + Files + Input + Print>(
    rt: &'a R,
    line: &ConvertLine<'_>,
    greatest: u16,
    part: Option<&str>,
) -> Result<
    Ends<Incoming<PartSource<R::File, R::Reader>>, FileSink<R::File, Printer<'a, R>>>,
    CommandFault,
>
    requires block { HasBlockSize line.now.forms.input }
    requires low { 0 < greatest }
    requires high { greatest ≤ longest_record }
    ensures { IfErr result LacksEnds }
{
    judge_outputs(rt, line, part)?;
    let source = open_records(rt, wanted_by(line, greatest))?;
    let sink = output_of(rt, line, part)?;
    Ok(Ends { source, sink })
}

/// How a run tells how far it is in its piece of the input, where that is asked for. How many bytes the chosen records of a piece have isn't known.
pub fn telling_piece<R: Files>(rt: &R, line: &ConvertLine<'_>) -> Option<Telling> {
    let telling = telling(rt, line.input, line.progress)?;
    if !choice_of(line).is_all() {
        return Some(Telling {
            size: None,
            ..telling
        });
    }
    let left = telling.size.map(|size| size.saturating_sub(line.from));
    let size = match (left, line.bytes) {
        (Some(left), Some(bytes)) => Some(left.min(bytes)),
        _ => left,
    };
    Some(Telling { size, ..telling })
}
