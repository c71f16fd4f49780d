//! The ends of a conversion that sets rejected records aside.

ghost use Rattle.std.specs.Prelude.{◌<◌, ◌≤◌, IfErr};
ghost use Rattle.cob_limits.specs.Limits.{longest_record};
ghost use Rattle.cob_records.specs.Forms.{HasBlockSize};
ghost use Rattle.cob_program_ends.specs.Aside.{LacksAside, LacksAsideEnds, LosesOther};

use crate::ends::{Ends, open_ends};
use crate::inputs::Inputs;
use cob_program_faults::{
    CommandFault, FileIdentity, FileName, create_part, lead_to_one_file, opened,
};
use cob_program_line::ConvertLine;
use cob_records::{FileSink, create_sink};
use cob_records_parts::{Incoming, PartSource};
use std::fs;
use std::io::{Input, Print, Printer};
use std::rt::Files;

/// The names of the output and of the file for rejected records, or of the parts that stand in for both until all is done.
#[derive(Clone, Copy)]
pub struct OutputNames<'a> {
    pub output: &'a str,
    pub rejects: &'a str,
}

/// The ends of such a conversion: what gives its records, what takes those that they become, and what takes the rejected ones.
#[derive(Drop)]
pub struct AsideEnds<S, K> {
    pub incoming: S,
    pub sink: K,
    pub aside: K,
}

/// Asks of the file for rejected records that it is another one than the output, by whatever names.
fn judge_apart<R: Files>(rt: &R, output: &str, rejects: &str) -> Result<(), CommandFault>
    ensures { IfErr result LosesOther }
{
    if output == rejects
        || lead_to_one_file(
            FileIdentity::of_output(rt, output),
            FileIdentity::of_output(rt, rejects),
        )
    {
        return Err(CommandFault::OneFileAside(FileName::Out));
    }
    Ok(())
}

/// Asks of the file for rejected records that it is none of the files that are read, and not the output that is there, by whatever names.
fn judge_aside<R: Files>(rt: &R, line: &ConvertLine<'_>, rejects: &str) -> Result<(), CommandFault>
    ensures { IfErr result LosesOther }
{
    match Inputs::of(rt, line).lost_by(FileIdentity::of_output(rt, rejects)) {
        Some(name) => Err(CommandFault::OneFileAside(name)),
        None => judge_apart(rt, line.output, rejects),
    }
}

/// Asks this of the file for rejected records, and of the part that stands in for it where there is one.
fn judge_rejects<R: Files>(
    rt: &R,
    line: &ConvertLine<'_>,
    rejects: &str,
    parts: Option<OutputNames<'_>>,
) -> Result<(), CommandFault>
    ensures { IfErr result LosesOther }
{
    judge_aside(rt, line, rejects)?;
    match parts {
        Some(parts) => judge_aside(rt, line, parts.rejects),
        None => Ok(()),
    }
}

/// The file for rejected records, which is made, or emptied where it is there. The output is made by now, so that it is known whether that is
/// another file.
fn rejects_itself<'a, R: AllocGlobal + Files + Print>(
    rt: &'a R,
    line: &ConvertLine<'_>,
    rejects: &str,
) -> Result<FileSink<R::File, Printer<'a, R>>, CommandFault>
    ensures { IfErr result LacksAside }
{
    match judge_apart(rt, line.output, rejects) {
        Ok(()) => opened(create_sink(rt, rejects), FileName::Rejects),
        Err(fault) => Err(fault),
    }
}

/// The part of the file for rejected records. That of the output is made by now, so that it is known whether either is that.
fn rejects_part<'a, R: AllocGlobal + Files + Print>(
    rt: &'a R,
    rejects: &str,
    parts: OutputNames<'_>,
) -> Result<FileSink<R::File, Printer<'a, R>>, CommandFault>
    ensures { IfErr result LacksAside }
{
    judge_apart(rt, parts.output, rejects)?;
    match judge_apart(rt, parts.output, parts.rejects) {
        Ok(()) => opened(create_part(rt, rejects, parts.rejects), FileName::Rejects),
        Err(fault) => Err(fault),
    }
}

/// Takes away the part of the output, which was made a moment ago and is empty: nothing will come into it, and where it is there no further conversion
/// with the same output begins.
fn leave_no_part<R: Files>(rt: &R, part: &str) {
    // Where the system does not, it stays, and the fault that is told stands first.
    let _ = fs::remove_file(rt, part);
}

/// Opens the ends of a conversion: the records that come, which have at most this length, then its output, and last the file for rejected records; or
/// the parts that stand in for these two. None is opened where a file that is made is one that is read, or where both that are made are one file that
/// is there. Where the second part is not made, the first does not stay.
///
/// # Errors
///
/// A file that is made and is another one, a file that is not opened or not made, want of memory.
pub fn open_aside_ends<'a, R: AllocGlobal + Files + Input + Print>(
    rt: &'a R,
    line: &ConvertLine<'_>,
    greatest: u16,
    rejects: &str,
    parts: Option<OutputNames<'_>>,
) -> Result<
    AsideEnds<Incoming<PartSource<R::File, R::Reader>>, FileSink<R::File, Printer<'a, R>>>,
    CommandFault,
>
    requires block { HasBlockSize line.now.forms.input }
    requires low { 0 < greatest }
    requires high { greatest ≤ longest_record }
    ensures { IfErr result LacksAsideEnds }
{
    judge_rejects(rt, line, rejects, parts)?;
    let part = parts.map(|parts| parts.output);
    let Ends { source, sink } = open_ends(rt, line, greatest, part)?;
    let made = match parts {
        Some(parts) => rejects_part(rt, rejects, parts),
        None => rejects_itself(rt, line, rejects),
    };
    match made {
        Ok(aside) => Ok(AsideEnds {
            incoming: source,
            sink,
            aside,
        }),
        Err(fault) => {
            if let Some(parts) = parts {
                leave_no_part(rt, parts.output);
            }
            Err(fault)
        }
    }
}
