//! The file of a report: its part, which is made before the run, and which comes into its place behind it.

ghost use Rattle.std.specs.Prelude.{◌≡◌};
ghost use Rattle.cob_program_report.specs.Ends.{status_of_report};

use cob_convert::Status;
use cob_program_ends::Inputs;
use cob_program_faults::{
    FileIdentity, FileName, create_part, lead_to_one_file, part_name, put_in_place,
};
use cob_program_line::ConvertLine;
use cob_records::{FileSink, OpenFault, WriteSink};
use std::io::{Print, Printer, Write};
use std::rt::Files;
use std::{fmt, fs};

/// Why a report is not told to be in its place.
#[derive(Clone, Copy, Debug, PartialEq, Eq)]
pub(crate) enum ReportFault {
    /// It would be one with another file of the conversion.
    OneFile(FileName),
    /// The system does not make it.
    NotMade,
    /// It could not be written, or not be put in its place; or it is there, and its folder was not brought to the device.
    NotWritten,
    /// Memory was refused.
    Memory,
}

impl fmt::Display for ReportFault {
    fn fmt<W: fmt::Write>(&self, f: &mut fmt::Formatter<W>) -> fmt::Result {
        match self {
            ReportFault::OneFile(name) => write!(f, "{name} and report are one file"),
            ReportFault::NotMade => write!(f, "cannot open report"),
            ReportFault::NotWritten => write!(f, "cannot write report"),
            ReportFault::Memory => write!(f, "memory"),
        }
    }
}

impl ReportFault {
    /// How the program ends.
    pub(crate) fn status(self) -> Status
        ensures { result ≡ status_of_report self }
    {
        match self {
            ReportFault::OneFile(_) => Status::Malformed,
            ReportFault::NotMade | ReportFault::NotWritten => Status::Device,
            ReportFault::Memory => Status::Memory,
        }
    }
}

/// The part of a report.
#[derive(Drop)]
pub(crate) struct ReportPart<K> {
    /// Its name.
    name: String,
    /// Where it is written to.
    sink: K,
}

/// Whether a report would be one with a file that is written, by whatever names.
fn is_written<R: Files>(rt: &R, report: &str, other: &str) -> bool {
    report == other
        || lead_to_one_file(
            FileIdentity::of_output(rt, report),
            FileIdentity::of_output(rt, other),
        )
}

/// The other file of a conversion that a report would be one with, by whatever names.
fn other_of<R: Files>(rt: &R, line: &ConvertLine<'_>, report: &str) -> Option<FileName> {
    let read = Inputs::of(rt, line).lost_by(FileIdentity::of_output(rt, report));
    if read.is_some() {
        return read;
    }
    if is_written(rt, report, line.output) {
        return Some(FileName::Out);
    }
    match line.rejects {
        Some(rejects) if is_written(rt, report, rejects) => Some(FileName::Rejects),
        _ => None,
    }
}

/// Takes the part of a report away.
fn remove_part<R: Files>(rt: &R, part: &str) {
    // Where the system does not, it stays, and what is told stands first.
    let _ = fs::remove_file(rt, part);
}

/// Makes the part of a report. It is empty, and no other file of the conversion, though one that is not there yet has its name.
///
/// # Errors
///
/// A report that would be one with another file of the conversion, one that is not made, want of memory.
pub(crate) fn open_report<'r, R: AllocGlobal + Files + Print>(
    rt: &'r R,
    line: &ConvertLine<'_>,
    path: &str,
) -> Result<ReportPart<FileSink<R::File, Printer<'r, R>>>, ReportFault> {
    if let Some(other) = other_of(rt, line, path) {
        return Err(ReportFault::OneFile(other));
    }
    let Ok(name) = part_name(rt.alloc(), path) else {
        return Err(ReportFault::Memory);
    };
    let sink = match create_part(rt, path, &name) {
        Ok(sink) => sink,
        Err(OpenFault::NotOpened) => return Err(ReportFault::NotMade),
        Err(OpenFault::Memory) => return Err(ReportFault::Memory),
    };
    // Now that it is there, it is known by all its names.
    if let Some(other) = other_of(rt, line, &name) {
        remove_part(rt, &name);
        return Err(ReportFault::OneFile(other));
    }
    Ok(ReportPart { name, sink })
}

/// Takes the part of a report away, which nothing is written to.
pub(crate) fn leave_report<R: Files, K: Drop>(rt: &R, part: ReportPart<K>) {
    remove_part(rt, &part.name);
}

/// Writes a report to its part, and puts that in its place, where no output has come there.
///
/// # Errors
///
/// A report that would be one with an output that is there now, a device that fails.
pub(crate) fn close_report<'r, R: AllocGlobal + Files + Print>(
    rt: &'r R,
    line: &ConvertLine<'_>,
    path: &str,
    part: ReportPart<FileSink<R::File, Printer<'r, R>>>,
    text: &str,
) -> Result<(), ReportFault> {
    let ReportPart { name, sink } = part;
    if let Some(other) = other_of(rt, line, path) {
        remove_part(rt, &name);
        return Err(ReportFault::OneFile(other));
    }
    let mut writer = sink.into_inner();
    if writer.write_all(text.as_bytes()).is_err() || writer.flush().is_err() {
        return Err(ReportFault::NotWritten);
    }
    match put_in_place(rt, WriteSink::new(writer), &name, path) {
        Ok(()) => Ok(()),
        Err(_) => Err(ReportFault::NotWritten),
    }
}
