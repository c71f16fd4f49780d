//! The files that a command writes.

use cob_program_faults::{FileIdentity, loses, part_name};
use cob_program_line::{ConvertLine, Line};
use std::fmt;
use std::rt::Files;

/// Which of the files that a command writes one is.
#[derive(Clone, Copy)]
pub enum WrittenFile {
    Output,
    Rejects,
    Report,
}

impl fmt::Display for WrittenFile {
    /// The option that names it, without its hyphens.
    fn fmt<W: fmt::Write>(&self, f: &mut fmt::Formatter<W>) -> fmt::Result {
        match self {
            WrittenFile::Output => f.write_str("out"),
            WrittenFile::Rejects => f.write_str("rejects"),
            WrittenFile::Report => f.write_str("report"),
        }
    }
}

/// A file that a command writes, and its part, as far as they are there.
#[derive(Clone, Copy)]
struct Output {
    itself: Option<FileIdentity>,
    part: Option<FileIdentity>,
}

impl Output {
    /// None.
    fn none() -> Output {
        Output {
            itself: None,
            part: None,
        }
    }

    /// The file of this name, and the part that stands in for it.
    fn of<R: AllocGlobal + Files>(rt: &R, path: &str) -> Output {
        let part = match part_name(rt.alloc(), path) {
            Ok(part) => FileIdentity::of(rt, &part),
            Err(_) => None,
        };
        Output {
            itself: FileIdentity::of_output(rt, path),
            part,
        }
    }

    /// The file of this name, where one is named.
    fn of_some<R: AllocGlobal + Files>(rt: &R, path: Option<&str>) -> Output {
        match path {
            Some(path) => Output::of(rt, path),
            None => Output::none(),
        }
    }

    /// Whether writing it would lose what this file holds.
    fn loses(&self, file: Option<FileIdentity>) -> bool {
        loses(self.itself, file) || loses(self.part, file)
    }
}

/// The files that a command writes.
#[derive(Clone, Copy)]
pub struct Outputs {
    output: Output,
    rejects: Output,
    report: Output,
}

impl Outputs {
    /// None.
    fn none() -> Outputs {
        Outputs {
            output: Output::none(),
            rejects: Output::none(),
            report: Output::none(),
        }
    }

    /// Those of a conversion.
    fn of_conversion<R: AllocGlobal + Files>(rt: &R, line: &ConvertLine<'_>) -> Outputs {
        Outputs {
            output: Output::of(rt, line.output),
            rejects: Output::of_some(rt, line.rejects),
            report: Output::of_some(rt, line.report),
        }
    }

    /// Those of the command of a line.
    pub(crate) fn of<R: AllocGlobal + Files>(rt: &R, line: &Line<'_>) -> Outputs {
        match line {
            Line::Convert(line) => Outputs::of_conversion(rt, line),
            _ => Outputs::none(),
        }
    }

    /// The first that would lose what this file holds.
    pub(crate) fn lost_with(&self, file: Option<FileIdentity>) -> Option<WrittenFile> {
        if self.output.loses(file) {
            Some(WrittenFile::Output)
        } else if self.rejects.loses(file) {
            Some(WrittenFile::Rejects)
        } else if self.report.loses(file) {
            Some(WrittenFile::Report)
        } else {
            None
        }
    }
}
