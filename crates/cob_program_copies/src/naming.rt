//! How the records of both copybooks are named.

use crate::fault::BookRefusal;
use crate::told::of_naming;
use cob_copybook::Role;
use cob_program_faults::FileName;
use cob_program_line::{Handing, Line};
use cob_program_roles::{Ways, named_by_role};
use std::alloc::Global;

/// How the records of both copybooks are named.
#[derive(Clone, Copy, PartialEq, Eq)]
pub(crate) enum RecordNames {
    /// As their copybooks say.
    Own,
    /// IN-RECORD and OUT-RECORD, by what each is.
    ByRole(Ways),
}

/// Which ways a command goes between the records of its copybooks.
fn ways_of(line: &Line<'_>) -> Ways {
    match line {
        Line::Lossless(_) => Ways::ThereAndBack,
        _ => Ways::There,
    }
}

impl RecordNames {
    /// As the option says.
    ///
    /// # Errors
    ///
    /// It says neither `own` nor `in-out`.
    pub(crate) fn of(options: &Handing<'_>, line: &Line<'_>) -> Result<RecordNames, BookRefusal> {
        let Some(said) = options.records_as else {
            return Ok(RecordNames::Own);
        };
        match said {
            "own" => Ok(RecordNames::Own),
            "in-out" => Ok(RecordNames::ByRole(ways_of(line))),
            _ => Err(BookRefusal::BadRecordsAs),
        }
    }

    /// The text of a copybook in this role, whose record is named so.
    ///
    /// # Errors
    ///
    /// The record can't be given that name; want of memory.
    pub(crate) fn named(
        self,
        alloc: Global,
        file: FileName,
        role: Role,
        text: Vec<u8>,
    ) -> Result<Vec<u8>, BookRefusal> {
        let RecordNames::ByRole(ways) = self else {
            return Ok(text);
        };
        match named_by_role(alloc, role, ways, text)? {
            Some(text) => Ok(text),
            None => Err(of_naming(alloc, file, role)?),
        }
    }
}
