//! Faults of texts that are copied, in words.

use crate::fault::BookRefusal;
use cob_copybook::{BookFault, Role};
use cob_copybook_text::{Copying, RecordTextFault};
use cob_program_faults::FileName;
use cob_program_roles::role_name;
use cob_source::{SourceFault, SourceRule};
use cob_source_copies::{CopyFault, CopyRule, FetchFault, ShelfFault, TextName, line_numbered};
use std::alloc::{AllocError, Global};
use std::str;

/// The name of a text, and of its library.
fn words_of_name(alloc: Global, named: &TextName) -> Result<String, AllocError> {
    let name = str::from_utf8(named.name.as_slice()).unwrap_or("?");
    match &named.library {
        Some(library) => {
            let library = str::from_utf8(library.as_slice()).unwrap_or("?");
            format!(in alloc; "{name} OF {library}")
        }
        None => format!(in alloc; "{name}"),
    }
}

/// A line of a text that is copied, with that one's name.
fn words_of_own_line(alloc: Global, named: &TextName, line: u32) -> Result<String, AllocError> {
    let name = words_of_name(alloc, named)?;
    format!(in alloc; "line {line} of {name}")
}

/// A line by its number as it is counted on: of the copybook itself, or of a text that it copies, with that one's name.
fn words_of_line(alloc: Global, how: &Copying, number: u32) -> Result<String, AllocError> {
    if number == 0 {
        return format!(in alloc; "line 0");
    }
    let at = line_numbered(number);
    let line = at.line;
    let Copying::CarriedOut(library) = how else {
        return format!(in alloc; "line {number}");
    };
    let Some(before) = (at.text as usize).checked_sub(1) else {
        return format!(in alloc; "line {line}");
    };
    match library.texts.get(before) {
        Some(text) => words_of_own_line(alloc, &text.named, line),
        None => format!(in alloc; "line {line}"),
    }
}

/// The fault of a copybook whose text was made, told by the line that it was made for.
pub(crate) fn of_book(
    alloc: Global,
    file: FileName,
    how: &Copying,
    fault: BookFault,
) -> Result<String, AllocError> {
    let line = words_of_line(alloc, how, fault.line)?;
    let rule = fault.rule;
    format!(in alloc; "{file} {rule} {line}")
}

/// A line of a text that is copied, as a place.
fn place_in_text(alloc: Global, named: &TextName, line: u32) -> Result<String, AllocError> {
    let name = words_of_name(alloc, named)?;
    format!(in alloc; "{name}:{line}")
}

/// A line by its number as it is counted on, as a place: of the copybook itself, by its file, or of a text that it copies, by that one's name.
pub(crate) fn place_of(
    alloc: Global,
    path: &str,
    how: &Copying,
    number: u32,
) -> Result<String, AllocError> {
    if number == 0 {
        return format!(in alloc; "{path}");
    }
    let Copying::CarriedOut(library) = how else {
        return format!(in alloc; "{path}:{number}");
    };
    let at = line_numbered(number);
    let line = at.line;
    let Some(before) = (at.text as usize).checked_sub(1) else {
        return format!(in alloc; "{path}:{line}");
    };
    match library.texts.get(before) {
        Some(text) => place_in_text(alloc, &text.named, line),
        None => format!(in alloc; "{path}:{line}"),
    }
}

/// The fault of a copybook that copies texts, told by the line that it is on.
fn words_of_copy(
    alloc: Global,
    file: FileName,
    how: &Copying,
    fault: CopyFault,
) -> Result<String, AllocError> {
    let line = words_of_line(alloc, how, fault.line)?;
    let rule = fault.rule;
    format!(in alloc; "{file} B17 {rule} {line}")
}

/// What is told where no text is made of a copybook.
pub(crate) fn of_text(
    alloc: Global,
    file: FileName,
    how: &Copying,
    name: &str,
    fault: RecordTextFault,
) -> Result<BookRefusal, AllocError> {
    let words = match fault {
        RecordTextFault::Memory => return Ok(BookRefusal::Memory),
        RecordTextFault::Record(_) => format!(in alloc; "{file} B16 {name}")?,
        RecordTextFault::TooLong => format!(in alloc; "{file} B17 C4")?,
        RecordTextFault::Copy(fault) => words_of_copy(alloc, file, how, fault)?,
    };
    Ok(BookRefusal::Refused(words))
}

/// What is told of a copybook whose record can't be given the name of its role.
pub(crate) fn of_naming(
    alloc: Global,
    file: FileName,
    role: Role,
) -> Result<BookRefusal, AllocError> {
    let name = str::from_utf8(role_name(role)).unwrap_or("?");
    Ok(BookRefusal::Refused(format!(in alloc; "{file} B18 {name}")?))
}

/// What is told of a text that breaks a rule of the reference format.
fn of_source(
    alloc: Global,
    file: FileName,
    named: &TextName,
    fault: SourceFault,
) -> Result<BookRefusal, AllocError> {
    if let SourceRule::Memory = fault.rule {
        return Ok(BookRefusal::Memory);
    }
    let name = words_of_name(alloc, named)?;
    let SourceFault { rule, line } = fault;
    Ok(BookRefusal::Refused(format!(in alloc; "{file} {rule} line {line} of {name}")?))
}

/// What is told of a copybook in free format that breaks a rule of it.
pub(crate) fn of_own_source(
    alloc: Global,
    file: FileName,
    fault: SourceFault,
) -> Result<BookRefusal, AllocError> {
    let SourceFault { rule, line } = fault;
    Ok(BookRefusal::Refused(format!(in alloc; "{file} {rule} line {line}")?))
}

/// What is told of a text that breaks a rule of COPY.
fn of_copy(
    alloc: Global,
    file: FileName,
    named: &TextName,
    fault: CopyFault,
) -> Result<BookRefusal, AllocError> {
    let CopyFault { rule, line } = fault;
    if rule == CopyRule::Memory || line == 0 {
        return Ok(BookRefusal::Memory);
    }
    let name = words_of_name(alloc, named)?;
    let line = line_numbered(line).line;
    Ok(BookRefusal::Refused(format!(in alloc; "{file} B17 {rule} line {line} of {name}")?))
}

/// What is told of a text that is not there, or not where it may be copied.
fn of_place(
    alloc: Global,
    file: FileName,
    code: &str,
    named: &TextName,
) -> Result<BookRefusal, AllocError> {
    let name = words_of_name(alloc, named)?;
    Ok(BookRefusal::Refused(format!(in alloc; "{file} B17 {code} {name}")?))
}

/// What is told of a text that is there, and of which a read failed.
fn of_unread(alloc: Global, file: FileName, named: &TextName) -> Result<BookRefusal, AllocError> {
    let name = words_of_name(alloc, named)?;
    Ok(BookRefusal::NotRead(format!(in alloc; "cannot read {name} of {file}")?))
}

/// What is told where the texts that a copybook copies are not fetched.
pub(crate) fn of_fetching(
    alloc: Global,
    file: FileName,
    fault: &FetchFault,
) -> Result<BookRefusal, AllocError> {
    match fault {
        FetchFault::Source(named, fault) => of_source(alloc, file, named, *fault),
        FetchFault::Copy(named, fault) => of_copy(alloc, file, named, *fault),
        FetchFault::Unknown(named) => of_place(alloc, file, "C2", named),
        FetchFault::WithinItself(named) => of_place(alloc, file, "C5", named),
        FetchFault::TooDeep(named) => of_place(alloc, file, "C6", named),
        FetchFault::TooManyTexts(named) => of_place(alloc, file, "C7", named),
        FetchFault::Shelf(named, ShelfFault::Unreadable) => of_unread(alloc, file, named),
        FetchFault::Shelf(_, ShelfFault::Memory) | FetchFault::Memory => Ok(BookRefusal::Memory),
    }
}
