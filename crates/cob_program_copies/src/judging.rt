//! A text that was made, read once before it is handed on.

use crate::fault::BookRefusal;
use crate::told::{of_book, place_of};
use cob_copybook::{Book, BookFault, BookRule, Role};
use cob_copybook_text::{Copying, RecordText};
use cob_program_faults::FileName;
use cob_report_refusal_words::{MadeRefusal, RefusedBook, made_refusals};
use std::alloc::{AllocError, Global};

/// The most refusals that are told.
const MOST: usize = 20;

/// How the faults of a text that was made are told.
#[derive(Clone, Copy)]
pub(crate) struct Telling<'a> {
    /// The option that names its copybook.
    pub(crate) option: FileName,
    /// The file of that.
    pub(crate) path: &'a str,
    /// Whether each is told in words too.
    pub(crate) in_words: bool,
}

/// The option that chooses one of several records in the copybook that this option names, without its hyphens.
fn record_option(book: FileName) -> &'static str {
    match book {
        FileName::InBook => "in-record",
        FileName::OutBook => "out-record",
        _ => "record-name",
    }
}

/// The line that a line of a text that was made is made for.
fn own_line(line: u32, lines: &[u32]) -> u32 {
    match lines.get(line.saturating_sub(1) as usize) {
        Some(own) => *own,
        None => line,
    }
}

/// The fault of a text that was made, on the line that its own line was made for.
fn made_for(fault: BookFault, lines: &[u32]) -> BookFault {
    BookFault {
        rule: fault.rule,
        line: own_line(fault.line, lines),
    }
}

/// Adds what is told of a refusal, by the file and the line that its own line was made for.
fn push_refusal(
    alloc: Global,
    out: &mut String,
    telling: Telling<'_>,
    how: &Copying,
    lines: &[u32],
    refusal: &MadeRefusal,
) -> Result<(), AllocError> {
    let place = place_of(alloc, telling.path, how, own_line(refusal.line, lines))?;
    let words = refusal.words.as_str();
    let told_lines = words.strip_suffix("\n").unwrap_or(words);
    let told = format!(in alloc; "\n{place}: {told_lines}")?;
    out.push_str(&told)
}

/// The refusals of a text that was made, in words behind the line that tells the first.
fn in_words(
    alloc: Global,
    telling: Telling<'_>,
    role: Role,
    how: &Copying,
    made: &RecordText,
    first: String,
) -> Result<String, AllocError> {
    let mut out = first;
    let book = RefusedBook {
        file: telling.path,
        role,
        record_option: record_option(telling.option),
        text: made.text.as_slice(),
    };
    for refusal in &made_refusals(alloc, book, MOST)? {
        push_refusal(
            alloc,
            &mut out,
            telling,
            how,
            made.lines.as_slice(),
            refusal,
        )?;
    }
    Ok(out)
}

/// Why a text that was made is refused.
fn refusal_of(
    alloc: Global,
    telling: Telling<'_>,
    role: Role,
    how: &Copying,
    made: &RecordText,
    fault: BookFault,
) -> Result<BookRefusal, AllocError> {
    let first = of_book(
        alloc,
        telling.option,
        how,
        made_for(fault, made.lines.as_slice()),
    )?;
    if !telling.in_words {
        return Ok(BookRefusal::Refused(first));
    }
    let words = in_words(alloc, telling, role, how, made, first)?;
    Ok(BookRefusal::Refused(words))
}

/// The fault of a text, if it is no record description.
fn fault_of(alloc: Global, role: Role, text: &[u8]) -> Option<BookFault> {
    match Book::read(alloc, role, text) {
        Ok(_book) => None,
        Err(fault) => Some(fault),
    }
}

/// A text that was made, if it is a record description.
///
/// # Errors
///
/// The rule that it breaks; want of memory.
pub(crate) fn judged(
    alloc: Global,
    telling: Telling<'_>,
    role: Role,
    how: &Copying,
    made: RecordText,
) -> Result<Vec<u8>, BookRefusal> {
    let Some(fault) = fault_of(alloc, role, made.text.as_slice()) else {
        let RecordText {
            text,
            lines: _lines,
        } = made;
        return Ok(text);
    };
    if let BookRule::Memory = fault.rule {
        return Err(BookRefusal::Memory);
    }
    Err(refusal_of(alloc, telling, role, how, &made, fault)?)
}
