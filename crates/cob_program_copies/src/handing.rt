//! Copybooks handed over.

ghost use Rattle.std.specs.Prelude.{IfErr};
ghost use Rattle.cob_program_copies.specs.Handing.{HasBooks, LacksHanding};
ghost use Rattle.cob_program_faults.specs.Texts.{LacksText};

use crate::books::{BookFiles, HandedBook, IN_BOOK, LISTED_BOOK, OUT_BOOK, books_of};
use crate::exchanges::exchanges_of;
use crate::fault::{BookRefusal, HandingFault};
use crate::folders::Folders;
use crate::judging::{Telling, judged};
use crate::naming::RecordNames;
use crate::outputs::Outputs;
use crate::spacing::Spacing;
use crate::told::{of_fetching, of_own_source, of_text};
use cob_copybook::Role;
use cob_copybook_text::{Copying, RecordTextFault, record_text, text_saying};
use cob_program_faults::{CommandFault, FileName, text_of};
use cob_program_line::{Handing, Line};
use cob_source::{SourceFault, SourceRule, TextFormat, Token, tokens_in};
use cob_source_copies::fetch;
use std::alloc::Global;
use std::rt::Files;

/// A copybook of a command.
#[derive(Clone, Copy)]
struct BookOption<'a> {
    /// The option that names its file.
    file: FileName,
    /// What it describes.
    role: Role,
    /// Where its command finds it.
    found_at: &'static str,
    /// Its file.
    path: &'a str,
    /// The record of it that is meant, where one is named.
    record: Option<&'a str>,
}

/// What is asked of all copybooks of a line.
#[derive(Clone, Copy)]
struct Asked<'t, 'a> {
    /// What the options say.
    options: &'t Handing<'a>,
    /// The files that the command writes.
    outputs: &'t Outputs,
    /// How the texts stand on their lines.
    spacing: Spacing,
    /// How the records of both copybooks are named.
    names: RecordNames,
    /// Whether refusals of texts that are made are told in words too.
    in_words: bool,
}

impl<'a> BookOption<'a> {
    /// How the faults of the text that is made of it are told.
    fn telling(self, handing: &Asked<'_, '_>) -> Telling<'a> {
        Telling {
            option: self.file,
            path: self.path,
            in_words: handing.in_words,
        }
    }
}

/// The texts that these words copy, from the first of these folders that has each.
fn fetched<R: AllocGlobal + Files>(
    rt: &R,
    file: FileName,
    handing: &Asked<'_, '_>,
    folders: &str,
    words: &[Token],
) -> Result<Copying, BookRefusal> {
    let alloc = rt.alloc();
    let mut shelf = Folders::new(rt, folders, *handing.outputs, handing.spacing);
    match fetch(alloc, &mut shelf, words) {
        Ok(library) => match shelf.lost() {
            Some(output) => Err(BookRefusal::OneFile(file, output)),
            None => Ok(Copying::CarriedOut(library)),
        },
        Err(fault) => Err(of_fetching(alloc, file, &fault)?),
    }
}

/// The texts that these words copy, or the exchanges in them, as the options say.
fn copying_of<R: AllocGlobal + Files>(
    rt: &R,
    file: FileName,
    handing: &Asked<'_, '_>,
    words: &[Token],
) -> Result<Copying, BookRefusal> {
    if let Some(said) = handing.options.replace {
        return Ok(Copying::Replaced(exchanges_of(rt.alloc(), said)?));
    }
    match handing.options.copy_dirs {
        Some(folders) => fetched(rt, file, handing, folders, words),
        None => Ok(Copying::Left),
    }
}

/// The text of a copybook that breaks a rule of its format: itself, where its command tells that.
///
/// # Errors
///
/// The rule, of a text in free format; want of memory.
fn unread(
    alloc: Global,
    file: FileName,
    format: TextFormat,
    fault: SourceFault,
    text: Vec<u8>,
) -> Result<Vec<u8>, BookRefusal> {
    if let SourceRule::Memory = fault.rule {
        return Err(BookRefusal::Memory);
    }
    match format {
        TextFormat::Reference => Ok(text),
        TextFormat::Free => Err(of_own_source(alloc, file, fault)?),
    }
}

/// A text in reference format that says the words of a copybook in free format.
///
/// # Errors
///
/// The words have no room in one text; the text that is made is refused; want of memory.
fn in_columns(
    alloc: Global,
    book: BookOption<'_>,
    handing: &Asked<'_, '_>,
    words: &[Token],
) -> Result<Vec<u8>, BookRefusal> {
    match text_saying(alloc, words)? {
        Some(made) => judged(
            alloc,
            book.telling(handing),
            book.role,
            &Copying::Left,
            made,
        ),
        None => Err(of_text(
            alloc,
            book.file,
            &Copying::Left,
            "",
            RecordTextFault::TooLong,
        )?),
    }
}

/// The text of a copybook whose words are all meant as they stand: itself, or of one in free format one in reference format that says them.
///
/// # Errors
///
/// The words have no room in one text; the text that is made is refused; want of memory.
fn unchanged(
    alloc: Global,
    book: BookOption<'_>,
    handing: &Asked<'_, '_>,
    words: &[Token],
    text: Vec<u8>,
) -> Result<Vec<u8>, BookRefusal> {
    match handing.spacing.format {
        TextFormat::Reference => Ok(text),
        TextFormat::Free => in_columns(alloc, book, handing, words),
    }
}

/// The text that is made of these words, with the texts that they copy and the record that is chosen, if one is: itself, where nothing is done to it.
fn text_of_record(
    alloc: Global,
    book: BookOption<'_>,
    handing: &Asked<'_, '_>,
    how: &Copying,
    chosen: Option<&str>,
    words: &[Token],
    text: Vec<u8>,
) -> Result<Vec<u8>, BookRefusal> {
    let name = chosen.unwrap_or("");
    match record_text(alloc, how, bytes_of(chosen), words) {
        Ok(None) => unchanged(alloc, book, handing, words, text),
        Ok(Some(made)) => judged(alloc, book.telling(handing), book.role, how, made),
        Err(fault) => Err(of_text(alloc, book.file, how, name, fault)?),
    }
}

/// The bytes of a text, if there is one.
fn bytes_of(text: Option<&str>) -> Option<&[u8]> {
    match text {
        Some(text) => Some(text.as_bytes()),
        None => None,
    }
}

/// The text that is made of these words, with the texts that they copy: itself, where nothing is done to it.
fn text_copied(
    alloc: Global,
    book: BookOption<'_>,
    handing: &Asked<'_, '_>,
    how: &Copying,
    words: &[Token],
    text: Vec<u8>,
) -> Result<Vec<u8>, BookRefusal> {
    let Some(record) = book.record else {
        return text_of_record(alloc, book, handing, how, None, words, text);
    };
    match record.to_ascii_uppercase(alloc) {
        Ok(name) => text_of_record(alloc, book, handing, how, Some(name.as_str()), words, text),
        Err(_) => Err(BookRefusal::Memory),
    }
}

/// The text that is made of a copybook with these words: itself, where nothing is done to it.
fn text_made<R: AllocGlobal + Files>(
    rt: &R,
    book: BookOption<'_>,
    handing: &Asked<'_, '_>,
    words: &[Token],
    text: Vec<u8>,
) -> Result<Vec<u8>, BookRefusal> {
    match copying_of(rt, book.file, handing, words) {
        Ok(how) => text_copied(rt.alloc(), book, handing, &how, words, text),
        Err(refusal) => Err(refusal),
    }
}

/// The text of a copybook as it is handed over: itself, where nothing is done to it, or where it breaks a rule of the reference format, which its command tells.
fn text_handed<R: AllocGlobal + Files>(
    rt: &R,
    book: BookOption<'_>,
    handing: &Asked<'_, '_>,
    text: Vec<u8>,
) -> Result<Vec<u8>, BookRefusal> {
    let alloc = rt.alloc();
    let format = handing.spacing.format;
    let text = handing.spacing.spaced(alloc, text)?;
    match tokens_in(alloc, format, text.as_slice()) {
        Ok(words) => text_made(rt, book, handing, words.as_slice(), text),
        Err(fault) => unread(alloc, book.file, format, fault, text),
    }
}

/// Puts a copybook behind those that are handed over.
fn push_handed<'a, R: AllocGlobal + Files>(
    rt: &R,
    book: BookOption<'a>,
    handing: &Asked<'_, '_>,
    text: Vec<u8>,
    out: &mut Vec<HandedBook<'a>>,
) -> Result<(), HandingFault>
    ensures { IfErr result LacksHanding }
{
    let text = text_handed(rt, book, handing, text)?;
    let text = handing.names.named(rt.alloc(), book.file, book.role, text)?;
    out.push(HandedBook {
        found_at: book.found_at,
        path: book.path,
        text,
    })?;
    Ok(())
}

/// The text in the file of a copybook.
fn read_of<R: AllocGlobal + Files>(rt: &R, book: BookOption<'_>) -> Result<Vec<u8>, CommandFault>
    ensures { IfErr result (LacksText book.entry.file) }
{
    text_of(rt, book.path, book.file)
}

/// Hands the copybook of a listing over.
fn hand_one<'a, R: AllocGlobal + Files>(
    rt: &R,
    path: &'a str,
    handing: &Asked<'_, 'a>,
) -> Result<Vec<HandedBook<'a>>, HandingFault>
    ensures { IfErr result LacksHanding }
{
    let book = BookOption {
        file: FileName::Book,
        role: Role::In,
        found_at: LISTED_BOOK,
        path,
        record: handing.options.record,
    };
    let text = match read_of(rt, book) {
        Ok(text) => text,
        Err(fault) => return Err(HandingFault::File(fault)),
    };
    let mut out = Vec::new(rt.alloc());
    push_handed(rt, book, handing, text, &mut out)?;
    Ok(out)
}

/// Hands two copybooks with these texts over.
fn hand_texts<'a, R: AllocGlobal + Files>(
    rt: &R,
    in_book: BookOption<'a>,
    in_text: Vec<u8>,
    out_book: BookOption<'a>,
    out_text: Vec<u8>,
    handing: &Asked<'_, '_>,
) -> Result<Vec<HandedBook<'a>>, HandingFault>
    ensures { IfErr result LacksHanding }
{
    let mut out = Vec::new(rt.alloc());
    push_handed(rt, in_book, handing, in_text, &mut out)?;
    push_handed(rt, out_book, handing, out_text, &mut out)?;
    Ok(out)
}

/// Hands the copybooks of the input record and of the output record over. Both files are read first.
fn hand_both<'a, R: AllocGlobal + Files>(
    rt: &R,
    in_path: &'a str,
    out_path: &'a str,
    handing: &Asked<'_, 'a>,
) -> Result<Vec<HandedBook<'a>>, HandingFault>
    ensures { IfErr result LacksHanding }
{
    let in_book = BookOption {
        file: FileName::InBook,
        role: Role::In,
        found_at: IN_BOOK,
        path: in_path,
        record: handing.options.in_record,
    };
    let out_book = BookOption {
        file: FileName::OutBook,
        role: Role::Out,
        found_at: OUT_BOOK,
        path: out_path,
        record: handing.options.out_record,
    };
    let in_text = match read_of(rt, in_book) {
        Ok(text) => text,
        Err(fault) => return Err(HandingFault::File(fault)),
    };
    match read_of(rt, out_book) {
        Ok(out_text) => hand_texts(rt, in_book, in_text, out_book, out_text, handing),
        Err(fault) => Err(HandingFault::File(fault)),
    }
}

/// Hands these copybooks over.
fn hand_files<'a, R: AllocGlobal + Files>(
    rt: &R,
    files: BookFiles<'a>,
    asked: &Asked<'_, 'a>,
) -> Result<Vec<HandedBook<'a>>, HandingFault>
    ensures { IfErr result LacksHanding }
{
    match files {
        BookFiles::One(book) => hand_one(rt, book, asked),
        BookFiles::Both(in_book, out_book) => hand_both(rt, in_book, out_book, asked),
    }
}

/// The copybooks of a line as they are handed over to its command: none, where it reads none.
///
/// # Errors
///
/// A file that is not opened or not read; a copybook that is refused, or a text that it copies; an exchange that is none, a bad number of columns between tab
/// stops, or bad names of records; want of memory. What is wrong with a text that is made is told in words too, where that is asked for.
pub fn hand_over<'a, R: AllocGlobal + Files>(
    rt: &R,
    line: &Line<'a>,
    handing: &Handing<'a>,
    in_words: bool,
) -> Result<Vec<HandedBook<'a>>, HandingFault>
    ensures lacks { IfErr result LacksHanding }
    ensures books { IfErr result (λ _. HasBooks line.now) }
{
    let Some(files) = books_of(line) else {
        return Ok(Vec::new(rt.alloc()));
    };
    let spacing = match Spacing::of(handing) {
        Ok(spacing) => spacing,
        Err(refusal) => return Err(HandingFault::Book(refusal)),
    };
    let names = match RecordNames::of(handing, line) {
        Ok(names) => names,
        Err(refusal) => return Err(HandingFault::Book(refusal)),
    };
    let outputs = Outputs::of(rt, line);
    let asked = Asked {
        options: handing,
        outputs: &outputs,
        spacing,
        names,
        in_words,
    };
    hand_files(rt, files, &asked)
}
