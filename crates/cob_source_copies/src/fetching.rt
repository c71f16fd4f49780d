//! Texts fetched for words that copy them.

ghost use Rattle.std.specs.Prelude.{◌≡◌, ◌*◌, ◌+◌, ℕ, [], List, map, length, IfOk, IsTrue, OnOk};
ghost use Rattle.std.specs.List.{AllByRecursion, flat_map};
ghost use Rattle.cob_limits.specs.Limits.{longest_text};
ghost use Rattle.cob_source.specs.Tokens.{lexemes};
ghost use Rattle.cob_source.specs.Formats.{AreWordsIn};
ghost use Rattle.cob_source.specs.declared.format.TextFormat.{TextFormat};
ghost use Rattle.cob_source_copies.specs.Statements.{written_text_name};
ghost use Rattle.cob_source_copies.specs.Texts.{BeginWithParts, TextPart, copied_text};
ghost use Rattle.cob_source_copies.specs.Libraries.{LibraryGrows, IsTextAdded, IsKnown, MakeLibrary, NamedText, names_in_part, on_line};

use crate::adding::counted_on;
use crate::fetch_fault::{FetchFault, ShelfFault};
use crate::library::{Library, is_one_name};
use crate::name::{TextName, copy_of_name};
use crate::wanted::names_wanted;
use cob_limits::{MAX_COPIED_TEXTS, MAX_COPY_DEPTH, MAX_TEXT_BYTES};
use cob_source::{TextFormat, Token, tokens_in};
use std::alloc::{AllocError, Global};

/// Where texts are found by their names.
pub trait Shelf {
    /// The text of this name, if there is one.
    ///
    /// # Errors
    ///
    /// It can't be read, or memory was refused.
    fn text(&mut self, alloc: Global, named: &TextName) -> Result<Option<Vec<u8>>, ShelfFault>;

    /// How its texts stand on their lines.
    fn format(&self) -> TextFormat;
}

/// Whether a text of this name is open.
fn is_open(opened: &[TextName], named: &TextName) -> bool {
    let mut rest = opened;
    while let Some((first, more)) = rest.split_first() {
        if is_one_name(first, named) {
            return true;
        }
        rest = more;
    }
    false
}

/// The names of texts that are open, and one more.
///
/// # Errors
///
/// Where no memory is left.
fn with_opened(
    alloc: Global,
    opened: &[TextName],
    named: &TextName,
) -> Result<Vec<TextName>, AllocError>
    ensures { IfOk result (λ v. length v.items ≡ length opened.now + 1) }
{
    let mut out = Vec::new(alloc);
    let mut rest = opened;
    while let Some((first, more)) = rest.split_first() {
        out.push(copy_of_name(alloc, first)?)?;
        rest = more;
    }
    out.push(copy_of_name(alloc, named)?)?;
    Ok(out)
}

/// The words of the text of this name.
///
/// # Errors
///
/// The shelf has none, or gives no answer; the text breaks a rule of its format; memory was refused.
fn words_on<S: Shelf>(
    alloc: Global,
    shelf: &mut S,
    named: &TextName,
) -> Result<Vec<Token>, FetchFault>
    ensures { IfOk result (λ v. (format : TextFormat) × (text : List ℕ) × AreWordsIn format text (lexemes v.items)) }
{
    let told = copy_of_name(alloc, named)?;
    let format = shelf.format();
    match shelf.text(alloc, named) {
        Ok(Some(text)) => match tokens_in(alloc, format, text.as_slice()) {
            Ok(words) => Ok(words),
            Err(fault) => Err(FetchFault::Source(told, fault)),
        },
        Ok(None) => Err(FetchFault::Unknown(told)),
        Err(fault) => Err(FetchFault::Shelf(told, fault)),
    }
}

/// Puts a text with these words behind those of a library, its lines counted on.
///
/// # Errors
///
/// The library has as many texts as one may have; the words break a rule of COPY; memory was refused.
fn put_text(
    alloc: Global,
    named: TextName,
    words: &[Token],
    library: &mut Library,
) -> Result<(), FetchFault>
    ensures { OnOk result (IsTextAdded (written_text_name named)
        (map (on_line ((length library.old.texts.items + 1) * longest_text)) (lexemes words.now))
        (map copied_text library.old.texts.items) (map copied_text library.new.texts.items)) }
{
    let count = library.texts.len();
    if count >= MAX_COPIED_TEXTS {
        return Err(FetchFault::TooManyTexts(named));
    }
    let lines = (count as u32 + 1) * MAX_TEXT_BYTES as u32;
    let counted = counted_on(alloc, lines, words)?;
    let told = copy_of_name(alloc, &named)?;
    match library.add(alloc, named, counted.as_slice()) {
        Ok(()) => Ok(()),
        Err(fault) => Err(FetchFault::Copy(told, fault)),
    }
}

/// Fetches the text of this name with those that it copies, if it isn't in the library.
///
/// # Errors
///
/// Why it can't be had.
#[cycle(fetching)]
fn fetch_text<S: Shelf>(
    alloc: Global,
    shelf: &mut S,
    opened: &[TextName],
    named: TextName,
    library: &mut Library,
) -> Result<(), FetchFault>
    ensures grows { OnOk result (LibraryGrows (map copied_text library.old.texts.items)
        (map copied_text library.new.texts.items)) }
    ensures known { OnOk result (IsKnown (map copied_text library.new.texts.items)
        (written_text_name named)) }
{
    if library.has_text(&named) {
        return Ok(());
    }
    if is_open(opened, &named) {
        return Err(FetchFault::WithinItself(named));
    }
    if opened.len() >= MAX_COPY_DEPTH {
        return Err(FetchFault::TooDeep(named));
    }
    let words = words_on(alloc, shelf, &named)?;
    let inner = with_opened(alloc, opened, &named)?;
    let within = inner.as_slice();
    let read = words.as_slice();
    fetch_wanted(alloc, shelf, within, read, library)?;
    put_text(alloc, named, read, library)?;
    Ok(())
}

/// Fetches the texts that words copy, each with those that it copies itself.
///
/// # Errors
///
/// Why one can't be had.
#[cycle(fetching)]
fn fetch_wanted<S: Shelf>(
    alloc: Global,
    shelf: &mut S,
    opened: &[TextName],
    words: &[Token],
    library: &mut Library,
) -> Result<(), FetchFault>
    ensures grows { OnOk result (LibraryGrows (map copied_text library.old.texts.items)
        (map copied_text library.new.texts.items)) }
    ensures known { OnOk result ((parts : List TextPart)
        → BeginWithParts parts (lexemes words.now) []
        → AllByRecursion (IsKnown (map copied_text library.new.texts.items)) (flat_map names_in_part parts)) }
{
    let names = names_wanted(alloc, words)?;
    let mut rest = names.as_slice();
    while let Some((first, more)) = rest.split_first() {
        let named = copy_of_name(alloc, first)?;
        fetch_text(alloc, shelf, opened, named, library)?;
        rest = more;
    }
    Ok(())
}

/// The library of the texts that words copy, and of those that these copy: each is asked for once.
///
/// # Errors
///
/// Why one can't be had: no text has the name, it stands within itself or within as many others as one may, there are too many, it breaks a rule, or it can't be
/// read; or memory was refused.
pub fn fetch<S: Shelf>(alloc: Global, shelf: &mut S, words: &[Token]) -> Result<Library, FetchFault>
    ensures made { IfOk result (λ l. (ts : List NamedText) × MakeLibrary ts [] (map copied_text l.texts.items)) }
    // Each text that the words copy is there.
    ensures known { IfOk result (λ l. (parts : List TextPart)
        → BeginWithParts parts (lexemes words.now) []
        → AllByRecursion (IsKnown (map copied_text l.texts.items)) (flat_map names_in_part parts)) }
{
    let mut library = Library::new(alloc);
    fetch_wanted(alloc, shelf, &[], words, &mut library)?;
    Ok(library)
}
