//! The blocks of a copybook.

ghost use Rattle.std.specs.Prelude.{◌≡◌, List, IfSome, None};
ghost use Rattle.cob_source.specs.Tokens.{Lexeme, lexemes};
ghost use Rattle.cob_report_refusals.specs.Refused.{IsEntryBehind};
ghost use Rattle.cob_report_refusal_words.specs.Pointing.{IsUnderEntry, IsUnderOne};

use crate::blocks::{push_block, push_words};
use crate::clashes::{told_placement, told_sign, told_usage};
use crate::columns::with_columns;
use crate::entry::entry_at;
use crate::grammar::{told_grammar, written_entry};
use crate::left_out::told_left_out;
use crate::levels::told_level_rule;
use crate::names::told_name;
use crate::phrases::Phrase;
use crate::pictures::told_picture;
use crate::references::{told_count, told_redefinition};
use crate::source::{SourceText, told_source};
use crate::tables::told_table;
use crate::told::{Told, advised_plainly};
use crate::values::told_value;
use cob_copybook::{BookRule, Role};
use cob_report_refusals::{Refusal, book_refusals, entry_behind, entry_told};
use cob_source::{SourceRule, Token, tokens};
use std::alloc::{AllocError, Global};

/// The blocks of a text that is refused.
#[derive(Drop)]
pub struct Blocks {
    /// The blocks, one behind the other.
    pub text: String,
    /// How many refusals there are.
    pub count: u32,
}

/// A text as its blocks tell it.
#[derive(Clone, Copy)]
pub struct RefusedBook<'a> {
    /// Its file, as the command line says it.
    pub file: &'a str,
    /// What it describes.
    pub role: Role,
    /// The option by which one of several records in it is chosen, without its hyphens.
    pub record_option: &'a str,
    /// Its bytes.
    pub text: &'a [u8],
}

/// The words of a text, none where it breaks a rule of the reference format.
///
/// # Errors
///
/// Where no memory is left.
pub(crate) fn words_of(alloc: Global, text: &[u8]) -> Result<Vec<Token>, AllocError> {
    match tokens(alloc, text) {
        Ok(words) => Ok(words),
        Err(fault) => match fault.rule {
            SourceRule::Memory => Err(AllocError),
            _ => Ok(Vec::new(alloc)),
        },
    }
}

/// What is told of an entry of a copybook that breaks a rule, before which so many words stand.
fn told_entry<'a>(
    book: RefusedBook<'a>,
    words: &'a [Token],
    before: usize,
    rule: &'a BookRule,
) -> Told<'a> {
    let entry = entry_at(words, before);
    match rule {
        BookRule::Grammar => told_grammar(written_entry(words, before)),
        BookRule::Level => told_level_rule(words, before, entry, book.record_option),
        BookRule::Picture(fault) => told_picture(entry, *fault),
        BookRule::Usage => told_usage(words, before, entry),
        BookRule::Sign => told_sign(entry),
        BookRule::Redefinition => told_redefinition(words, before, entry),
        BookRule::Table => told_table(entry),
        BookRule::Count => told_count(words, before, entry),
        BookRule::Value => told_value(entry),
        BookRule::Placement => told_placement(entry),
        BookRule::LeftOut(word) => told_left_out(entry, word.as_str().as_bytes()),
        BookRule::Name => told_name(entry),
        BookRule::TooLong => told_too_long(entry),
        BookRule::TooMany => told_too_many(entry),
        BookRule::Source(_) | BookRule::NoEntry | BookRule::Memory => told_empty(),
    }
}

/// What is told of a record that is too long.
fn told_too_long(entry: &[Token]) -> Told<'_> {
    advised_plainly(
        entry,
        "the record is longer than 32,752 bytes, which are the most",
        "split the record, or make its longest table shorter",
    )
}

/// What is told of the first entry that is one too many.
fn told_too_many(entry: &[Token]) -> Told<'_> {
    advised_plainly(
        entry,
        "this is entry 2,001, and 2,000 are the most",
        "split the copybook",
    )
}

/// What is told of a text without entries.
fn told_empty() -> Told<'static>
    ensures { result.at ≡ None }
{
    Told {
        at: None,
        what: Phrase::plain("no entry stands in it"),
        hint: Some(Phrase::plain(
            "words stand in columns 8 to 72: --free reads a copybook without columns",
        )),
    }
}

/// What is told of the entry before which so many words stand, which breaks a rule.
fn told_behind<'a>(
    book: RefusedBook<'a>,
    words: &'a [Token],
    before: usize,
    rule: &'a BookRule,
) -> Told<'a>
    ensures { IfSome result.at (λ c. (own : List Lexeme)
        × IsEntryBehind before own (lexemes words.now) × IsUnderOne c own) }
{
    let own = entry_behind(words, before);
    let told = told_entry(book, words, before, rule).among(own);
    match rule {
        BookRule::Grammar => with_columns(book.file, book.text, told),
        _ => told,
    }
}

/// What is told of a refusal of a copybook with these words: of its entry, where it is no rule of the reference format.
pub fn told_of_entry<'a>(
    book: RefusedBook<'a>,
    words: &'a [Token],
    refusal: &'a Refusal,
) -> Told<'a>
    // It points at a word of the entry that the refusal is told of, if at one.
    ensures { IfSome result.at (λ c. IsUnderEntry refusal.now c (lexemes words.now)) }
{
    match entry_told(words, refusal) {
        Some(before) => told_behind(book, words, before, &refusal.fault.rule),
        None => told_empty(),
    }
}

/// What is told of a refusal.
fn told_of<'a>(book: RefusedBook<'a>, words: &'a [Token], refusal: &'a Refusal) -> Told<'a> {
    match refusal.fault.rule {
        BookRule::Source(broken) => told_source(
            SourceText::Copybook,
            book.file,
            book.text,
            broken,
            refusal.fault.line,
        ),
        _ => told_of_entry(book, words, refusal),
    }
}

/// What is told of a refusal of a text that was made of others: where their lines are told elsewhere, it has none itself.
#[derive(Drop)]
pub struct MadeRefusal {
    /// Its line in the text that was made.
    pub line: u32,
    /// The rule, what is wrong, and what to do, a line each.
    pub words: String,
}

/// What is told of a refusal of a text that was made, whose words are these.
fn made_refusal(
    alloc: Global,
    book: RefusedBook<'_>,
    words: &[Token],
    refusal: &Refusal,
) -> Result<MadeRefusal, AllocError> {
    let told = told_of(book, words, refusal);
    let line = match told.at {
        Some(caret) => caret.line,
        None => refusal.fault.line,
    };
    let mut text = String::new(alloc);
    push_words(&mut text, &refusal.fault.rule, &told)?;
    Ok(MadeRefusal { line, words: text })
}

/// The first of these refusals of a copybook with these words, at most so many.
fn made_among(
    alloc: Global,
    book: RefusedBook<'_>,
    words: &[Token],
    refusals: &[Refusal],
    most: usize,
) -> Result<Vec<MadeRefusal>, AllocError> {
    let mut made: Vec<MadeRefusal> = Vec::new(alloc);
    for refusal in refusals.iter().take(most) {
        made.push(made_refusal(alloc, book, words, refusal)?)?;
    }
    Ok(made)
}

/// The first of these refusals of a copybook, at most so many.
fn made_of(
    alloc: Global,
    book: RefusedBook<'_>,
    refusals: &[Refusal],
    most: usize,
) -> Result<Vec<MadeRefusal>, AllocError> {
    let words = words_of(alloc, book.text)?;
    made_among(alloc, book, words.as_slice(), refusals, most)
}

/// The refusals of a copybook whose text was made of others, at most so many, in words without their lines.
///
/// # Errors
///
/// Where no memory is left.
pub fn made_refusals(
    alloc: Global,
    book: RefusedBook<'_>,
    most: usize,
) -> Result<Vec<MadeRefusal>, AllocError> {
    let refusals = book_refusals(alloc, book.role, book.text)?;
    made_of(alloc, book, &refusals, most)
}

/// Adds the blocks of the first of these refusals of a copybook with these words, at most so many.
fn push_blocks(
    out: &mut String,
    book: RefusedBook<'_>,
    words: &[Token],
    refusals: &[Refusal],
    most: u32,
) -> Result<(), AllocError> {
    for refusal in refusals.iter().take(most as usize) {
        let told = told_of(book, words, refusal);
        push_block(out, book.file, book.text, &refusal.fault.rule, &told)?;
    }
    Ok(())
}

/// The blocks of the first of these refusals of a copybook, at most so many.
fn text_of(
    alloc: Global,
    book: RefusedBook<'_>,
    refusals: &[Refusal],
    most: u32,
) -> Result<String, AllocError> {
    let words = words_of(alloc, book.text)?;
    let mut text = String::new(alloc);
    push_blocks(&mut text, book, words.as_slice(), refusals, most)?;
    Ok(text)
}

/// The blocks of a copybook that is refused, at most so many, each with its line of the text; none of one that is not.
///
/// # Errors
///
/// Where no memory is left.
pub fn book_blocks(alloc: Global, book: RefusedBook<'_>, most: u32) -> Result<Blocks, AllocError> {
    let refusals = book_refusals(alloc, book.role, book.text)?;
    let text = text_of(alloc, book, &refusals, most)?;
    Ok(Blocks {
        text,
        count: refusals.len().min(1_000_000) as u32,
    })
}
