//! COPY statements.

ghost use Rattle.std.specs.Prelude.{◌≡◌, ◌≤◌, ◌&&◌, None, map, length, bytes_eq, IfOk, IfSome, option_map};
ghost use Rattle.cob_source.specs.Tokens.{lexeme, lexemes};
ghost use Rattle.cob_source_copies.specs.TextWords.{is_wordlike, text_word, text_words};
ghost use Rattle.cob_source_copies.specs.Exchanges.{Replacing, replacing};
ghost use Rattle.cob_source_copies.specs.Statements.{behind_suppress, copy_front, copy_in, is_copy, is_keyword, library_first, named_library, own_text, replacing_of, replacings_behind, replacings_in, words_in, written_copy, written_text_name, written_operand};
ghost use Rattle.cob_source_copies.specs.Reading.{front_seen, library_seen};

use crate::exchange::Exchange;
use crate::fragment::{Fragment, fragments, push_fragments};
use crate::name::TextName;
use crate::operand::{CopyOperand, operands_in};
use crate::writing::is_wordlike;
use cob_source::Token;
use std::alloc::{AllocError, Global};

/// A COPY statement as it is written.
#[derive(Drop)]
pub(crate) struct Statement {
    pub named: TextName,
    pub exchanges: Vec<Exchange>,
}

/// Whether it is this word.
fn is_that_word(token: &Token, text: &[u8]) -> bool
    ensures { result ≡ (is_wordlike (lexeme token.now).kind && bytes_eq (lexeme token.now).text text.now) }
{
    is_wordlike(token.kind) && token.text.as_slice() == text
}

/// Whether it is the word COPY.
pub(crate) fn is_copy(token: &Token) -> bool
    ensures { result ≡ is_copy (lexeme token.now) }
{
    is_that_word(token, b"COPY")
}

/// Whether an operand is this word.
fn is_keyword(operand: &CopyOperand, text: &[u8]) -> bool
    ensures { result ≡ is_keyword text.now (written_operand operand.now) }
{
    match operand {
        CopyOperand::Single(token) => is_that_word(token, text),
        CopyOperand::PseudoText(_) => false,
    }
}

/// The text of a word or a literal that stands by itself.
fn own_text(operand: &CopyOperand) -> Option<&[u8]>
    ensures { option_map (λ b. b.now) result ≡ own_text (written_operand operand.now) }
{
    match operand {
        CopyOperand::Single(token) => Some(token.text.as_slice()),
        CopyOperand::PseudoText(_) => None,
    }
}

/// The library's name in front, and what is behind it.
fn library_first(operands: &[CopyOperand]) -> Option<(Option<&[u8]>, &[CopyOperand])>
    ensures { option_map library_seen result ≡ library_first (map written_operand operands.now) }
{
    let (first, more) = operands.split_first()?;
    let library = own_text(first)?;
    Some((Some(library), more))
}

/// OF or IN and the library's name, if they stand there, and what is behind them.
fn named_library(operands: &[CopyOperand]) -> Option<(Option<&[u8]>, &[CopyOperand])>
    ensures { option_map library_seen result ≡ named_library (map written_operand operands.now) }
{
    let Some((first, more)) = operands.split_first() else {
        return Some((None, operands));
    };
    if is_keyword(first, b"OF") || is_keyword(first, b"IN") {
        return library_first(more);
    }
    Some((None, operands))
}

/// The operands without SUPPRESS in front.
fn behind_suppress(operands: &[CopyOperand]) -> &[CopyOperand]
    ensures { map written_operand result.now ≡ behind_suppress (map written_operand operands.now) }
{
    match operands.split_first() {
        Some((first, more)) if is_keyword(first, b"SUPPRESS") => more,
        _ => operands,
    }
}

/// The text words of an operand.
///
/// # Errors
///
/// Where no memory is left.
fn fragments_of(alloc: Global, operand: &CopyOperand) -> Result<Vec<Fragment>, AllocError>
    ensures { IfOk result (λ v. map text_word v.items
        ≡ text_words (words_in (written_operand operand.now))) }
{
    match operand {
        CopyOperand::Single(token) => {
            let mut out = Vec::new(alloc);
            push_fragments(alloc, token, &mut out)?;
            Ok(out)
        }
        CopyOperand::PseudoText(words) => fragments(alloc, words.as_slice()),
    }
}

/// The exchange that x, BY and y say, if x has a text word.
///
/// # Errors
///
/// Where no memory is left.
fn exchange_of(
    alloc: Global,
    x: &CopyOperand,
    by: &CopyOperand,
    y: &CopyOperand,
) -> Result<Option<Exchange>, AllocError>
    ensures { IfOk result (λ r. option_map replacing r
        ≡ replacing_of (written_operand x.now) (written_operand by.now) (written_operand y.now)) }
{
    if !is_keyword(by, b"BY") {
        return Ok(None);
    }
    let from = fragments_of(alloc, x)?;
    if from.is_empty() {
        return Ok(None);
    }
    let to = fragments_of(alloc, y)?;
    Ok(Some(Exchange { from, to }))
}

/// The exchanges that operands say.
///
/// # Errors
///
/// Where no memory is left.
fn exchanges_in(
    alloc: Global,
    operands: &[CopyOperand],
) -> Result<Option<Vec<Exchange>>, AllocError>
    ensures { IfOk result (λ r. option_map (λ v. map replacing v.items) r
        ≡ replacings_in (map written_operand operands.now)) }
{
    let mut out = Vec::new(alloc);
    let mut rest = operands;
    while let Some((x, behind_x)) = rest.split_first() {
        let Some((by, behind_by)) = behind_x.split_first() else {
            return Ok(None);
        };
        let Some((y, more)) = behind_by.split_first() else {
            return Ok(None);
        };
        let Some(exchange) = exchange_of(alloc, x, by, y)? else {
            return Ok(None);
        };
        out.push(exchange)?;
        rest = more;
    }
    Ok(Some(out))
}

/// The exchanges behind REPLACING, or none where no operand is left.
///
/// # Errors
///
/// Where no memory is left.
fn exchanges_behind(
    alloc: Global,
    operands: &[CopyOperand],
) -> Result<Option<Vec<Exchange>>, AllocError>
    ensures { IfOk result (λ r. option_map (λ v. map replacing v.items) r
        ≡ replacings_behind (map written_operand operands.now)) }
{
    let Some((first, more)) = operands.split_first() else {
        return Ok(Some(Vec::new(alloc)));
    };
    if !is_keyword(first, b"REPLACING") || more.is_empty() {
        return Ok(None);
    }
    exchanges_in(alloc, more)
}

/// The name of a text in a library, or in none.
///
/// # Errors
///
/// Where no memory is left.
fn name_of(alloc: Global, name: &[u8], library: Option<&[u8]>) -> Result<TextName, AllocError>
    ensures { IfOk result (λ n. written_text_name n ≡ record { name = name.now; library = option_map (λ t. t.now) library.entry }) }
{
    let name = Vec::from_slice(alloc, name)?;
    let library = match library {
        Some(library) => Some(Vec::from_slice(alloc, library)?),
        None => None,
    };
    Ok(TextName { name, library })
}

/// The statement that the operands behind COPY say.
///
/// # Errors
///
/// Where no memory is left.
fn copy_in(alloc: Global, operands: &[CopyOperand]) -> Result<Option<Statement>, AllocError>
    ensures { IfOk result (λ r. option_map written_copy r
        ≡ copy_in (map written_operand operands.now)) }
{
    let Some((first, more)) = operands.split_first() else {
        return Ok(None);
    };
    let Some(name) = own_text(first) else {
        return Ok(None);
    };
    let Some((library, behind)) = named_library(more) else {
        return Ok(None);
    };
    let Some(exchanges) = exchanges_behind(alloc, behind_suppress(behind))? else {
        return Ok(None);
    };
    let named = name_of(alloc, name, library)?;
    Ok(Some(Statement { named, exchanges }))
}

/// The COPY statement that goes on with these words behind its word COPY, and the words behind its period.
///
/// # Errors
///
/// Where no memory is left.
pub(crate) fn copy_front(
    alloc: Global,
    words: &[Token],
) -> Result<Option<(Statement, &[Token])>, AllocError>
    ensures read { IfOk result (λ r. option_map front_seen r ≡ copy_front (lexemes words.now)) }
    ensures shorter { IfOk result (λ r. IfSome r (λ s. length s.1.now ≤ length words.now)) }
{
    let Some((operands, behind)) = operands_in(alloc, words)? else {
        return Ok(None);
    };
    match copy_in(alloc, operands.as_slice())? {
        Some(statement) => Ok(Some((statement, behind))),
        None => Ok(None),
    }
}
