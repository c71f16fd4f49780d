//! The operands of COPY statements.

ghost use Rattle.std.specs.Prelude.{◌≡◌, ◌≤◌, ◌++◌, None, map, length, IfOk, IfSome, OnOk, option_map};
ghost use Rattle.cob_source.specs.Tokens.{lexeme, lexemes};
ghost use Rattle.cob_source_copies.specs.Statements.{before_closing, behind_opening, ends_statement, of_word, open_at, operands_at, operands_in, period_at, word_of_text, words_before_closing, written_operand};
ghost use Rattle.cob_source_copies.specs.Reading.{open_words, operands_seen};

use crate::copying::copy_of;
use cob_source::{Token, TokenKind};
use std::alloc::{AllocError, Global};

/// What COPY is said of: a word, a literal or pseudo-text.
#[derive(Drop)]
pub(crate) enum CopyOperand {
    /// A word or a literal by itself.
    Single(Token),
    /// The words between == and ==.
    PseudoText(Vec<Token>),
}

/// What stands behind == in front of a text.
fn behind_opening(text: &[u8]) -> Option<&[u8]>
    ensures { option_map (λ b. b.now) result ≡ behind_opening text.now }
{
    if text.len() < 2 {
        return None;
    }
    let (front, more) = text.split_at(2);
    if front == b"==".as_slice() {
        Some(more)
    } else {
        None
    }
}

/// What stands before == at the end of a text.
fn before_closing(text: &[u8]) -> Option<&[u8]>
    ensures { option_map (λ b. b.now) result ≡ before_closing text.now }
{
    if text.len() < 2 {
        return None;
    }
    let (front, end) = text.split_at(text.len() - 2);
    if end == b"==".as_slice() {
        Some(front)
    } else {
        None
    }
}

/// What stands behind == in front of a word.
fn opened_by(token: &Token) -> Option<&[u8]>
    ensures { option_map (λ b. b.now) result
        ≡ of_word (lexeme token.now).kind (behind_opening (lexeme token.now).text) }
{
    match token.kind {
        TokenKind::Word => behind_opening(token.text.as_slice()),
        TokenKind::Literal | TokenKind::Stop => None,
    }
}

/// What stands before == at the end of a word.
fn closed_by(token: &Token) -> Option<&[u8]>
    ensures { option_map (λ b. b.now) result
        ≡ of_word (lexeme token.now).kind (before_closing (lexeme token.now).text) }
{
    match token.kind {
        TokenKind::Word => before_closing(token.text.as_slice()),
        TokenKind::Literal | TokenKind::Stop => None,
    }
}

/// Puts a word of this text in the place of another one behind those so far, if the text has a character.
///
/// # Errors
///
/// Where no memory is left.
fn push_word(
    alloc: Global,
    place: &Token,
    text: &[u8],
    out: &mut Vec<Token>,
) -> Result<(), AllocError>
    ensures { OnOk result (lexemes out.new.items ≡ lexemes out.old.items ++ word_of_text (lexeme place.now) text.now) }
{
    if text.is_empty() {
        return Ok(());
    }
    out.push(Token {
        text: Vec::from_slice(alloc, text)?,
        line: place.line,
        column: place.column,
        kind: TokenKind::Word,
    })?;
    Ok(())
}

/// Puts a period in the place of a word behind the words so far.
///
/// # Errors
///
/// Where no memory is left.
fn push_period(alloc: Global, place: &Token, out: &mut Vec<Token>) -> Result<(), AllocError>
    ensures { OnOk result (lexemes out.new.items ≡ lexemes out.old.items ++ period_at (lexeme place.now)) }
{
    let mut text = Vec::new(alloc);
    text.push(b'.')?;
    out.push(Token {
        text,
        line: place.line,
        column: place.column,
        kind: TokenKind::Stop,
    })?;
    Ok(())
}

/// Puts the words that a text before == is behind those so far.
///
/// # Errors
///
/// Where no memory is left.
fn push_before_closing(
    alloc: Global,
    place: &Token,
    text: &[u8],
    out: &mut Vec<Token>,
) -> Result<(), AllocError>
    ensures { OnOk result (lexemes out.new.items
        ≡ lexemes out.old.items ++ words_before_closing (lexeme place.now) text.now) }
{
    if text.is_empty() {
        return Ok(());
    }
    let (front, last) = text.split_at(text.len() - 1);
    match last[0] {
        b',' | b';' => push_word(alloc, place, front, out),
        b'.' => {
            push_word(alloc, place, front, out)?;
            push_period(alloc, place, out)
        }
        _ => push_word(alloc, place, text, out),
    }
}

/// Reads a word outside of pseudo-text. The answer are the words of the pseudo-text that it opens.
///
/// # Errors
///
/// Where no memory is left.
fn read_outside(
    alloc: Global,
    token: &Token,
    operands: &mut Vec<CopyOperand>,
) -> Result<Option<Vec<Token>>, AllocError>
    ensures given { OnOk result (map written_operand operands.new.items
        ≡ map written_operand operands.old.items ++ operands_at None (lexeme token.now)) }
    ensures begun { IfOk result (λ o. open_words o ≡ open_at None (lexeme token.now)) }
{
    let Some(more) = opened_by(token) else {
        let word = copy_of(alloc, token)?;
        operands.push(CopyOperand::Single(word))?;
        return Ok(None);
    };
    let mut words = Vec::new(alloc);
    match before_closing(more) {
        Some(inside) => {
            push_before_closing(alloc, token, inside, &mut words)?;
            operands.push(CopyOperand::PseudoText(words))?;
            Ok(None)
        }
        None => {
            push_word(alloc, token, more, &mut words)?;
            Ok(Some(words))
        }
    }
}

/// Reads a word inside a pseudo-text with these words so far. The answer are its words, where it stays open.
///
/// # Errors
///
/// Where no memory is left.
fn read_inside(
    alloc: Global,
    begun: Vec<Token>,
    token: &Token,
    operands: &mut Vec<CopyOperand>,
) -> Result<Option<Vec<Token>>, AllocError>
    ensures given { OnOk result (map written_operand operands.new.items
        ≡ map written_operand operands.old.items
        ++ operands_at (Some (lexemes begun.items)) (lexeme token.now)) }
    ensures begun { IfOk result (λ o. open_words o
        ≡ open_at (Some (lexemes begun.items)) (lexeme token.now)) }
{
    let mut words = begun;
    match closed_by(token) {
        Some(front) => {
            push_before_closing(alloc, token, front, &mut words)?;
            operands.push(CopyOperand::PseudoText(words))?;
            Ok(None)
        }
        None => {
            words.push(copy_of(alloc, token)?)?;
            Ok(Some(words))
        }
    }
}

/// Whether a period ends a statement: it stands outside of pseudo-text.
fn ends_statement(begun: &Option<Vec<Token>>, kind: TokenKind) -> bool
    ensures { result ≡ ends_statement (open_words begun.now) kind }
{
    match begun {
        Some(_) => false,
        None => matches!(kind, TokenKind::Stop),
    }
}

/// Reads a word. The answer are the words of the pseudo-text that is open behind it.
///
/// # Errors
///
/// Where no memory is left.
fn read_word(
    alloc: Global,
    begun: Option<Vec<Token>>,
    token: &Token,
    operands: &mut Vec<CopyOperand>,
) -> Result<Option<Vec<Token>>, AllocError>
    ensures given { OnOk result (map written_operand operands.new.items
        ≡ map written_operand operands.old.items
        ++ operands_at (open_words begun) (lexeme token.now)) }
    ensures begun { IfOk result (λ o. open_words o
        ≡ open_at (open_words begun) (lexeme token.now)) }
{
    match begun {
        Some(words) => read_inside(alloc, words, token, operands),
        None => read_outside(alloc, token, operands),
    }
}

/// The operands up to the first period outside of pseudo-text, and the words behind it.
///
/// # Errors
///
/// Where no memory is left.
pub(crate) fn operands_in(
    alloc: Global,
    words: &[Token],
) -> Result<Option<(Vec<CopyOperand>, &[Token])>, AllocError>
    ensures read { IfOk result (λ r. option_map operands_seen r
        ≡ operands_in None (lexemes words.now)) }
    ensures shorter { IfOk result (λ r. IfSome r (λ o. length o.1.now ≤ length words.now)) }
{
    let mut operands = Vec::new(alloc);
    let mut begun = None;
    let mut rest = words;
    while let Some((first, more)) = rest.split_first() {
        if ends_statement(&begun, first.kind) {
            return Ok(Some((operands, more)));
        }
        begun = read_word(alloc, begun, first, &mut operands)?;
        rest = more;
    }
    Ok(None)
}
