//! A text that was written for words, read again.

ghost use Rattle.std.specs.Prelude.{◌≡◌, ◌-◌, true, slice_index_or, IfOk, IfSome, IsTrue, OnOk};
ghost use Rattle.cob_source.specs.Tokens.{lexeme, lexemes};
ghost use Rattle.cob_source.specs.Words.{AreWordsOf};
ghost use Rattle.cob_copybook_text.specs.Written.{SaysWords, say_alike, is_alike};
ghost use Rattle.cob_source_copies.specs.Exchanges.{is_one_kind};

use crate::writing::{RecordText, written};
use cob_source::{SourceRule, Token, TokenKind, tokens};
use std::alloc::{AllocError, Global};

/// Whether two are of one kind.
fn is_one_kind(a: TokenKind, b: TokenKind) -> bool
    ensures { result ≡ is_one_kind a b }
{
    match a {
        TokenKind::Word => matches!(b, TokenKind::Word),
        TokenKind::Literal => matches!(b, TokenKind::Literal),
        TokenKind::Stop => matches!(b, TokenKind::Stop),
    }
}

/// The line that this one was written for, or 0.
fn line_at(lines: &[u32], line: u32) -> u32
    ensures { result ≡ slice_index_or lines.now (line - 1) 0 }
{
    match lines.get(line.saturating_sub(1) as usize) {
        Some(written_for) => *written_for,
        None => 0,
    }
}

/// Whether a word of a text says what another one says.
fn is_alike(lines: &[u32], word: &Token, own: &Token) -> bool
    ensures { result ≡ is_alike lines.now (lexeme word.now) (lexeme own.now) }
{
    is_one_kind(word.kind, own.kind)
        && word.text.as_slice() == own.text.as_slice()
        && line_at(lines, word.line) == own.line
}

/// Whether each word of a text says what one of as many says.
fn say_alike(lines: &[u32], words: &[Token], own: &[Token]) -> bool
    ensures { result ≡ say_alike lines.now (lexemes words.now) (lexemes own.now) }
{
    let mut left = words;
    let mut rest = own;
    while let Some((word, others)) = left.split_first() {
        let Some((first, more)) = rest.split_first() else {
            return false;
        };
        if !is_alike(lines, word, first) {
            return false;
        }
        left = others;
        rest = more;
    }
    rest.is_empty()
}

/// A text with its words, if it breaks no rule of the reference format.
///
/// # Errors
///
/// Where no memory is left.
fn words_of(alloc: Global, text: &[u8]) -> Result<Option<Vec<Token>>, AllocError>
    ensures { IfOk result (λ o. IfSome o (λ v. AreWordsOf text.now (lexemes v.items))) }
{
    match tokens(alloc, text) {
        Ok(words) => Ok(Some(words)),
        Err(fault) => match fault.rule {
            SourceRule::Memory => Err(AllocError),
            _ => Ok(None),
        },
    }
}

/// A text in reference format that says these words, if they have room in one.
///
/// # Errors
///
/// Where no memory is left.
pub fn text_saying(alloc: Global, own: &[Token]) -> Result<Option<RecordText>, AllocError>
    ensures { IfOk result (λ o. IfSome o (λ text. SaysWords text (lexemes own.now))) }
{
    let made = written(alloc, own)?;
    let Some(words) = words_of(alloc, made.text.as_slice())? else {
        return Ok(None);
    };
    if say_alike(made.lines.as_slice(), words.as_slice(), own) {
        Ok(Some(made))
    } else {
        Ok(None)
    }
}
