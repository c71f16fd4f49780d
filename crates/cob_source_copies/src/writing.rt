//! Text words written together.

ghost use Rattle.std.specs.Prelude.{◌≡◌, ◌++◌, map, OnOk};
ghost use Rattle.cob_source.specs.Tokens.{lexeme, lexemes};
ghost use Rattle.cob_source_copies.specs.TextWords.{goes_on, is_wordlike, text_word, together, word_if_any};

use crate::copying::copy_of;
use crate::fragment::Fragment;
use cob_source::{Token, TokenKind};
use std::alloc::{AllocError, Global};
use std::mem;

/// Whether it is a word or a part of one.
pub(crate) fn is_wordlike(kind: TokenKind) -> bool
    ensures { result ≡ is_wordlike kind }
{
    match kind {
        TokenKind::Word => true,
        TokenKind::Literal | TokenKind::Stop => false,
    }
}

/// Whether a text word goes on with the word before it.
fn goes_on(word: &Token, next: &Fragment) -> bool
    ensures { result ≡ goes_on (lexeme word.now) (text_word next.now) }
{
    is_wordlike(word.kind) && (is_wordlike(next.token.kind) && next.joins)
}

/// Puts a word behind those so far, if it has a character.
///
/// # Errors
///
/// Where no memory is left.
fn push_if_any(word: Token, out: &mut Vec<Token>) -> Result<(), AllocError>
    ensures { OnOk result (lexemes out.new.items ≡ lexemes out.old.items ++ word_if_any (lexeme word)) }
{
    if is_wordlike(word.kind) && word.text.is_empty() {
        return Ok(());
    }
    out.push(word)?;
    Ok(())
}

/// Puts the words that text words are when they are written as they stand behind those so far.
///
/// # Errors
///
/// Where no memory is left.
pub(crate) fn push_together(
    alloc: Global,
    fragments: &[Fragment],
    out: &mut Vec<Token>,
) -> Result<(), AllocError>
    ensures { OnOk result (lexemes out.new.items
        ≡ lexemes out.old.items ++ together (map text_word fragments.now)) }
{
    let Some((first, more)) = fragments.split_first() else {
        return Ok(());
    };
    let mut word = copy_of(alloc, &first.token)?;
    let mut rest = more;
    while let Some((next, behind)) = rest.split_first() {
        if goes_on(&word, next) {
            word.text.extend_from_slice(next.token.text.as_slice())?;
        } else {
            let new = copy_of(alloc, &next.token)?;
            push_if_any(mem::replace(&mut word, new), out)?;
        }
        rest = behind;
    }
    push_if_any(word, out)
}
