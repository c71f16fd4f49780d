//! Words cut into text words.

ghost use Rattle.std.specs.Prelude.{◌≡◌, ◌≤◌, ◌<◌, ◌++◌, ◌∷◌, [], false, true, length, map, take, drop, IfOk, OnOk};
ghost use Rattle.std.specs.List.{AllByRecursion};
ghost use Rattle.cob_source.specs.Tokens.{lexeme, lexemes};
ghost use Rattle.cob_source_copies.specs.TextWords.{divider_first, is_divider, parts_at, parts_in, text_word, text_words, text_words_of};

use crate::copying::copy_of;
use cob_source::{Token, TokenKind};
use std::alloc::{AllocError, Global};

/// A text word: what REPLACING compares and puts.
#[derive(Drop)]
pub struct Fragment {
    /// A part of a word, a literal or a period, with the place of the whole.
    pub token: Token,
    /// Whether it joins the text word before it: no space stands between them.
    pub joins: bool,
}

/// Whether a character is a text word of its own, wherever it stands in a word.
fn is_divider(byte: u8) -> bool
    ensures { result ≡ is_divider byte }
{
    byte == b'(' || (byte == b')' || byte == b':')
}

/// How many characters stand before the first divider.
fn undivided_len(text: &[u8]) -> usize
    ensures within { result ≤ length text.now }
    ensures each { AllByRecursion (λ b. is_divider b ≡ false) (take result text.now) }
    ensures other { divider_first (drop result text.now) ≡ true }
{
    for (at, byte) in text.iter().enumerate() {
        if is_divider(*byte) {
            return at;
        }
    }
    text.len()
}

/// Puts a part of a word behind the text words so far.
///
/// # Errors
///
/// Where no memory is left.
fn push_part(
    alloc: Global,
    word: &Token,
    part: &[u8],
    joins: bool,
    out: &mut Vec<Fragment>,
) -> Result<(), AllocError>
    ensures { OnOk result (map text_word out.new.items ≡ map text_word out.old.items
        ++ parts_at (lexeme word.now) joins (part.now ∷ [])) }
{
    let token = Token {
        text: Vec::from_slice(alloc, part)?,
        line: word.line,
        column: word.column,
        kind: word.kind,
    };
    out.push(Fragment { token, joins })?;
    Ok(())
}

/// Puts the parts of a word behind the text words so far.
///
/// # Errors
///
/// Where no memory is left.
fn push_parts(alloc: Global, word: &Token, out: &mut Vec<Fragment>) -> Result<(), AllocError>
    ensures { OnOk result (map text_word out.new.items ≡ map text_word out.old.items
        ++ parts_at (lexeme word.now) false (parts_in (lexeme word.now).text)) }
{
    let mut joins = false;
    let mut rest = word.text.as_slice();
    while let Some((_, _)) = rest.split_first() {
        let (part, behind) = rest.split_at(undivided_len(rest).max(1));
        push_part(alloc, word, part, joins, out)?;
        joins = true;
        rest = behind;
    }
    Ok(())
}

/// Puts the text words that a word, a literal or a period is behind those so far.
///
/// # Errors
///
/// Where no memory is left.
pub(crate) fn push_fragments(
    alloc: Global,
    token: &Token,
    out: &mut Vec<Fragment>,
) -> Result<(), AllocError>
    ensures { OnOk result (map text_word out.new.items ≡ map text_word out.old.items
        ++ text_words_of (lexeme token.now).kind (lexeme token.now)) }
{
    match token.kind {
        TokenKind::Word => push_parts(alloc, token, out),
        TokenKind::Literal | TokenKind::Stop => {
            let token = copy_of(alloc, token)?;
            out.push(Fragment {
                token,
                joins: false,
            })?;
            Ok(())
        }
    }
}

/// The text words that words are.
///
/// # Errors
///
/// Where no memory is left.
pub(crate) fn fragments(alloc: Global, words: &[Token]) -> Result<Vec<Fragment>, AllocError>
    ensures { IfOk result (λ v. map text_word v.items ≡ text_words (lexemes words.now)) }
{
    let mut out = Vec::new(alloc);
    let mut rest = words;
    while let Some((first, more)) = rest.split_first() {
        push_fragments(alloc, first, &mut out)?;
        rest = more;
    }
    Ok(out)
}
