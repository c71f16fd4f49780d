//! Words of a text, as they are told.

use cob_source::{Token, TokenKind};
use std::fmt;

/// Bytes, which print as characters, each outside 20 to 7E as a period.
#[derive(Clone, Copy)]
pub(crate) struct BytesText<'a> {
    pub(crate) bytes: &'a [u8],
}

impl fmt::Display for BytesText<'_> {
    fn fmt<W: fmt::Write>(&self, f: &mut fmt::Formatter<W>) -> fmt::Result {
        write_bytes(f, self.bytes)
    }
}

/// The character that a byte prints as.
fn shown(byte: u8) -> char {
    if byte < 32 || byte > 126 {
        '.'
    } else {
        char::from(byte)
    }
}

/// Writes bytes as characters, each outside 20 to 7E as a period.
pub(crate) fn write_bytes<W: fmt::Write>(f: &mut fmt::Formatter<W>, bytes: &[u8]) -> fmt::Result {
    for byte in bytes {
        f.write_char(shown(*byte))?;
    }
    Ok(())
}

/// Whether a text has digits alone.
pub(crate) fn has_digits_alone(text: &[u8]) -> bool {
    for character in text {
        if !character.is_ascii_digit() {
            return false;
        }
    }
    true
}

/// Writes a literal with its quotes.
fn write_literal<W: fmt::Write>(f: &mut fmt::Formatter<W>, text: &[u8]) -> fmt::Result {
    f.write_char('"')?;
    write_bytes(f, text)?;
    f.write_char('"')
}

/// Writes a word, a literal or a period as it is told.
pub(crate) fn write_word<W: fmt::Write>(f: &mut fmt::Formatter<W>, word: &Token) -> fmt::Result {
    match word.kind {
        TokenKind::Word => write_bytes(f, word.text.as_slice()),
        TokenKind::Literal => write_literal(f, word.text.as_slice()),
        TokenKind::Stop => f.write_str("the period"),
    }
}

/// Writes a word behind a space.
fn write_next<W: fmt::Write>(f: &mut fmt::Formatter<W>, word: &Token) -> fmt::Result {
    f.write_char(' ')?;
    write_word(f, word)
}

/// Writes words with spaces between them.
pub(crate) fn write_words<W: fmt::Write>(
    f: &mut fmt::Formatter<W>,
    words: &[Token],
) -> fmt::Result {
    let Some((first, others)) = words.split_first() else {
        return Ok(());
    };
    write_word(f, first)?;
    for word in others {
        write_next(f, word)?;
    }
    Ok(())
}
