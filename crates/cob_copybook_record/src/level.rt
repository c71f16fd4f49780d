//! The levels with which the parts of a record end.

ghost use Rattle.std.specs.Prelude.{◌≡◌};
ghost use Rattle.cob_source.specs.Tokens.{lexeme, lexemes};
ghost use Rattle.cob_copybook_record.specs.OneRecord.{ends_part, is_period_kind, is_record_level, is_record_named, is_text_of, is_top_level};

use cob_source::{Token, TokenKind};

/// A part of a record.
#[derive(Clone, Copy)]
pub(crate) enum RecordPart {
    /// Its own entries.
    Entries,
    /// The level 66 entries behind them.
    Renamings,
}

/// Whether a word has this text.
pub(crate) fn is_text_of(token: &Token, text: &[u8]) -> bool
    ensures { result ≡ is_text_of text.now (lexeme token.now) }
{
    token.kind == TokenKind::Word && token.text.as_slice() == text
}

/// Whether it is level 01.
pub(crate) fn is_record_level(token: &Token) -> bool
    ensures { result ≡ is_record_level (lexeme token.now) }
{
    is_text_of(token, b"01") || is_text_of(token, b"1")
}

/// Whether it is level 01 or 77.
fn is_top_level(token: &Token) -> bool
    ensures { result ≡ is_top_level (lexeme token.now) }
{
    is_record_level(token) || is_text_of(token, b"77")
}

/// Whether it is a level with which the part ends.
pub(crate) fn ends_part(part: RecordPart, token: &Token) -> bool
    ensures { result ≡ ends_part part (lexeme token.now) }
{
    match part {
        RecordPart::Entries => is_top_level(token) || is_text_of(token, b"66"),
        RecordPart::Renamings => is_top_level(token),
    }
}

/// Whether it is a period, behind which a sentence begins.
pub(crate) fn is_period(token: &Token) -> bool
    ensures { result ≡ is_period_kind (lexeme token.now).kind }
{
    match token.kind {
        TokenKind::Word | TokenKind::Literal => false,
        TokenKind::Stop => true,
    }
}

/// Whether a record of this name comes first.
pub(crate) fn is_record_named(words: &[Token], name: &[u8]) -> bool
    ensures { result ≡ is_record_named name.now (lexemes words.now) }
{
    let Some((level, more)) = words.split_first() else {
        return false;
    };
    match more.split_first() {
        Some((named, _)) => is_record_level(level) && is_text_of(named, name),
        None => false,
    }
}
