//! What is told of one refusal.

ghost use Rattle.std.specs.Prelude.{◌≡◌, IfSome};
ghost use Rattle.cob_source.specs.Tokens.{lexemes};
ghost use Rattle.cob_report_refusal_words.specs.Pointing.{IsUnderOne};

use crate::phrases::Phrase;
use cob_report_refusals::{Spot, spot_at};
use cob_source::{Token, TokenKind};

/// The last column that is read.
const LAST_COLUMN: u32 = 72;

/// Where a refusal is pointed at: so many columns of a line.
#[derive(Clone, Copy)]
pub struct Caret {
    /// The line, from 1.
    pub line: u32,
    /// The first column, from 1.
    pub column: u32,
    /// How many columns.
    pub width: u32,
}

/// What is wrong, where, and what to do.
#[derive(Clone, Copy)]
pub struct Told<'a> {
    /// Where, if a word or a byte shows it.
    pub at: Option<Caret>,
    /// What is wrong.
    pub(crate) what: Phrase<'a>,
    /// What to do, if that is known.
    pub(crate) hint: Option<Phrase<'a>>,
}

/// How many columns a word takes on its own line.
fn width_of(word: &Token) -> u32 {
    let characters = word.text.len().min(100) as u32;
    let written = match word.kind {
        TokenKind::Literal => characters.saturating_add(2),
        TokenKind::Word | TokenKind::Stop => characters,
    };
    let left = (LAST_COLUMN + 1).saturating_sub(u32::from(word.column));
    written.min(left).max(1)
}

impl Caret {
    /// Under a word.
    pub(crate) fn under(word: &Token) -> Caret
        ensures line { result.line ≡ word.now.line }
        ensures column { result.column ≡ word.now.column }
    {
        Caret {
            line: word.line,
            column: u32::from(word.column),
            width: width_of(word),
        }
    }

    /// Under a word, if it is there, and else under the first of these, if there is one.
    pub(crate) fn under_word(word: Option<&Token>, words: &[Token]) -> Option<Caret> {
        match word {
            Some(word) => Some(Caret::under(word)),
            None => Caret::under_first(words),
        }
    }

    /// Under the first of these words, if there is one.
    pub(crate) fn under_first(words: &[Token]) -> Option<Caret> {
        match words.first() {
            Some(word) => Some(Caret::under(word)),
            None => None,
        }
    }
}

/// How many of these words stand before the one that a caret is under, if it is under one of them.
fn number_under(words: &[Token], caret: Caret) -> Option<usize> {
    for (at, word) in words.iter().enumerate() {
        if word.line == caret.line && u32::from(word.column) == caret.column {
            return Some(at);
        }
    }
    None
}

/// So many columns from a place on.
fn caret_at(spot: Spot, width: u32) -> Caret
    ensures line { result.line ≡ spot.line }
    ensures column { result.column ≡ spot.column }
{
    Caret {
        line: spot.line,
        column: u32::from(spot.column),
        width,
    }
}

/// A caret, at the place of that one of these words which it is under; none where it is under none of them.
fn caret_among(words: &[Token], at: Option<Caret>) -> Option<Caret>
    ensures { IfSome result (λ c. IsUnderOne c (lexemes words.now)) }
{
    let caret = at?;
    match spot_at(words, number_under(words, caret)?) {
        Some(spot) => Some(caret_at(spot, caret.width)),
        None => None,
    }
}

impl<'a> Told<'a> {
    /// The same, pointed at one of these words.
    pub(crate) fn among(self, words: &[Token]) -> Told<'a>
        ensures { IfSome result.at (λ c. IsUnderOne c (lexemes words.now)) }
    {
        let Told { at, what, hint } = self;
        Told {
            at: caret_among(words, at),
            what,
            hint,
        }
    }
}

/// What is wrong there.
pub(crate) fn said<'a>(at: Option<Caret>, what: Phrase<'a>) -> Told<'a> {
    Told {
        at,
        what,
        hint: None,
    }
}

/// What is wrong with a word.
pub(crate) fn said_at<'a>(word: &Token, what: Phrase<'a>) -> Told<'a> {
    said(Some(Caret::under(word)), what)
}

/// What is wrong with the first of these words, in a form without places.
pub(crate) fn said_plainly<'a>(words: &[Token], what: &'static str) -> Told<'a> {
    said(Caret::under_first(words), Phrase::plain(what))
}

/// What is wrong there, and what to do.
pub(crate) fn advised<'a>(at: Option<Caret>, what: Phrase<'a>, hint: Phrase<'a>) -> Told<'a> {
    Told {
        at,
        what,
        hint: Some(hint),
    }
}

/// What is wrong with a word, and what to do, in a form without places.
pub(crate) fn advised_at<'a>(word: &Token, what: Phrase<'a>, hint: &'static str) -> Told<'a> {
    advised(Some(Caret::under(word)), what, Phrase::plain(hint))
}

/// What is wrong with the first of these words, and what to do, in a form without places.
pub(crate) fn advised_first<'a>(words: &[Token], what: Phrase<'a>, hint: &'static str) -> Told<'a> {
    advised(Caret::under_first(words), what, Phrase::plain(hint))
}

/// What is wrong with the first of these words, and what to do, both in forms without places.
pub(crate) fn advised_plainly<'a>(
    words: &[Token],
    what: &'static str,
    hint: &'static str,
) -> Told<'a> {
    advised_first(words, Phrase::plain(what), hint)
}
