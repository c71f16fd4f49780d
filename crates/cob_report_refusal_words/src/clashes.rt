//! Clauses that do not go with each other, or with those of a group.

use crate::entry::{entry_at, line_of, picture_word, word_of, words_from};
use crate::phrases::{Part, Phrase};
use crate::search::{MOST_LEVELS, holder_at};
use crate::told::{Caret, Told, advised, advised_at, advised_first, said};
use cob_copybook_clauses::WordClass;
use cob_copybook_entry::{Usage, UsageWord, usage_word};
use cob_picture::{Category, Picture};
use cob_source::Token;

/// What to do where a usage does not fit.
const USAGE_HINT: &str = "leave the usage out, or change the picture";

/// The word that names the usage of an entry, if there is one.
fn usage_in(entry: &[Token]) -> Option<&Token> {
    word_of(entry, WordClass::UsageName)
}

/// The usage that a word names.
fn usage_of(word: &Token) -> Option<Usage> {
    match usage_word(word.text.as_slice()) {
        Some(UsageWord::Names(usage)) => Some(usage),
        _ => None,
    }
}

/// Whether a group has another usage than this.
fn has_other_usage(group: &[Token], own: &Token) -> bool {
    match usage_in(group) {
        Some(above) => usage_of(above) != usage_of(own),
        None => false,
    }
}

/// The innermost group with another usage than an entry in it, before which so many words stand, if there is one.
fn clash_above<'a>(words: &'a [Token], before: usize, own: &Token) -> Option<&'a [Token]> {
    let mut at = before;
    for _ in 0..MOST_LEVELS {
        at = holder_at(words, at)?;
        let group = entry_at(words, at);
        if has_other_usage(group, own) {
            return Some(group);
        }
    }
    None
}

/// What is told of a usage that is another than that of a group.
fn told_clash<'a>(entry: &'a [Token], own: &'a Token, group: &'a [Token]) -> Told<'a> {
    let above = usage_in(group).unwrap_or(own);
    advised_at(
        own,
        Phrase::of_five(
            "{} is {}, and the group {} (line {}) is {}",
            Part::Entry(entry),
            Part::Word(own),
            Part::Entry(group),
            Part::Number(line_of(group) as usize),
            Part::Word(above),
        ),
        USAGE_HINT,
    )
}

/// A usage, as its word or as that of a group.
fn usage_part(entry: &[Token]) -> Part<'_> {
    match usage_in(entry) {
        Some(word) => Part::Word(word),
        None => Part::Text("the usage of its group"),
    }
}

/// What is wrong with the usage of an entry with a picture.
fn suit_words<'a>(entry: &'a [Token], word: &'a Token) -> Phrase<'a> {
    let usage = usage_part(entry);
    let text = word.text.as_slice();
    match Picture::read(text) {
        Ok(picture) if picture.category() == Category::Numeric => Phrase::of_three(
            "{} has up to 18 digits, and PIC {} has {}",
            usage,
            Part::Bytes(text),
            Part::Number(usize::from(picture.digits())),
        ),
        _ => Phrase::of_two(
            "{} stands with PIC {}, which is no number",
            usage,
            Part::Bytes(text),
        ),
    }
}

/// What is told of a usage that does not fit the picture of its entry.
fn told_unsuited(entry: &[Token]) -> Told<'_> {
    let what = match picture_word(entry) {
        Some(picture) => suit_words(entry, picture),
        None => Phrase::of("{} does not fit the entry", usage_part(entry)),
    };
    advised(
        Caret::under_word(usage_in(entry), entry),
        what,
        Phrase::plain(USAGE_HINT),
    )
}

/// What is told of an entry whose usage does not fit, before which so many words stand.
pub(crate) fn told_usage<'a>(words: &'a [Token], before: usize, entry: &'a [Token]) -> Told<'a> {
    let Some(own) = usage_in(entry) else {
        return told_unsuited(entry);
    };
    match clash_above(words, before, own) {
        Some(group) => told_clash(entry, own, group),
        None => told_unsuited(entry),
    }
}

/// The first word of a SIGN clause.
fn sign_word(entry: &[Token]) -> Option<&Token> {
    for term in &[WordClass::Sign, WordClass::Leading, WordClass::Trailing] {
        if let Some(word) = word_of(entry, *term) {
            return Some(word);
        }
    }
    None
}

/// Whether a picture begins with S.
fn has_sign(picture: &Token) -> bool {
    picture.text.first().copied().unwrap_or(b'9') == b'S'
}

/// What is told of an entry with this picture whose SIGN does not fit.
fn told_pictured<'a>(at: Option<Caret>, entry: &'a [Token], picture: &'a Token) -> Told<'a> {
    if has_sign(picture) {
        return advised(
            at,
            Phrase::of(
                "SIGN is for DISPLAY, and {} is of another usage",
                Part::Entry(entry),
            ),
            Phrase::plain("leave SIGN out"),
        );
    }
    advised(
        at,
        Phrase::of_two(
            "SIGN is for a number with a sign, and {}, PIC {}, has no S",
            Part::Entry(entry),
            Part::Word(picture),
        ),
        Phrase::of(
            "write PIC S{} where it is a number with a sign, or leave SIGN out",
            Part::Word(picture),
        ),
    )
}

/// What is told of an entry whose SIGN does not fit.
pub(crate) fn told_sign(entry: &[Token]) -> Told<'_> {
    let at = Caret::under_word(sign_word(entry), entry);
    match picture_word(entry) {
        Some(picture) => told_pictured(at, entry, picture),
        None => said(
            at,
            Phrase::of("{} has a SIGN that it can't have", Part::Entry(entry)),
        ),
    }
}

/// Whether an entry has a picture of characters that are not edited.
fn takes_characters(entry: &[Token]) -> bool {
    match picture_word(entry) {
        Some(word) => match Picture::read(word.text.as_slice()) {
            Ok(picture) => matches!(
                picture.category(),
                Category::Alphabetic | Category::Alphanumeric
            ),
            Err(_) => false,
        },
        None => false,
    }
}

/// What is told of a clause that can't be where it stands.
fn told_misplaced<'a>(entry: &'a [Token], clause: &[Token], form: &'static str) -> Told<'a> {
    advised_first(
        clause,
        Phrase::of_two(form, Part::Entry(entry), Part::Picture(entry)),
        "leave the clause out",
    )
}

/// What is told of JUSTIFIED or BLANK WHEN ZERO where it can't be.
pub(crate) fn told_placement(entry: &[Token]) -> Told<'_> {
    let blank = words_from(entry, WordClass::Blank);
    if let Some(justified) = words_from(entry, WordClass::Justified) {
        if blank.is_none() || !takes_characters(entry) {
            return told_misplaced(
                entry,
                justified,
                "JUSTIFIED is for PIC X or A, and {} is {}",
            );
        }
    }
    told_misplaced(
        entry,
        blank.unwrap_or(entry),
        "BLANK WHEN ZERO is for an edited number without *, or a DISPLAY number without S and P, and {} is {}",
    )
}
