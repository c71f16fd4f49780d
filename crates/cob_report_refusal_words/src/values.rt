//! Values that an entry can't have.

use crate::entry::{picture_word, word_behind};
use crate::phrases::{Part, Phrase};
use crate::told::{Told, advised_at, said_plainly};
use cob_copybook_clauses::WordClass;
use cob_copybook_entries::is_numeric_literal;
use cob_picture::{Category, Picture};
use cob_source::{Token, TokenKind};

/// The constant of a VALUE clause: its literal, or the word.
fn constant_word(entry: &[Token]) -> Option<&Token> {
    match word_behind(entry, WordClass::Value, WordClass::Is) {
        Some(first) if first.text.as_slice() == b"ALL".as_slice() => {
            word_behind(entry, WordClass::Value, WordClass::All).or(Some(first))
        }
        first => first,
    }
}

/// How many digits of a numeric literal stand before its point, and how many behind it.
fn digits_of(text: &[u8]) -> (usize, usize) {
    let mut before: usize = 0;
    let mut after: usize = 0;
    let mut is_behind = false;
    for character in text {
        if *character == b'.' {
            is_behind = true;
        } else if character.is_ascii_digit() && is_behind {
            after = after.saturating_add(1);
        } else if character.is_ascii_digit() {
            before = before.saturating_add(1);
        }
    }
    (before, after)
}

/// What a literal breaks by itself: it has too many characters, or none.
fn literal_words(count: usize) -> Option<Phrase<'static>> {
    if count > 160 {
        return Some(Phrase::of(
            "the literal has {} characters, and 160 are the most",
            Part::Number(count),
        ));
    }
    if count == 0 {
        return Some(Phrase::plain("the literal has no characters"));
    }
    None
}

/// What a number breaks by itself: it has too many digits.
fn digit_words(word: &Token) -> Option<Phrase<'static>> {
    let (before, after) = digits_of(word.text.as_slice());
    let digits = before.saturating_add(after);
    if digits > 31 {
        return Some(Phrase::of(
            "the number has {} digits, and 31 are the most",
            Part::Number(digits),
        ));
    }
    None
}

/// What a constant breaks by itself, if it does.
fn own_words(word: &Token) -> Option<Phrase<'static>> {
    match word.kind {
        TokenKind::Literal => literal_words(word.text.len()),
        TokenKind::Word | TokenKind::Stop => digit_words(word),
    }
}

/// What a number has more of than a picture: so many digits, where the picture has room for so many.
fn beyond<'a>(
    form: &'static str,
    word: &'a Token,
    shown: Part<'a>,
    digits: usize,
    room: i16,
) -> Option<Phrase<'a>> {
    let room = room.max(0) as usize;
    if digits > room {
        return Some(Phrase::of_four(
            form,
            Part::Word(word),
            Part::Number(digits),
            shown,
            Part::Number(room),
        ));
    }
    None
}

/// Whether a number begins with a sign.
fn is_signed(word: &Token) -> bool {
    matches!(word.text.first(), Some(b'+') | Some(b'-'))
}

/// Why a number is none that an item with this picture can hold, where its digits behind the point fit.
fn sign_words<'a>(
    word: &'a Token,
    shown: Part<'a>,
    picture: &Picture,
    before: usize,
) -> Option<Phrase<'a>> {
    if is_signed(word) && !picture.signed() {
        return Some(Phrase::of_two(
            "{} has a sign, and PIC {} has none",
            Part::Word(word),
            shown,
        ));
    }
    beyond(
        "{} has {} digits before the point, and PIC {} has {}",
        word,
        shown,
        before,
        picture.digits_before(),
    )
}

/// Why a number is none that an item with this picture can hold.
fn number_words<'a>(word: &'a Token, shown: Part<'a>, picture: &Picture) -> Option<Phrase<'a>> {
    let (before, after) = digits_of(word.text.as_slice());
    let behind = beyond(
        "{} has {} digits behind the point, and PIC {} has {}",
        word,
        shown,
        after,
        i16::from(picture.scale()),
    );
    if behind.is_some() {
        return behind;
    }
    sign_words(word, shown, picture, before)
}

/// Why an item with this picture can't have this constant, if the picture shows it.
fn item_words<'a>(word: &'a Token, shown: Part<'a>, picture: &Picture) -> Option<Phrase<'a>> {
    let is_number = word.kind == TokenKind::Word && is_numeric_literal(word.text.as_slice());
    let is_numeric = picture.category() == Category::Numeric;
    let form = match (is_number, is_numeric) {
        (true, true) => return number_words(word, shown, picture),
        (true, false) => "{} is a number, and PIC {} is characters",
        (false, true) => "{} is no number, and PIC {} is one",
        (false, false) => return length_words(word, shown, picture),
    };
    Some(Phrase::of_two(form, Part::Word(word), shown))
}

/// Why an item of characters can't have this constant, if it has too many.
fn length_words<'a>(word: &'a Token, shown: Part<'a>, picture: &Picture) -> Option<Phrase<'a>> {
    let count = word.text.len();
    let size = usize::from(picture.size());
    if word.kind == TokenKind::Literal && count > size {
        return Some(Phrase::of_four(
            "{} has {} characters, and PIC {} has {}",
            Part::Word(word),
            Part::Number(count),
            shown,
            Part::Number(size),
        ));
    }
    None
}

/// Why an item can't have this constant, if its picture, which is this word, shows it.
fn read_words<'a>(word: &'a Token, picture: &'a Token) -> Option<Phrase<'a>> {
    let text = picture.text.as_slice();
    match Picture::read(text) {
        Ok(read) => item_words(word, Part::Bytes(text), &read),
        Err(_) => None,
    }
}

/// Why an entry can't have this constant, if its picture shows it.
fn picture_words<'a>(entry: &'a [Token], word: &'a Token) -> Option<Phrase<'a>> {
    match picture_word(entry) {
        Some(picture) => read_words(word, picture),
        None => None,
    }
}

/// What is wrong with the constant of an entry.
fn what_of<'a>(entry: &'a [Token], word: &'a Token) -> Phrase<'a> {
    if let Some(words) = own_words(word) {
        return words;
    }
    match picture_words(entry, word) {
        Some(words) => words,
        None => Phrase::of(
            "{} has a VALUE that it can't have: it is a group that is shorter or holds a VALUE, or stands in a redefinition or beneath a group with a VALUE",
            Part::Entry(entry),
        ),
    }
}

/// What is told of an entry whose VALUE is none that it can have.
pub(crate) fn told_value(entry: &[Token]) -> Told<'_> {
    match constant_word(entry) {
        Some(word) => advised_at(
            word,
            what_of(entry, word),
            "write a value that fits, or leave the clause out",
        ),
        None => said_plainly(entry, "the VALUE is none that it can have"),
    }
}
