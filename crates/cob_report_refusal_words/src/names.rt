//! Names that are none.

use crate::entry::{count_word, name_word, word_behind};
use crate::phrases::{Part, Phrase};
use crate::told::{Told, advised_at, said_plainly};
use cob_copybook_clauses::{WordClass, is_name};
use cob_source::Token;
use std::slice;

/// The word, if it is there and is no name.
fn if_none(word: Option<&Token>) -> Option<&Token> {
    match word {
        Some(word) if !is_name(word.text.as_slice()) => Some(word),
        _ => None,
    }
}

/// The first text of an entry that stands in a name's place and is none.
fn no_name(entry: &[Token]) -> Option<&Token> {
    let redefined = word_behind(entry, WordClass::Redefines, WordClass::Stop);
    let others = if_none(redefined).or(if_none(count_word(entry)));
    if_none(name_word(entry)).or(others)
}

/// Whether a character may stand in a name.
fn may_stand(character: u8) -> bool {
    matches!(character, b'A'..=b'Z' | b'0'..=b'9' | b'-' | b'_')
}

/// The first character that may stand in no name.
fn foreign_character(text: &[u8]) -> Option<&u8> {
    for character in text {
        if !may_stand(*character) {
            return Some(character);
        }
    }
    None
}

/// Whether a text has a letter.
fn has_letter(text: &[u8]) -> bool {
    for character in text {
        if character.is_ascii_uppercase() {
            return true;
        }
    }
    false
}

/// How it is told why a text is no name whose first character may be that of one.
fn later_form(text: &[u8]) -> &'static str {
    if matches!(text.last(), Some(b'-')) {
        "{} is no name: it ends in a hyphen"
    } else if has_letter(text) {
        "{} is no name: it is a reserved word"
    } else {
        "{} is no name: it has no letter"
    }
}

/// How it is told why a text is no name that has its characters.
fn form_of(text: &[u8]) -> &'static str {
    if text.len() > 30 {
        return "{} is no name: it has {} characters, and 30 are the most";
    }
    match text.first() {
        Some(b'-') => "{} is no name: it begins with a hyphen",
        Some(b'_') => "{} is no name: it begins with an underscore",
        _ => later_form(text),
    }
}

/// Why a word is no name.
fn what_of(word: &Token) -> Phrase<'_> {
    let text = word.text.as_slice();
    match foreign_character(text) {
        Some(character) => Phrase::of_two(
            "{} is no name: it has letters, digits, hyphens and underscores, and {} is none of them",
            Part::Word(word),
            Part::Bytes(slice::from_ref(character)),
        ),
        None => Phrase::of_two(form_of(text), Part::Word(word), Part::Number(text.len())),
    }
}

/// What to do with a text that is no name.
fn hint_of(text: &[u8]) -> &'static str {
    if text.contains(&b':') {
        "replace the text between colons by a prefix: --replace ':TAG:=CUST' does so for :TAG:"
    } else {
        "rename the entry"
    }
}

/// What is told of an entry with a name that is none.
pub(crate) fn told_name(entry: &[Token]) -> Told<'_> {
    match no_name(entry) {
        Some(word) => advised_at(word, what_of(word), hint_of(word.text.as_slice())),
        None => said_plainly(entry, "a name in it is none"),
    }
}
