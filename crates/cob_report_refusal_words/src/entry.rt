//! The words of an entry: those up to its period.

use crate::clauses::clause_name;
use crate::terms::{is_term, whole};
use crate::words::write_word;
use cob_copybook_clauses::WordClass;
use cob_source::{Token, TokenKind};
use std::fmt;

/// The words behind so many of them.
pub(crate) fn behind_many(words: &[Token], count: usize) -> &[Token] {
    let (_, rest) = words.split_at(count.min(words.len()));
    rest
}

/// So many of the words.
pub(crate) fn front_of(words: &[Token], count: usize) -> &[Token] {
    let (front, _) = words.split_at(count.min(words.len()));
    front
}

/// How many words stand before the first period.
fn sentence_len(words: &[Token]) -> usize {
    for (at, word) in words.iter().enumerate() {
        if word.kind == TokenKind::Stop {
            return at;
        }
    }
    words.len()
}

/// The words of the entry that begins with the first of these, up to its period.
pub(crate) fn entry_in_front(words: &[Token]) -> &[Token] {
    front_of(words, sentence_len(words))
}

/// The words of the entry with so many words before it.
pub(crate) fn entry_at(words: &[Token], before: usize) -> &[Token] {
    entry_in_front(behind_many(words, before))
}

/// The line of an entry's first word.
pub(crate) fn line_of(entry: &[Token]) -> u32 {
    match entry.first() {
        Some(first) => first.line,
        None => 0,
    }
}

/// The level of an entry, 0 where none is written.
pub(crate) fn level_of(entry: &[Token]) -> u32 {
    match entry.first() {
        Some(level) => whole(level.text.as_slice(), 2).unwrap_or(0),
        None => 0,
    }
}

/// The words of an entry that stand before the last of them.
pub(crate) fn words_before<'a>(words: &'a [Token], rest: &[Token]) -> &'a [Token] {
    front_of(words, words.len().saturating_sub(rest.len()))
}

/// The last of these words, at most so many.
pub(crate) fn last_words(words: &[Token], most: usize) -> &[Token] {
    behind_many(words, words.len().saturating_sub(most))
}

/// Whether the word behind a level names the entry.
fn names_entry(word: &Token) -> bool {
    word.kind == TokenKind::Word && !is_term(word, WordClass::Filler) && clause_name(word).is_none()
}

/// The word that names an entry, if it has a name.
pub(crate) fn name_word(entry: &[Token]) -> Option<&Token> {
    match entry.get(1) {
        Some(word) if names_entry(word) => Some(word),
        _ => None,
    }
}

/// Writes an entry as it is told: by its name, or by its line.
pub(crate) fn write_entry<W: fmt::Write>(
    f: &mut fmt::Formatter<W>,
    entry: &[Token],
) -> fmt::Result {
    match name_word(entry) {
        Some(word) => write_word(f, word),
        None => write!(f, "the entry in line {}", line_of(entry)),
    }
}

/// Writes what an entry is: its picture, or that it is a group.
pub(crate) fn write_picture<W: fmt::Write>(
    f: &mut fmt::Formatter<W>,
    entry: &[Token],
) -> fmt::Result {
    match picture_word(entry) {
        Some(word) => {
            f.write_str("PIC ")?;
            write_word(f, word)
        }
        None => f.write_str("a group"),
    }
}

/// Writes what an entry is behind its name and a comma.
pub(crate) fn write_described<W: fmt::Write>(
    f: &mut fmt::Formatter<W>,
    entry: &[Token],
) -> fmt::Result {
    f.write_str(", ")?;
    write_picture(f, entry)
}

/// The words from the first of this kind on, if there is one.
pub(crate) fn words_from(words: &[Token], term: WordClass) -> Option<&[Token]> {
    for (at, word) in words.iter().enumerate() {
        if is_term(word, term) {
            return Some(behind_many(words, at));
        }
    }
    None
}

/// The first word of this kind, if there is one.
pub(crate) fn word_of(words: &[Token], term: WordClass) -> Option<&Token> {
    for word in words {
        if is_term(word, term) {
            return Some(word);
        }
    }
    None
}

/// The second of these words, or the third where the second is one that may be left out.
fn second_word(words: &[Token], between: WordClass) -> Option<&Token> {
    match words.get(1) {
        Some(word) if is_term(word, between) => words.get(2),
        word => word,
    }
}

/// The first word behind this one, one that may be left out passed over.
pub(crate) fn word_behind(words: &[Token], term: WordClass, between: WordClass) -> Option<&Token> {
    match words_from(words, term) {
        Some(own) => second_word(own, between),
        None => None,
    }
}

/// The picture of an entry, if it has one.
pub(crate) fn picture_word(entry: &[Token]) -> Option<&Token> {
    word_behind(entry, WordClass::Picture, WordClass::Is)
}

/// The word that names the count of a table, if one does.
pub(crate) fn count_word(entry: &[Token]) -> Option<&Token> {
    word_behind(entry, WordClass::Depending, WordClass::On)
}
