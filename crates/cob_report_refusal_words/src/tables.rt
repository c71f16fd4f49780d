//! Tables that can't be.

use crate::entry::{behind_many, level_of, word_behind, words_from};
use crate::phrases::{Part, Phrase};
use crate::terms::{behind, whole};
use crate::told::{Caret, Told, advised_at, said, said_at};
use cob_copybook_clauses::WordClass;
use cob_source::Token;

/// The most digits of a number of times.
const MOST_DIGITS: usize = 9;

/// The first number of an OCCURS clause, if an entry is a table.
fn first_number(entry: &[Token]) -> Option<&Token> {
    word_behind(entry, WordClass::Occurs, WordClass::Stop)
}

/// The word behind TO, if TO stands in front.
fn word_behind_to(words: &[Token]) -> Option<&Token> {
    match behind(words, WordClass::To) {
        Some(more) => more.first(),
        None => None,
    }
}

/// The number behind TO, of a table that varies.
fn number_behind_to(entry: &[Token]) -> Option<&Token> {
    match words_from(entry, WordClass::Occurs) {
        Some(occurs) => word_behind_to(behind_many(occurs, 2)),
        None => None,
    }
}

/// The number that a word is, if it has up to nine digits.
fn number_of(word: &Token) -> Option<u32> {
    whole(word.text.as_slice(), MOST_DIGITS)
}

/// How many elements a table has at most, where an entry is one.
pub(crate) fn greatest_number(entry: &[Token]) -> Option<u32> {
    let least = first_number(entry);
    match number_behind_to(entry).or(least) {
        Some(number) => number_of(number),
        None => None,
    }
}

/// What is wrong with the numbers of a table, of which this is the first, if something is.
fn number_words<'a>(entry: &'a [Token], word: &'a Token) -> Option<Phrase<'a>> {
    let count = word.text.len();
    if count > MOST_DIGITS {
        return Some(Phrase::of_two(
            "{} has {} digits, and 9 are the most",
            Part::Word(word),
            Part::Number(count),
        ));
    }
    match number_behind_to(entry) {
        Some(most) => if_no_more(word, most),
        None => if_empty(word),
    }
}

/// The number that a word is, 0 where it is none.
fn number_or_zero(word: &Token) -> u32 {
    number_of(word).unwrap_or(0)
}

/// What is wrong with the numbers of a table that varies, if the second is no greater.
fn if_no_more<'a>(least: &'a Token, most: &'a Token) -> Option<Phrase<'a>> {
    if number_or_zero(least) < number_or_zero(most) {
        return None;
    }
    Some(Phrase::of_two(
        "{} TO {}: the least number is below the greatest",
        Part::Word(least),
        Part::Word(most),
    ))
}

/// What is wrong with a table of so many elements, if it has none.
fn if_empty(word: &Token) -> Option<Phrase<'_>> {
    if number_or_zero(word) > 0 {
        return None;
    }
    Some(Phrase::of(
        "OCCURS {}: a table has one element at least",
        Part::Word(word),
    ))
}

/// What is told of a table that can't be where it stands, at its first number.
fn told_placed<'a>(entry: &'a [Token], word: &'a Token) -> Told<'a> {
    if level_of(entry) == 1 {
        return advised_at(
            word,
            Phrase::plain("OCCURS stands at level 01"),
            "put the table into a group beneath it",
        );
    }
    said_at(
        word,
        Phrase::of(
            "{} is an eighth table in one another, and seven are the most",
            Part::Entry(entry),
        ),
    )
}

/// What is told of an entry whose table can't be, of which this is the first number.
fn told_numbers<'a>(entry: &'a [Token], word: &'a Token) -> Told<'a> {
    match number_words(entry, word) {
        Some(words) => said_at(word, words),
        None => told_placed(entry, word),
    }
}

/// What is told of an entry whose table can't be.
pub(crate) fn told_table(entry: &[Token]) -> Told<'_> {
    match first_number(entry) {
        Some(word) => told_numbers(entry, word),
        None => said(
            Caret::under_first(entry),
            Phrase::of("{} can't be a table", Part::Entry(entry)),
        ),
    }
}
