//! Names of other entries: of an area that is redefined, and of the count of a table.

use crate::entry::{
    count_word, entry_at, front_of, level_of, line_of, picture_word, word_behind, words_from,
};
use crate::phrases::{Part, Phrase};
use crate::search::{Looked, found_before, found_in};
use crate::told::{Caret, Told, advised, advised_at, said};
use cob_copybook_clauses::WordClass;
use cob_picture::{Category, Picture};
use cob_source::Token;

/// An entry that is near, with its line.
fn near_words(entry: &[Token]) -> Phrase<'_> {
    Phrase::of_two(
        "{} (line {}) is near to it",
        Part::Entry(entry),
        Part::Number(line_of(entry) as usize),
    )
}

/// The last entry among these words whose name is near to this one, with its line, if there is one.
fn near_hint<'a>(words: &'a [Token], name: &[u8]) -> Option<Phrase<'a>> {
    match found_in(words, Looked::Near(name)).last {
        Some(before) => Some(near_words(entry_at(words, before))),
        None => None,
    }
}

/// What is told where no entry before another has the name that it redefines.
fn told_none<'a>(front: &'a [Token], entry: &'a [Token], word: &'a Token) -> Told<'a> {
    Told {
        at: Some(Caret::under(word)),
        what: Phrase::of_two(
            "no entry before {} is named {}",
            Part::Entry(entry),
            Part::Word(word),
        ),
        hint: near_hint(front, word.text.as_slice()),
    }
}

/// Whether an entry has a clause that begins so.
fn has(entry: &[Token], term: WordClass) -> bool {
    words_from(entry, term).is_some()
}

/// The entry that began the area in front of an entry of this level, if it is another than this one, which has its own area.
fn area_between(front: &[Token], area: usize, level: u32) -> Option<&[Token]> {
    match found_in(front, Looked::Area(level)).last {
        Some(last) if last != area && !has(entry_at(front, area), WordClass::Redefines) => {
            Some(entry_at(front, last))
        }
        _ => None,
    }
}

/// What is wrong with the levels of an entry and of one that it redefines.
fn level_words<'a>(entry: &'a [Token], redefined: &'a [Token]) -> Phrase<'a> {
    Phrase::of_four(
        "{} has level {}, and {} has {}",
        Part::Entry(entry),
        Part::Level(level_of(entry)),
        Part::Entry(redefined),
        Part::Level(level_of(redefined)),
    )
}

/// Why an entry can't redefine the area of one of its level behind so many words before it.
fn place_words<'a>(front: &'a [Token], entry: &'a [Token], area: usize) -> Phrase<'a> {
    match area_between(front, area, level_of(entry)) {
        Some(between) => Phrase::of_three(
            "{} stands behind {}, and an area is redefined right behind it: here that of {}",
            Part::Entry(entry),
            Part::Entry(between),
            Part::Entry(between),
        ),
        None => Phrase::of_two(
            "{} is longer than {}, or one of both varies",
            Part::Entry(entry),
            Part::Entry(entry_at(front, area)),
        ),
    }
}

/// Why an entry can't redefine the area of one behind so many words before it.
fn area_words<'a>(front: &'a [Token], entry: &'a [Token], area: usize) -> Phrase<'a> {
    let redefined = entry_at(front, area);
    if level_of(entry) != level_of(redefined) {
        return level_words(entry, redefined);
    }
    if has(redefined, WordClass::Occurs) {
        return Phrase::of(
            "{} is a table, and a table is not redefined",
            Part::Entry(redefined),
        );
    }
    place_words(front, entry, area)
}

/// What is told of an entry that redefines one with this name, which it can't, behind these words.
fn told_area<'a>(front: &'a [Token], entry: &'a [Token], word: &'a Token) -> Told<'a> {
    let Some(area) = found_in(front, Looked::Named(word.text.as_slice())).last else {
        return told_none(front, entry, word);
    };
    advised(
        Some(Caret::under(word)),
        area_words(front, entry, area),
        Phrase::of_two(
            "move the entry of {} behind that of {}, with the same level and no more bytes",
            Part::Entry(entry),
            Part::Word(word),
        ),
    )
}

/// What is told of an entry that redefines what it can't, before which so many words stand.
pub(crate) fn told_redefinition<'a>(
    words: &'a [Token],
    before: usize,
    entry: &'a [Token],
) -> Told<'a> {
    match word_behind(entry, WordClass::Redefines, WordClass::Stop) {
        Some(word) => told_area(front_of(words, before), entry, word),
        None => said(
            Caret::under_first(entry),
            Phrase::of("{} can't redefine an area", Part::Entry(entry)),
        ),
    }
}

/// Whether a picture is that of a whole number.
fn is_whole(picture: &Token) -> bool {
    match Picture::read(picture.text.as_slice()) {
        Ok(picture) => picture.category() == Category::Numeric && picture.scale() == 0,
        Err(_) => false,
    }
}

/// Whether an entry is a whole number.
fn is_whole_number(entry: &[Token]) -> bool {
    match picture_word(entry) {
        Some(word) => is_whole(word),
        None => false,
    }
}

/// How it is told why the last of the entries with a name can't be the count of a table behind so many words.
fn count_form(words: &[Token], before: usize, name: &[u8], last: usize) -> &'static str {
    if found_before(words, before, Looked::Named(name)).count == 0 {
        "{} stands behind its table"
    } else if is_whole_number(entry_at(words, last)) {
        "{} stands in a table, or in another group than its qualifiers say"
    } else {
        "{} is no whole number"
    }
}

/// What is told of a count that no entry is named as.
fn told_no_count<'a>(words: &'a [Token], word: &'a Token) -> Told<'a> {
    Told {
        at: Some(Caret::under(word)),
        what: Phrase::of("no entry is named {}", Part::Word(word)),
        hint: near_hint(words, word.text.as_slice()),
    }
}

/// Why the last of so many entries with a name can't be the count of a table behind so many words.
fn count_words<'a>(
    words: &[Token],
    before: usize,
    word: &'a Token,
    count: usize,
    last: usize,
) -> Phrase<'a> {
    if count > 1 {
        return Phrase::of_two(
            "{} is {} entries, and its qualifiers do not tell one",
            Part::Word(word),
            Part::Number(count),
        );
    }
    let form = count_form(words, before, word.text.as_slice(), last);
    Phrase::of(form, Part::Word(word))
}

/// Why this can't be the count of a table behind so many words, and what to do.
fn told_of_count<'a>(words: &'a [Token], before: usize, word: &'a Token) -> Told<'a> {
    let found = found_in(words, Looked::Named(word.text.as_slice()));
    match found.last {
        Some(last) => advised_at(
            word,
            count_words(words, before, word, found.count, last),
            "a count is one whole number before its table, in no table itself",
        ),
        None => told_no_count(words, word),
    }
}

/// What is told of a table whose count is none, before which so many words stand.
pub(crate) fn told_count<'a>(words: &'a [Token], before: usize, entry: &'a [Token]) -> Told<'a> {
    match count_word(entry) {
        Some(word) => told_of_count(words, before, word),
        None => said(
            Caret::under_first(entry),
            Phrase::of("the count of {} is none", Part::Entry(entry)),
        ),
    }
}
