//! Levels that do not fit.

use crate::entry::{entry_at, level_of, picture_word};
use crate::phrases::{Part, Phrase};
use crate::search::holder_of;
use crate::told::{Caret, Told, advised, advised_first, said};
use cob_source::Token;

/// What is told of an entry beneath one with a picture.
fn told_beneath<'a>(entry: &'a [Token], holder: &'a [Token]) -> Told<'a> {
    let upper = Part::Level(level_of(holder));
    advised(
        Caret::under_first(entry),
        Phrase::of_four(
            "{}, level {}, stands beneath {}, level {}, which has a picture",
            Part::Entry(entry),
            Part::Level(level_of(entry)),
            Part::Entry(holder),
            upper,
        ),
        Phrase::of_three(
            "give {} no picture, so that it is a group, or {} the level {}",
            Part::Entry(holder),
            Part::Entry(entry),
            upper,
        ),
    )
}

/// What is told of an entry with neither a picture nor entries beneath it.
fn told_empty(entry: &[Token]) -> Told<'_> {
    advised_first(
        entry,
        Phrase::of(
            "{} has no picture and nothing beneath it",
            Part::Entry(entry),
        ),
        "give it a picture, or put entries with a higher level behind it",
    )
}

/// What is told of a record that begins behind another one, where an option of this name chooses one.
fn told_second_record<'a>(entry: &'a [Token], option: &'a str) -> Told<'a> {
    advised(
        Caret::under_first(entry),
        Phrase::plain("a second record begins, and a copybook has one"),
        Phrase::of(
            "--{} NAME chooses one; or a copybook for each type of record",
            Part::Text(option),
        ),
    )
}

/// The entry that would hold one of this level behind so many words, if it has a picture.
fn pictured_holder(words: &[Token], before: usize, level: u32) -> Option<&[Token]> {
    let holder = entry_at(words, holder_of(words, before, level)?);
    if picture_word(holder).is_some() {
        Some(holder)
    } else {
        None
    }
}

/// What is told of an entry with a level that does not fit, before which so many words stand. An option of this name chooses a record.
pub(crate) fn told_level_rule<'a>(
    words: &'a [Token],
    before: usize,
    entry: &'a [Token],
    option: &'a str,
) -> Told<'a> {
    let level = level_of(entry);
    if level == 0 || level > 49 {
        return said(
            Caret::under_first(entry),
            Phrase::of("level {} is none of 01 to 49", Part::Level(level)),
        );
    }
    if level == 1 && before > 0 {
        return told_second_record(entry, option);
    }
    match pictured_holder(words, before, level) {
        Some(holder) => told_beneath(entry, holder),
        None => told_empty(entry),
    }
}
