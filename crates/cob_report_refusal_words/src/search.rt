//! Entries of a text that are looked for.

use crate::conditions::first_value;
use crate::entry::{behind_many, entry_at, level_of, name_word, words_from};
use crate::near::is_near;
use crate::statements::is_constant;
use crate::terms::is_term;
use cob_copybook_clauses::{WordClass, is_condition, sentence_at};
use cob_source::Token;

/// More levels than there are.
pub(crate) const MOST_LEVELS: usize = 50;

/// Which entries are looked for.
#[derive(Clone, Copy)]
pub(crate) enum Looked<'a> {
    /// Those with this name.
    Named(&'a [u8]),
    /// Those whose name is near to it.
    Near(&'a [u8]),
    /// Those of a lower level than this.
    Below(u32),
    /// Those of this level that begin an area.
    Area(u32),
    /// Those of level 88 with this name that list values.
    Condition(&'a [u8]),
    /// Those of level 88 that list values, with a name that is near to it.
    NearCondition(&'a [u8]),
}

impl Looked<'_> {
    /// Whether entries of level 88 are looked for, and no others.
    fn is_of_conditions(self) -> bool {
        matches!(self, Looked::Condition(_) | Looked::NearCondition(_))
    }
}

/// Whether an entry of level 88 lists values: one that doesn't names nothing.
fn lists_values(entry: &[Token]) -> bool {
    match first_value(entry) {
        Some(word) => is_constant(word) || is_term(word, WordClass::All),
        None => false,
    }
}

/// Whether an entry has this name.
pub(crate) fn has_name(entry: &[Token], name: &[u8]) -> bool {
    match name_word(entry) {
        Some(word) => word.text.as_slice() == name,
        None => false,
    }
}

/// Whether the name of an entry is near to this one.
fn has_near_name(entry: &[Token], name: &[u8]) -> bool {
    match name_word(entry) {
        Some(word) => is_near(word.text.as_slice(), name),
        None => false,
    }
}

/// Whether an entry of this level begins an area.
fn begins_area(entry: &[Token], level: u32) -> bool {
    level_of(entry) == level && words_from(entry, WordClass::Redefines).is_none()
}

/// Whether an entry is one that is looked for.
fn is_looked(entry: &[Token], looked: Looked<'_>) -> bool {
    match looked {
        Looked::Named(name) => has_name(entry, name),
        Looked::Near(name) => has_near_name(entry, name),
        Looked::Below(level) => level_of(entry) < level,
        Looked::Area(level) => begins_area(entry, level),
        Looked::Condition(name) => has_name(entry, name) && lists_values(entry),
        Looked::NearCondition(name) => has_near_name(entry, name) && lists_values(entry),
    }
}

/// Entries that are found.
#[derive(Clone, Copy)]
pub(crate) struct Found {
    /// How many there are.
    pub(crate) count: usize,
    /// How many words stand before the first of them.
    pub(crate) first: Option<usize>,
    /// How many words stand before the last of them.
    pub(crate) last: Option<usize>,
}

/// What is found, with one more entry.
fn with_entry(found: Found, before: usize) -> Found {
    Found {
        count: found.count.saturating_add(1),
        first: Some(found.first.unwrap_or(before)),
        last: Some(before),
    }
}

/// The entries that are looked for among these words, with fewer than so many words before them, and no fewer than others.
pub(crate) fn found_between(words: &[Token], from: usize, end: usize, looked: Looked<'_>) -> Found {
    let mut found = Found {
        count: 0,
        first: None,
        last: None,
    };
    let mut before: usize = 0;
    for _ in 0..words.len() {
        let Some((sentence, _)) = sentence_at(behind_many(words, before)) else {
            return found;
        };
        if before >= end {
            return found;
        }
        let may_be = before >= from && is_condition(sentence) == looked.is_of_conditions();
        if may_be && is_looked(entry_at(words, before), looked) {
            found = with_entry(found, before);
        }
        before = before.saturating_add(sentence.len()).saturating_add(1);
    }
    found
}

/// The entries that are looked for among these words.
pub(crate) fn found_in(words: &[Token], looked: Looked<'_>) -> Found {
    found_between(words, 0, words.len(), looked)
}

/// The entries that are looked for with fewer than so many words before them.
pub(crate) fn found_before(words: &[Token], end: usize, looked: Looked<'_>) -> Found {
    found_between(words, 0, end, looked)
}

/// How many words stand before the entry that would hold one of this level behind so many words, if there is one.
pub(crate) fn holder_of(words: &[Token], before: usize, level: u32) -> Option<usize> {
    found_before(words, before, Looked::Below(level)).last
}

/// How many words stand before the entry that holds the one behind so many words, if there is one.
pub(crate) fn holder_at(words: &[Token], before: usize) -> Option<usize> {
    holder_of(words, before, level_of(entry_at(words, before)))
}
