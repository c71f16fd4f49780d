//! Names of conditions: entries of level 88, each behind its item.

use crate::bearers::{Bearer, BothWords, only_one};
use crate::choices::is_one_of;
use crate::entry::{behind_many, front_of, line_of, name_word, words_from};
use crate::phrases::{Part, Phrase};
use crate::search::Looked;
use crate::statements::behind_reference;
use crate::terms::is_term;
use cob_copybook_clauses::WordClass;
use cob_source::Token;

/// The words of an entry of level 88 behind VALUE.
pub(crate) fn values_of(entry: &[Token]) -> &[Token] {
    match words_from(entry, WordClass::Value) {
        Some(words) => behind_many(words, 1),
        None => &[],
    }
}

/// The first word of an entry's values, IS and ARE passed over.
pub(crate) fn first_value(entry: &[Token]) -> Option<&Token> {
    let values = values_of(entry);
    match values.first() {
        Some(word) if is_term(word, WordClass::Is) || is_term(word, WordClass::Are) => {
            values.get(1)
        }
        first => first,
    }
}

/// The words before an operand that may be one alone: not those of a relation.
static BEFORE: [&str; 5] = ["IF", "WHEN", "AND", "OR", "NOT"];

/// The words behind an operand that is one alone.
static BEHIND: [&str; 3] = ["AND", "OR", "THEN"];

/// Whether an operand behind these words may be one alone.
fn may_begin(front: &[Token]) -> bool {
    match front.last() {
        Some(word) => is_one_of(word, &BEFORE) || is_term(word, WordClass::OpenBracket),
        None => false,
    }
}

/// Whether an operand before these words is one alone, where it may be.
fn may_end(words: &[Token]) -> bool {
    match words.first() {
        Some(word) => is_one_of(word, &BEHIND) || is_term(word, WordClass::CloseBracket),
        None => true,
    }
}

/// Whether a name that so many words of a statement stand before is an operand alone: only there it may be a condition's.
pub(crate) fn stands_alone(statement: &[Token], at: usize) -> bool {
    match behind_reference(behind_many(statement, at), "a name") {
        Ok(rest) => may_begin(front_of(statement, at)) && may_end(rest),
        Err(_) => false,
    }
}

/// How many conditions a name of a statement may mean that so many words stand before.
pub(crate) fn conditions_at(
    both: BothWords<'_>,
    statement: &[Token],
    at: usize,
    name: &Token,
) -> usize {
    if stands_alone(statement, at) {
        both.count(Looked::Condition(name.text.as_slice()))
    } else {
        0
    }
}

/// How the first of several conditions with a name is told apart by its item, where that does.
pub(crate) fn apart_by_item<'a>(
    both: BothWords<'a>,
    word: &'a Token,
    first: Bearer<'a>,
) -> Option<Phrase<'a>> {
    let item = name_word(first.holder()?.entry())?;
    let looked = Looked::Condition(word.text.as_slice());
    only_one(both, looked, Some(item))?;
    Some(Phrase::of_two("write {} OF {}", Part::Word(word), Part::Word(item)))
}

/// What is told of a name that a condition has, where no condition's may stand.
fn tested_alone<'a>(word: &'a Token, condition: Bearer<'a>) -> Phrase<'a> {
    Phrase::of_four(
        "{} names a condition ({} line {}), which is tested alone: IF {}",
        Part::Word(word),
        Part::Text(condition.book.option()),
        Part::Number(line_of(condition.entry()) as usize),
        Part::Word(word),
    )
}

/// An entry whose name is near to another, and where it stands.
pub(crate) fn near_words(near: Bearer<'_>) -> Phrase<'_> {
    let entry = near.entry();
    Phrase::of_three(
        "{} ({} line {}) is near to it",
        Part::Entry(entry),
        Part::Text(near.book.option()),
        Part::Number(line_of(entry) as usize),
    )
}

/// What is told beside a name that no entry has, if a condition has it, or one that is near to it where a condition's may stand.
pub(crate) fn condition_hint<'a>(
    both: BothWords<'a>,
    word: &'a Token,
    is_alone: bool,
) -> Option<Phrase<'a>> {
    let name = word.text.as_slice();
    if let Some(condition) = both.first(Looked::Condition(name)) {
        return Some(tested_alone(word, condition));
    }
    if !is_alone {
        return None;
    }
    match both.first(Looked::NearCondition(name)) {
        Some(near) => Some(near_words(near)),
        None => None,
    }
}
