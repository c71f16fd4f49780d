//! Operands that can't be compared or tested.

use crate::bearers::{Bearer, BothWords, condition_meant, described_part, meant, operand_part};
use crate::choices::{is_one_of, is_word, test_len};
use crate::clauses::is_characters;
use crate::conditions::values_of;
use crate::entry::{behind_many, front_of, picture_word, word_of};
use crate::phrases::{Part, Phrase};
use crate::statements::is_constant;
use crate::terms::{is_name_word, is_term};
use crate::told::{Told, advised_at, advised_first};
use crate::words::has_digits_alone;
use cob_copybook_clauses::WordClass;
use cob_picture::{Category, Picture};
use cob_source::{Token, TokenKind};

/// The words before a test.
static FIRST_WORDS: [&str; 3] = ["IF", "EVALUATE", "WHEN"];

/// Words that join conditions.
static JOINING: [&str; 2] = ["AND", "OR"];

/// Words that name a class.
static CLASSES: [&str; 4] = [
    "NUMERIC",
    "ALPHABETIC",
    "ALPHABETIC-LOWER",
    "ALPHABETIC-UPPER",
];

/// Words that name a sign.
static SIGNS: [&str; 2] = ["POSITIVE", "NEGATIVE"];

/// Words that name an order, or stand beside those that do.
static RELATIONS: [&str; 13] = [
    "=", "<", ">", "<=", ">=", "EQUAL", "EQUALS", "GREATER", "LESS", "THAN", "TO", "IS", "NOT",
];

/// Other words that are no names in a test.
static OTHERS: [&str; 5] = ["THEN", "TRUE", "OTHER", "THRU", "THROUGH"];

/// What to do with a comparison.
const COMPARED: &str =
    "beside characters an item is DISPLAY and whole, and a number has no sign and no point (PROFILE.md, Conditions)";

/// What to do with a class.
const CLASS: &str =
    "NUMERIC is for numbers that are not binary, for characters and for groups without signed numbers; ALPHABETIC for all but numbers";

/// What to do with a condition that is a name alone.
const ALONE: &str = "compare it with something, or test it for a class or a sign";

/// Whether a statement is a test of a choice.
pub(crate) fn is_test(statement: &[Token]) -> bool {
    match statement.first() {
        Some(first) => is_one_of(first, &FIRST_WORDS),
        None => false,
    }
}

/// Whether a word is no name in a test.
pub(crate) fn is_test_word(word: &Token) -> bool {
    is_one_of(word, &FIRST_WORDS)
        || is_one_of(word, &JOINING)
        || is_one_of(word, &CLASSES)
        || is_one_of(word, &SIGNS)
        || is_one_of(word, &RELATIONS)
        || is_one_of(word, &OTHERS)
}

/// Which words stand side by side in a simple condition.
#[derive(Clone, Copy)]
enum Stretch {
    /// Those before its first operand: a bracket, NOT, or the first word of all.
    Front,
    /// Those of an operand.
    Operand,
    /// Those of a relation, before the second operand. OR is one of GREATER THAN OR EQUAL TO.
    Relation,
    /// Those up to AND or OR.
    Rest,
}

/// Whether a word may be one of these.
fn is_of(word: &Token, stretch: Stretch) -> bool {
    match stretch {
        Stretch::Front => {
            is_term(word, WordClass::OpenBracket)
                || is_word(word, "NOT")
                || is_one_of(word, &FIRST_WORDS)
        }
        Stretch::Operand => {
            !is_one_of(word, &RELATIONS)
                && !is_one_of(word, &CLASSES)
                && !is_one_of(word, &SIGNS)
                && !is_one_of(word, &JOINING)
        }
        Stretch::Relation => is_one_of(word, &RELATIONS) || is_word(word, "OR"),
        Stretch::Rest => !is_one_of(word, &JOINING),
    }
}

/// How many such words stand in front.
fn front_len(words: &[Token], stretch: Stretch) -> usize {
    for (at, word) in words.iter().enumerate() {
        if !is_of(word, stretch) {
            return at;
        }
    }
    words.len()
}

/// A simple condition: its first operand, and the words behind that.
#[derive(Clone, Copy)]
struct Simple<'a> {
    first: &'a [Token],
    rest: &'a [Token],
}

/// The first operand of the simple condition in front, and the words behind it.
fn operand_at(words: &[Token]) -> (&[Token], &[Token]) {
    let own = behind_many(words, front_len(words, Stretch::Front));
    let count = front_len(own, Stretch::Operand);
    (front_of(own, count), behind_many(own, count))
}

/// How many words of a simple condition stand behind its first operand: none where AND or OR does.
fn rest_len(words: &[Token]) -> usize {
    let joined = match words.first() {
        Some(first) => is_one_of(first, &JOINING),
        None => true,
    };
    if joined {
        return 0;
    }
    let related = front_len(words, Stretch::Relation);
    related.saturating_add(front_len(behind_many(words, related), Stretch::Rest))
}

/// The simple condition in front, and the words behind AND or OR behind it.
fn simple_at(words: &[Token]) -> (Simple<'_>, &[Token]) {
    let (first, behind) = operand_at(words);
    let count = rest_len(behind);
    let rest = front_of(behind, count);
    (
        Simple { first, rest },
        behind_many(behind, count.saturating_add(1)),
    )
}

/// What an operand is beside another one, as far as its own words say.
#[derive(Clone, Copy, PartialEq, Eq)]
enum Form {
    /// A number that may stand beside characters: DISPLAY and whole, or written without a sign and a point.
    Whole,
    /// A number that may not.
    Number,
    /// Characters.
    Characters,
    /// A group, ZERO, or what is not known.
    Any,
}

/// What an item is with this picture.
fn form_of_picture(word: &Token, is_display: bool) -> Form {
    match Picture::read(word.text.as_slice()) {
        Ok(picture) => match picture.category() {
            Category::Numeric if is_display && picture.scale() == 0 => Form::Whole,
            Category::Numeric => Form::Number,
            _ => Form::Characters,
        },
        Err(_) => Form::Any,
    }
}

/// Whether an entry is written as DISPLAY, or without a usage.
fn is_display(bearer: Bearer<'_>) -> bool {
    match word_of(bearer.entry(), WordClass::UsageName) {
        Some(usage) => is_word(usage, "DISPLAY"),
        None => true,
    }
}

/// Whether a constant is in front: a literal, a figurative constant, or ALL.
fn has_constant(words: &[Token]) -> bool {
    match words.first() {
        Some(first) => is_constant(first) || is_term(first, WordClass::All),
        None => false,
    }
}

/// What a constant is.
fn form_of_constant(word: &Token) -> Form {
    if is_term(word, WordClass::Zero) {
        return Form::Any;
    }
    if is_characters(word) || is_term(word, WordClass::All) {
        return Form::Characters;
    }
    if has_digits_alone(word.text.as_slice()) {
        Form::Whole
    } else {
        Form::Number
    }
}

/// What an entry is.
fn form_of_entry(bearer: Bearer<'_>) -> Form {
    match picture_word(bearer.entry()) {
        Some(word) => form_of_picture(word, is_display(bearer)),
        None => Form::Any,
    }
}

/// What the operand in front is.
fn form_of(both: BothWords<'_>, words: &[Token]) -> Form {
    let Some(first) = words.first() else {
        return Form::Any;
    };
    if has_constant(words) {
        return form_of_constant(first);
    }
    match meant(both, words) {
        Some(bearer) => form_of_entry(bearer),
        None => Form::Any,
    }
}

/// Whether a number that may not stand beside characters stands beside some.
fn are_apart(first: Form, second: Form) -> bool {
    (first == Form::Number && second == Form::Characters)
        || (first == Form::Characters && second == Form::Number)
}

/// The first value of a condition that can't be compared with its item, as far as their own words say.
fn foreign_value<'a>(condition: Bearer<'a>, item: Bearer<'_>) -> Option<&'a Token> {
    let form = form_of_entry(item);
    let values = values_of(condition.entry());
    for (at, word) in values.iter().enumerate() {
        let rest = behind_many(values, at);
        if has_constant(rest) && are_apart(form, form_of_constant(word)) {
            return Some(word);
        }
    }
    None
}

/// Whether a value of a condition can't be compared with its item, as far as their own words say.
fn has_foreign_value(condition: Bearer<'_>) -> bool {
    match condition.holder() {
        Some(item) => foreign_value(condition, item).is_some(),
        None => false,
    }
}

/// The condition that a simple condition names, if it is a name alone that one has.
fn condition_of<'a>(both: BothWords<'a>, simple: Simple<'_>) -> Option<Bearer<'a>> {
    if !simple.rest.is_empty() {
        return None;
    }
    condition_meant(both, simple.first)
}

/// The second operand of a relation.
fn second_of<'a>(simple: Simple<'a>) -> &'a [Token] {
    behind_many(simple.rest, front_len(simple.rest, Stretch::Relation))
}

/// Whether a simple condition is at fault, as far as its own words say.
fn is_apart(both: BothWords<'_>, simple: Simple<'_>) -> bool {
    if let Some(condition) = condition_of(both, simple) {
        return has_foreign_value(condition);
    }
    if simple.rest.is_empty() {
        return true;
    }
    let second = second_of(simple);
    (has_constant(simple.first) && has_constant(second))
        || are_apart(form_of(both, simple.first), form_of(both, second))
}

/// The class or the sign that a simple condition tests, if it tests one.
fn quality_of(simple: Simple<'_>) -> Option<&Token> {
    let rest = second_of(simple);
    let first = rest.first()?;
    if is_one_of(first, &CLASSES) || is_one_of(first, &SIGNS) {
        return Some(first);
    }
    None
}

/// What is told of the class or the sign that an operand is tested for.
fn told_quality<'a>(both: BothWords<'a>, simple: Simple<'a>, quality: &'a Token) -> Told<'a> {
    let hint = if is_one_of(quality, &CLASSES) {
        CLASS
    } else {
        "a sign is for numbers alone"
    };
    advised_at(
        quality,
        Phrase::of_three(
            "{}{}: it can't be tested for {}",
            operand_part(simple.first),
            described_part(both, simple.first),
            Part::Word(quality),
        ),
        hint,
    )
}

/// What is told of a comparison.
fn told_relation<'a>(both: BothWords<'a>, simple: Simple<'a>) -> Told<'a> {
    let second = second_of(simple);
    advised_first(
        simple.rest,
        Phrase::of_four(
            "{}{}, beside {}{}: they can't be compared",
            operand_part(simple.first),
            described_part(both, simple.first),
            operand_part(second),
            described_part(both, second),
        ),
        COMPARED,
    )
}

/// What is told of the values of a condition, which can't be compared with its item.
fn told_condition<'a>(name: &'a [Token], condition: Bearer<'a>, item: Bearer<'a>) -> Told<'a> {
    let what = match foreign_value(condition, item) {
        Some(value) => Phrase::of_four(
            "{}{}, beside {} of {}: they can't be compared",
            Part::Entry(item.entry()),
            Part::Described(item.entry()),
            Part::Word(value),
            operand_part(name),
        ),
        None => Phrase::of_three(
            "{}{}, beside a value of {}: they can't be compared",
            Part::Entry(item.entry()),
            Part::Described(item.entry()),
            operand_part(name),
        ),
    };
    advised_first(name, what, COMPARED)
}

/// What is told of a simple condition that can't be tested.
fn told_simple<'a>(both: BothWords<'a>, simple: Simple<'a>) -> Told<'a> {
    if let Some(condition) = condition_of(both, simple) {
        if let Some(item) = condition.holder() {
            return told_condition(simple.first, condition, item);
        }
    }
    if simple.rest.is_empty() {
        return advised_first(
            simple.first,
            Phrase::of("{} alone is no condition", Part::Words(simple.first)),
            ALONE,
        );
    }
    match quality_of(simple) {
        Some(quality) => told_quality(both, simple, quality),
        None => told_relation(both, simple),
    }
}

/// Whether a simple condition tests a class or a sign.
fn has_quality(simple: Simple<'_>) -> bool {
    quality_of(simple).is_some()
}

/// A simple condition with the subject that was stated before, where it leaves that out. A condition's name states and takes none.
fn completed<'a>(both: BothWords<'_>, simple: Simple<'a>, subject: &'a [Token]) -> Simple<'a> {
    if condition_of(both, simple).is_some() {
        return simple;
    }
    if simple.first.is_empty() {
        return Simple {
            first: subject,
            rest: simple.rest,
        };
    }
    if simple.rest.is_empty() && !subject.is_empty() {
        return Simple {
            first: subject,
            rest: simple.first,
        };
    }
    simple
}

/// How likely a simple condition is the one at fault, where its own words don't say: one that tests a class or a sign most, and a condition's name least.
fn rank(both: BothWords<'_>, simple: Simple<'_>) -> u8 {
    if has_quality(simple) {
        return 2;
    }
    if condition_of(both, simple).is_some() {
        0
    } else {
        1
    }
}

/// The subject that a simple condition states for those behind it.
fn subject_of<'a>(both: BothWords<'_>, simple: Simple<'a>) -> &'a [Token] {
    if rank(both, simple) == 1 {
        simple.first
    } else {
        &[]
    }
}

/// The simple condition that is told of: the first at fault as far as its own words say, or else the first that tests a class or a sign, or else the first that is
/// no condition's name, or else the first.
fn told_of<'a>(both: BothWords<'_>, words: &'a [Token]) -> Simple<'a> {
    let (first, _) = simple_at(words);
    let mut told = first;
    let mut subject: &'a [Token] = &[];
    let mut rest = words;
    for _ in 0..words.len() {
        let (simple, more) = simple_at(rest);
        let own = completed(both, simple, subject);
        if is_apart(both, own) {
            return own;
        }
        if rank(both, own) > rank(both, told) {
            told = own;
        }
        subject = subject_of(both, own);
        if more.is_empty() {
            return told;
        }
        rest = more;
    }
    told
}

/// What is told of the values of a WHEN, which can't be compared with what its EVALUATE tests.
fn told_values<'a>(first: &'a Token, values: &'a [Token]) -> Told<'a> {
    advised_first(
        values,
        Phrase::of_two(
            "{} {} can't be compared with what EVALUATE tests",
            Part::Word(first),
            Part::Words(values),
        ),
        COMPARED,
    )
}

/// Whether words list values: a literal comes first, and no relation stands behind it.
fn are_values(words: &[Token]) -> bool {
    let is_listed = match words.first() {
        Some(first) => first.kind == TokenKind::Literal || !is_name_word(first),
        None => false,
    };
    is_listed && front_len(words, Stretch::Operand) == words.len()
}

/// What is told of a test whose operands can't be compared or tested.
pub(crate) fn told_comparison<'a>(both: BothWords<'a>, statement: &'a [Token]) -> Told<'a> {
    let behind = behind_many(statement, 1);
    let words = front_of(behind, test_len(behind));
    match statement.first() {
        Some(first) if is_word(first, "WHEN") && are_values(words) => told_values(first, words),
        _ => told_simple(both, told_of(both, words)),
    }
}
