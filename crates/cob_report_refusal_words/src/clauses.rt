//! The clauses of an entry, as far as their words go on.

use crate::entry::behind_many;
use crate::terms::{behind, is_name_word, is_term};
use cob_copybook_clauses::{WordClass, qualifiers_at};
use cob_source::{Token, TokenKind};

/// What lacks in words: what was expected, and the words from the first on that can't go on.
#[derive(Clone, Copy)]
pub(crate) struct Lack<'a> {
    pub(crate) expected: &'static str,
    pub(crate) rest: &'a [Token],
}

/// Words behind those that are read, or what lacks there.
pub(crate) type Read<'a> = Result<&'a [Token], Lack<'a>>;

/// This is expected in front of these words, and does not stand there.
pub(crate) fn lacks<'a>(rest: &'a [Token], expected: &'static str) -> Read<'a> {
    Err(Lack { expected, rest })
}

/// The words without one in front that may be left out.
fn skip(words: &[Token], term: WordClass) -> &[Token] {
    behind(words, term).unwrap_or(words)
}

/// The words behind this one.
pub(crate) fn behind_term<'a>(
    words: &'a [Token],
    term: WordClass,
    expected: &'static str,
) -> Read<'a> {
    match behind(words, term) {
        Some(more) => Ok(more),
        None => lacks(words, expected),
    }
}

/// The words behind one word of any kind.
pub(crate) fn behind_word<'a>(words: &'a [Token], expected: &'static str) -> Read<'a> {
    match words.first() {
        Some(first) if first.kind == TokenKind::Word => Ok(behind_many(words, 1)),
        _ => lacks(words, expected),
    }
}

/// How many names stand in front.
fn names_len(words: &[Token]) -> usize {
    for (at, word) in words.iter().enumerate() {
        if !is_name_word(word) {
            return at;
        }
    }
    words.len()
}

/// The words behind names, of which there is one at least.
fn behind_names(words: &[Token]) -> Read<'_> {
    match names_len(words) {
        0 => lacks(words, "a name"),
        count => Ok(behind_many(words, count)),
    }
}

/// The words behind those that follow PICTURE.
fn behind_picture(words: &[Token]) -> Read<'_> {
    let more = skip(words, WordClass::Is);
    if behind(more, WordClass::Is).is_some() {
        return lacks(more, "a picture");
    }
    behind_word(more, "a picture")
}

/// The words behind this one and IS, where it stands there.
fn behind_prefix(words: &[Token], term: WordClass) -> &[Token] {
    match behind(words, term) {
        Some(more) => skip(more, WordClass::Is),
        None => words,
    }
}

fn behind_usage(words: &[Token]) -> Read<'_> {
    behind_term(
        behind_prefix(words, WordClass::Usage),
        WordClass::UsageName,
        "a usage",
    )
}

fn behind_sign(words: &[Token]) -> Read<'_> {
    let more = behind_prefix(words, WordClass::Sign);
    let rest = match behind(more, WordClass::Leading) {
        Some(rest) => rest,
        None => behind_term(more, WordClass::Trailing, "LEADING or TRAILING")?,
    };
    match behind(rest, WordClass::Separate) {
        Some(separate) => Ok(skip(separate, WordClass::Character)),
        None => Ok(rest),
    }
}

/// The words behind DEPENDING ON and a name.
fn behind_depending(words: &[Token]) -> Read<'_> {
    let depending = behind_term(words, WordClass::Depending, "DEPENDING ON")?;
    match behind_word(skip(depending, WordClass::On), "a name") {
        Ok(more) => Ok(behind_qualifiers(more)),
        lack => lack,
    }
}

/// The words behind the qualifiers in front.
fn behind_qualifiers(words: &[Token]) -> &[Token] {
    let (_, rest) = qualifiers_at(words);
    rest
}

/// The words behind the keys and indexes of a table.
fn behind_keys(words: &[Token]) -> Read<'_> {
    let mut rest = words;
    for _ in 0..words.len() {
        let Some(more) = behind(rest, WordClass::Ordered) else {
            break;
        };
        rest = behind_names(skip(skip(more, WordClass::Key), WordClass::Is))?;
    }
    match behind(rest, WordClass::Indexed) {
        Some(more) => behind_names(skip(more, WordClass::By)),
        None => Ok(rest),
    }
}

/// The words behind a number.
fn behind_number(words: &[Token]) -> Read<'_> {
    behind_term(words, WordClass::Plain, "a number")
}

/// The words behind those that follow OCCURS.
fn behind_occurs(words: &[Token]) -> Read<'_> {
    let first = behind_number(words)?;
    match behind(first, WordClass::To) {
        Some(more) => behind_count(skip(behind_number(more)?, WordClass::Times)),
        None => behind_times(skip(first, WordClass::Times)),
    }
}

/// The words behind the count of a table, and its keys and indexes.
fn behind_count(words: &[Token]) -> Read<'_> {
    behind_keys(behind_depending(words)?)
}

/// The words behind the count of a table, if one is named, and its keys and indexes.
fn behind_times(words: &[Token]) -> Read<'_> {
    if behind(words, WordClass::Depending).is_some() {
        return behind_count(words);
    }
    behind_keys(words)
}

/// The words of characters: a literal in quotes, and the figurative constants.
static CHARACTERS: [WordClass; 6] = [
    WordClass::Literal,
    WordClass::Space,
    WordClass::Zero,
    WordClass::HighValue,
    WordClass::LowValue,
    WordClass::Quote,
];

/// Whether a word is a literal in quotes or a figurative constant.
pub(crate) fn is_characters(word: &Token) -> bool {
    for term in &CHARACTERS {
        if is_term(word, *term) {
            return true;
        }
    }
    false
}

/// The words behind IS or ARE, where it stands in front.
fn behind_verb(words: &[Token]) -> &[Token] {
    match behind(words, WordClass::Is) {
        Some(more) => more,
        None => skip(words, WordClass::Are),
    }
}

/// Whether a word is a literal or a figurative constant.
fn may_be_value(word: &Token) -> bool {
    is_characters(word) || is_term(word, WordClass::Plain)
}

/// The words behind characters in front, or what lacks there.
pub(crate) fn behind_characters(words: &[Token]) -> Read<'_> {
    match words.first() {
        Some(first) if is_characters(first) => Ok(behind_many(words, 1)),
        _ => lacks(words, "a literal"),
    }
}

/// The words behind a literal or a figurative constant in front, or what lacks there.
fn behind_constant(words: &[Token]) -> Read<'_> {
    match words.first() {
        Some(first) if may_be_value(first) => Ok(behind_many(words, 1)),
        _ => lacks(words, "a literal"),
    }
}

/// The words behind those that follow VALUE.
fn behind_value(words: &[Token]) -> Read<'_> {
    let more = behind_verb(words);
    match behind(more, WordClass::All) {
        Some(repeated) => behind_characters(repeated),
        None => behind_constant(more),
    }
}

/// A clause of an entry.
#[derive(Clone, Copy)]
enum Clause {
    Redefines,
    Picture,
    Usage,
    Sign,
    Occurs,
    Value,
    Justified,
    Blank,
}

/// The words that begin a clause, which clause that is, and what it is called.
static FIRST_WORDS: [(WordClass, Clause, &str); 11] = [
    (WordClass::Redefines, Clause::Redefines, "a REDEFINES"),
    (WordClass::Picture, Clause::Picture, "a PICTURE"),
    (WordClass::Usage, Clause::Usage, "a USAGE"),
    (WordClass::UsageName, Clause::Usage, "a USAGE"),
    (WordClass::Sign, Clause::Sign, "a SIGN"),
    (WordClass::Leading, Clause::Sign, "a SIGN"),
    (WordClass::Trailing, Clause::Sign, "a SIGN"),
    (WordClass::Occurs, Clause::Occurs, "an OCCURS"),
    (WordClass::Value, Clause::Value, "a VALUE"),
    (WordClass::Justified, Clause::Justified, "a JUSTIFIED"),
    (WordClass::Blank, Clause::Blank, "a BLANK WHEN ZERO"),
];

/// The clause that a word begins, and what it is called, if it begins one.
fn begun_clause(word: &Token) -> Option<(Clause, &'static str)> {
    for (first, clause, name) in &FIRST_WORDS {
        if is_term(word, *first) {
            return Some((*clause, *name));
        }
    }
    None
}

/// The words behind a clause in front that begins so, or what lacks in it.
fn behind_begun(words: &[Token], clause: Clause) -> Read<'_> {
    let more = behind_many(words, 1);
    match clause {
        Clause::Redefines => behind_word(more, "a name"),
        Clause::Picture => behind_picture(more),
        Clause::Usage => behind_usage(words),
        Clause::Sign => behind_sign(words),
        Clause::Occurs => behind_occurs(more),
        Clause::Value => behind_value(more),
        Clause::Justified => Ok(skip(more, WordClass::Right)),
        Clause::Blank => behind_term(skip(more, WordClass::When), WordClass::Zero, "ZERO"),
    }
}

/// The words behind the clause in front, or what lacks in it.
pub(crate) fn behind_clause(words: &[Token]) -> Read<'_> {
    let Some(first) = words.first() else {
        return Ok(words);
    };
    match begun_clause(first) {
        Some((clause, _)) => behind_begun(words, clause),
        None => lacks(words, "a clause or a period"),
    }
}

/// What a word that begins a clause is called.
pub(crate) fn clause_name(word: &Token) -> Option<&'static str> {
    match begun_clause(word) {
        Some((_, name)) => Some(name),
        None => None,
    }
}
