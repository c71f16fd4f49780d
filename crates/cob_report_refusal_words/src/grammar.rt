//! The grammar of entries: what was expected, and what stands there.

use crate::clauses::{Lack, Read, behind_clause, behind_term, behind_word, clause_name};
use crate::entry::{
    behind_many, entry_in_front, last_words, line_of, name_word, word_behind, words_before,
    words_from,
};
use crate::near::near_clause;
use crate::phrases::{Part, Phrase};
use crate::terms::{behind, is_term, whole};
use crate::told::{
    Caret, Told, advised, advised_at, advised_first, advised_plainly, said, said_at, said_plainly,
};
use crate::words::has_digits_alone;
use cob_copybook_clauses::{WordClass, is_condition, read_entry};
use cob_copybook_entries::is_numeric_literal;
use cob_source::{Token, TokenKind};

/// An entry as it stands in a text: its words up to the period, and those from the period on.
#[derive(Clone, Copy)]
pub(crate) struct WrittenEntry<'a> {
    words: &'a [Token],
    behind: &'a [Token],
}

/// The entry with so many words before it.
pub(crate) fn written_entry(words: &[Token], before: usize) -> WrittenEntry<'_> {
    let rest = behind_many(words, before);
    let own = entry_in_front(rest);
    WrittenEntry {
        words: own,
        behind: behind_many(rest, own.len()),
    }
}

/// The first of these words of an entry, or the period behind them.
fn word_or_stop<'a>(entry: WrittenEntry<'a>, rest: &'a [Token]) -> Option<&'a Token> {
    rest.first().or(entry.behind.first())
}

/// The words of an entry behind its level and its name.
fn behind_name(entry: &[Token]) -> &[Token] {
    let more = behind_many(entry, 1);
    if name_word(entry).is_some() || behind(more, WordClass::Filler).is_some() {
        return behind_many(more, 1);
    }
    more
}

/// Whether a word is a level.
fn is_level(word: &Token) -> bool {
    word.kind == TokenKind::Word && whole(word.text.as_slice(), 2).is_some()
}

/// What is read of an entry's clauses when one lacks something: the words before it, and what lacks.
#[derive(Clone, Copy)]
struct Broken<'a> {
    before: &'a [Token],
    lack: Lack<'a>,
}

/// The first clause that lacks something, if one does.
fn broken_clause(entry: &[Token]) -> Option<Broken<'_>> {
    let mut rest = behind_name(entry);
    let mut before = last_words(words_before(entry, rest), 1);
    for _ in 0..entry.len() {
        if rest.is_empty() {
            return None;
        }
        match behind_clause(rest) {
            Ok(more) => {
                before = words_before(rest, more);
                rest = more;
            }
            Err(lack) => return Some(broken_at(entry, before, rest, lack)),
        }
    }
    None
}

/// What is broken in a clause that begins with these words, behind those.
fn broken_at<'a>(
    entry: &'a [Token],
    before: &'a [Token],
    clause: &[Token],
    lack: Lack<'a>,
) -> Broken<'a> {
    if lack.rest.len() == clause.len() {
        return Broken { before, lack };
    }
    broken_behind_word(entry, lack)
}

/// What is broken behind the last word before it.
fn broken_behind_word<'a>(entry: &'a [Token], lack: Lack<'a>) -> Broken<'a> {
    Broken {
        before: last_words(words_before(entry, lack.rest), 1),
        lack,
    }
}

/// The first word of a clause that stands a second time, if one does.
fn second_clause(entry: &[Token]) -> Option<&Token> {
    let mut rest = behind_name(entry);
    for _ in 0..entry.len() {
        let Ok(more) = behind_clause(rest) else {
            return None;
        };
        if read_entry(words_before(entry, more)).is_none() {
            return rest.first();
        }
        rest = more;
    }
    None
}

/// Whether a word stands where a clause is expected, and is the word of no clause and no level.
fn begins_none(expected: &str, word: &Token) -> bool {
    expected == "a clause or a period" && !is_level(word) && word.kind == TokenKind::Word
}

/// How it is told that a word can't go on where this is expected.
fn lack_form(expected: &str, word: &Token) -> &'static str {
    if begins_none(expected, word) {
        "{} is expected behind {}, and {} begins none"
    } else {
        "{} is expected behind {}, and {} stands there"
    }
}

/// What is told of a word that can't go on.
fn told_word<'a>(entry: &'a [Token], broken: Broken<'a>, word: &'a Token) -> Told<'a> {
    let expected = broken.lack.expected;
    Told {
        at: Some(Caret::under(word)),
        what: Phrase::of_three(
            lack_form(expected, word),
            Part::Text(expected),
            Part::Words(broken.before),
            Part::Word(word),
        ),
        hint: lack_hint(entry, expected, word),
    }
}

/// What is told of a word that can't go on, or of the text's end.
fn told_lack<'a>(entry: WrittenEntry<'a>, broken: Broken<'a>) -> Told<'a> {
    match word_or_stop(entry, broken.lack.rest) {
        Some(word) => told_word(entry.words, broken, word),
        None => said(
            Caret::under_first(entry.words),
            Phrase::of_two(
                "{} is expected behind {}, and the text ends",
                Part::Text(broken.lack.expected),
                Part::Words(broken.before),
            ),
        ),
    }
}

/// What to do where a word can't go on that is near to none that begins a clause, if that is known.
fn open_hint<'a>(entry: &'a [Token], expected: &'static str, word: &Token) -> Option<Phrase<'a>> {
    if is_level(word) && expected == "a clause or a period" {
        return Some(Phrase::of_two(
            "the entry of {} begins in line {}: end it with a period",
            Part::Entry(entry),
            Part::Number(line_of(entry) as usize),
        ));
    }
    form_of(expected)
}

/// What to do where a word can't go on, if that is known.
fn lack_hint<'a>(
    entry: &'a [Token],
    expected: &'static str,
    word: &'a Token,
) -> Option<Phrase<'a>> {
    match near_clause(word.text.as_slice()) {
        Some(near) => Some(Phrase::of_two("{} is near to {}", Part::Text(near), Part::Word(word))),
        None => open_hint(entry, expected, word),
    }
}

/// The forms of clauses in which words are expected.
static FORMS: [(&str, &str); 7] = [
    (
        "a number",
        "OCCURS 3, or OCCURS 1 TO 3 DEPENDING ON a count",
    ),
    (
        "DEPENDING ON",
        "OCCURS 1 TO 3 DEPENDING ON a count, or OCCURS 3",
    ),
    ("a picture", "PIC X(4), or PIC S9(7)V99 for a number"),
    (
        "a usage",
        "DISPLAY, COMP or COMP-3, or leave the clause out",
    ),
    ("LEADING or TRAILING", "SIGN IS LEADING SEPARATE CHARACTER"),
    ("a literal", "VALUE \"text\", VALUE 0 or VALUE SPACES"),
    ("ZERO", "BLANK WHEN ZERO"),
];

/// The form of a clause in which this is expected.
fn form_of(expected: &str) -> Option<Phrase<'static>> {
    for (of, form) in &FORMS {
        if *of == expected {
            return Some(Phrase::plain(*form));
        }
    }
    None
}

/// What is told of a clause that stands a second time.
fn told_second<'a>(entry: &'a [Token], word: &'a Token) -> Told<'a> {
    advised_at(
        word,
        Phrase::of_two(
            "{} has {} already",
            Part::Entry(entry),
            Part::Text(clause_name(word).unwrap_or("that clause")),
        ),
        "leave one of the two out",
    )
}

/// The words of an entry of level 88 behind VALUE, or what lacks in them.
fn behind_condition(entry: &[Token]) -> Read<'_> {
    match behind_word(behind_many(entry, 1), "a name") {
        Ok(named) => behind_term(named, WordClass::Value, "VALUE"),
        lack => lack,
    }
}

/// What is told of an entry of level 88 that names no value, or stands before all others.
fn told_condition(entry: WrittenEntry<'_>) -> Told<'_> {
    match behind_condition(entry.words) {
        Err(lack) => told_lack(entry, broken_behind_word(entry.words, lack)),
        Ok(_) => advised_first(
            entry.words,
            Phrase::of(
                "{}, level 88, stands before any entry",
                Part::Entry(entry.words),
            ),
            "put it behind the entry whose value it names",
        ),
    }
}

/// A word, if it is there and has another character than digits.
fn if_no_number(word: Option<&Token>) -> Option<&Token> {
    match word {
        Some(word) if !has_digits_alone(word.text.as_slice()) => Some(word),
        _ => None,
    }
}

/// The first word of OCCURS, behind OCCURS itself, or the word behind TO, that is no number, if one is none.
fn bad_number_behind(words: &[Token]) -> Option<&Token> {
    let most = match behind(behind_many(words, 1), WordClass::To) {
        Some(more) => more.first(),
        None => None,
    };
    if_no_number(words.first()).or(if_no_number(most))
}

/// The number of an OCCURS clause that is none, if one is.
fn bad_number(entry: &[Token]) -> Option<&Token> {
    match words_from(entry, WordClass::Occurs) {
        Some(occurs) => bad_number_behind(behind_many(occurs, 1)),
        None => None,
    }
}

/// Whether a word is neither a literal nor another word of the grammar.
fn is_no_literal(word: &Token) -> bool {
    is_term(word, WordClass::Plain) && !is_numeric_literal(word.text.as_slice())
}

/// The word of a VALUE clause that is no literal, if it is none.
fn bad_literal(entry: &[Token]) -> Option<&Token> {
    match word_behind(entry, WordClass::Value, WordClass::Is) {
        Some(value) if is_no_literal(value) => Some(value),
        _ => None,
    }
}

/// What is told of a number of OCCURS that is none.
fn told_number(word: &Token) -> Told<'_> {
    Told {
        at: Some(Caret::under(word)),
        what: Phrase::of(
            "a number is expected behind OCCURS, and {} stands there",
            Part::Word(word),
        ),
        hint: form_of("a number"),
    }
}

/// What is told of a literal of VALUE that is none.
fn told_literal(word: &Token) -> Told<'_> {
    advised(
        Some(Caret::under(word)),
        Phrase::of(
            "a literal is expected behind VALUE, and {} stands there",
            Part::Word(word),
        ),
        Phrase::of(
            "VALUE \"{}\" for characters, VALUE 0 for a number",
            Part::Word(word),
        ),
    )
}

/// What is told of an entry whose words go on, and one of whose texts is none.
fn told_text(entry: &[Token]) -> Told<'_> {
    if let Some(word) = bad_number(entry) {
        return told_number(word);
    }
    match bad_literal(entry) {
        Some(word) => told_literal(word),
        None => said_plainly(entry, "the words are no entry"),
    }
}

/// What is told of an entry that does not begin with a level.
fn told_level(entry: WrittenEntry<'_>) -> Told<'_> {
    match word_or_stop(entry, entry.words) {
        Some(word) => said_at(
            word,
            Phrase::of(
                "a level number is expected, and {} stands there",
                Part::Word(word),
            ),
        ),
        None => said(None, Phrase::plain("a level number is expected")),
    }
}

/// What is told of an entry without a period.
fn told_open(entry: &[Token]) -> Told<'_> {
    advised_plainly(
        last_words(entry, 1),
        "the last entry has no period",
        "put a period behind it",
    )
}

/// Whether an entry begins with a level.
fn begins_with_level(entry: &[Token]) -> bool {
    match entry.first() {
        Some(first) => is_level(first),
        None => false,
    }
}

/// What is told of the clauses of an entry that the grammar of entries does not have.
fn told_clauses(entry: WrittenEntry<'_>) -> Told<'_> {
    if let Some(broken) = broken_clause(entry.words) {
        return told_lack(entry, broken);
    }
    match second_clause(entry.words) {
        Some(word) => told_second(entry.words, word),
        None if entry.behind.is_empty() => told_open(entry.words),
        None => told_text(entry.words),
    }
}

/// What is told of an entry that the grammar of entries does not have.
pub(crate) fn told_grammar(entry: WrittenEntry<'_>) -> Told<'_> {
    if !begins_with_level(entry.words) {
        return told_level(entry);
    }
    if is_condition(entry.words) {
        return told_condition(entry);
    }
    told_clauses(entry)
}
