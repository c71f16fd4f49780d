//! The entries of both records that bear a name.

use crate::entry::{entry_at, entry_in_front, level_of, line_of, name_word};
use crate::phrases::Part;
use crate::search::{Looked, MOST_LEVELS, found_between, found_in, has_name, holder_at};
use crate::terms::behind;
use crate::words::write_word;
use cob_copybook_clauses::WordClass;
use cob_source::{Token, TokenKind};
use std::fmt;

/// More entries than both records may have.
pub(crate) const MOST_BEARERS: usize = 4_001;

/// The words of a copybook, and whether its record is the input record.
#[derive(Clone, Copy)]
pub struct BookWords<'a> {
    /// The words.
    pub words: &'a [Token],
    /// Whether its record is the input record.
    pub is_input: bool,
}

impl<'a> BookWords<'a> {
    /// The word that names the record, if one does.
    fn record_word(self) -> Option<&'a Token> {
        let first = entry_in_front(self.words);
        if level_of(first) == 1 {
            return name_word(first);
        }
        None
    }

    /// The option that names the copybook, without its hyphens.
    pub(crate) fn option(self) -> &'static str {
        if self.is_input { "in-book" } else { "out-book" }
    }

    /// The record, by its name.
    pub(crate) fn record_part(self) -> Part<'a> {
        match self.record_word() {
            Some(word) => Part::Word(word),
            None => Part::Text(self.given_name()),
        }
    }

    /// The name of a record that has none.
    fn given_name(self) -> &'static str {
        if self.is_input {
            "IN-RECORD"
        } else {
            "OUT-RECORD"
        }
    }

    /// Whether a word is the name that its role gives the record, and the record has another one.
    fn is_role_of_other_name(self, word: &Token) -> bool {
        let given = self.given_name().as_bytes();
        match self.record_word() {
            Some(own) => word.text.as_slice() == given && own.text.as_slice() != given,
            None => false,
        }
    }
}

/// An entry of one of the records.
#[derive(Clone, Copy)]
pub(crate) struct Bearer<'a> {
    /// Its copybook.
    pub(crate) book: BookWords<'a>,
    /// How many words of it stand before the entry.
    pub(crate) before: usize,
}

impl<'a> Bearer<'a> {
    /// The entry as it is written.
    pub(crate) fn entry(self) -> &'a [Token] {
        entry_at(self.book.words, self.before)
    }

    /// What holds the entry, if something does: the item of an entry of level 88.
    pub(crate) fn holder(self) -> Option<Bearer<'a>> {
        match holder_at(self.book.words, self.before) {
            Some(before) => Some(Bearer {
                book: self.book,
                before,
            }),
            None => None,
        }
    }

    /// Whether a group with this name holds the entry, its record too.
    fn is_held_by(self, group: &[u8]) -> bool {
        let words = self.book.words;
        let mut at = self.before;
        for _ in 0..MOST_LEVELS {
            let Some(holder) = holder_at(words, at) else {
                break;
            };
            if has_name(entry_at(words, holder), group) {
                return true;
            }
            at = holder;
        }
        match self.book.record_word() {
            Some(word) => word.text.as_slice() == group,
            None => self.book.given_name().as_bytes() == group,
        }
    }

    /// Whether the entry is meant by its name with this qualifier, if there is one.
    fn is_meant(self, group: Option<&Token>) -> bool {
        match group {
            Some(word) => self.is_held_by(word.text.as_slice()),
            None => true,
        }
    }
}

/// The words of both copybooks.
#[derive(Clone, Copy)]
pub struct BothWords<'a> {
    /// Those of the input record.
    pub input: BookWords<'a>,
    /// Those of the output record.
    pub output: BookWords<'a>,
}

/// The first entry of a record that is looked for, with no fewer than so many words before it.
fn bearer_from<'a>(book: BookWords<'a>, from: usize, looked: Looked<'_>) -> Option<Bearer<'a>> {
    let before = found_between(book.words, from, book.words.len(), looked).first?;
    Some(Bearer { book, before })
}

impl<'a> BothWords<'a> {
    /// The name of both records, where they have one.
    pub(crate) fn shared_name(self) -> Option<&'a Token> {
        let name = self.input.record_word()?;
        let other = self.output.record_word()?;
        if name.text.as_slice() == other.text.as_slice() {
            Some(name)
        } else {
            None
        }
    }

    /// Whether a word is the name that its role gives a record, and that record has another one.
    pub(crate) fn is_role_alone(self, word: &Token) -> bool {
        self.input.is_role_of_other_name(word) || self.output.is_role_of_other_name(word)
    }

    /// How many entries of both records are looked for.
    pub(crate) fn count(self, looked: Looked<'_>) -> usize {
        let of_input = found_in(self.input.words, looked).count;
        of_input.saturating_add(found_in(self.output.words, looked).count)
    }

    /// The first of them: of the input record, or else of the output record.
    pub(crate) fn first(self, looked: Looked<'_>) -> Option<Bearer<'a>> {
        match bearer_from(self.input, 0, looked) {
            Some(bearer) => Some(bearer),
            None => bearer_from(self.output, 0, looked),
        }
    }

    /// The one of them that so many stand before, if there are as many.
    pub(crate) fn nth(self, looked: Looked<'_>, before: usize) -> Option<Bearer<'a>> {
        let mut next = self.first(looked);
        for _ in 0..before {
            next = self.next(next?, looked);
        }
        next
    }

    /// The next of them behind this one.
    pub(crate) fn next(self, bearer: Bearer<'a>, looked: Looked<'_>) -> Option<Bearer<'a>> {
        match bearer_from(bearer.book, bearer.before.saturating_add(1), looked) {
            Some(next) => Some(next),
            None if bearer.book.is_input => bearer_from(self.output, 0, looked),
            None => None,
        }
    }
}

/// The first qualifier in front, if there is one.
fn qualifier_in_front(words: &[Token]) -> Option<&Token> {
    match behind(words, WordClass::Of) {
        Some(group) => group.first(),
        None => None,
    }
}

/// The entry that is looked for and held by a group with this qualifier, if there is one, where it alone is.
pub(crate) fn only_one<'a>(
    both: BothWords<'a>,
    looked: Looked<'_>,
    group: Option<&Token>,
) -> Option<Bearer<'a>> {
    let mut next = both.first(looked);
    let mut found: Option<Bearer<'a>> = None;
    for _ in 0..MOST_BEARERS {
        let Some(bearer) = next else {
            return found;
        };
        if bearer.is_meant(group) {
            if found.is_some() {
                return None;
            }
            found = Some(bearer);
        }
        next = both.next(bearer, looked);
    }
    found
}

/// The entry that the name in front means with its first qualifier, where one alone has both.
pub(crate) fn meant<'a>(both: BothWords<'a>, words: &[Token]) -> Option<Bearer<'a>> {
    let (name, more) = words.split_first()?;
    let looked = Looked::Named(name.text.as_slice());
    only_one(both, looked, qualifier_in_front(more))
}

/// The entry of level 88 that the name in front means so.
pub(crate) fn condition_meant<'a>(both: BothWords<'a>, words: &[Token]) -> Option<Bearer<'a>> {
    let (name, more) = words.split_first()?;
    let looked = Looked::Condition(name.text.as_slice());
    only_one(both, looked, qualifier_in_front(more))
}

/// Writes the name of an entry with a name.
fn write_name<W: fmt::Write>(f: &mut fmt::Formatter<W>, entry: &[Token]) -> fmt::Result {
    match name_word(entry) {
        Some(word) => write_word(f, word),
        None => f.write_str("FILLER"),
    }
}

/// Writes the name of a record.
fn write_record<W: fmt::Write>(f: &mut fmt::Formatter<W>, book: BookWords<'_>) -> fmt::Result {
    match book.record_word() {
        Some(word) => write_word(f, word),
        None => f.write_str(book.given_name()),
    }
}

/// Writes an entry with a name by that name, with its record, and in brackets where it stands.
pub(crate) fn write_bearer<W: fmt::Write>(
    f: &mut fmt::Formatter<W>,
    bearer: Bearer<'_>,
) -> fmt::Result {
    let entry = bearer.entry();
    write_name(f, entry)?;
    f.write_str(" OF ")?;
    write_record(f, bearer.book)?;
    write!(f, " ({} line {})", bearer.book.option(), line_of(entry))
}

/// An operand of a statement: its first word.
pub(crate) fn operand_part(words: &[Token]) -> Part<'_> {
    match words.first() {
        Some(word) => Part::Word(word),
        None => Part::Text("nothing"),
    }
}

/// An entry, as what it is, if it is meant.
fn meant_part(bearer: Option<Bearer<'_>>) -> Part<'_> {
    match bearer {
        Some(bearer) => Part::Described(bearer.entry()),
        None => Part::Nothing,
    }
}

/// What an operand of a statement is, where it is no literal and one entry is meant.
pub(crate) fn described_part<'a>(both: BothWords<'a>, words: &[Token]) -> Part<'a> {
    match words.first() {
        Some(word) if word.kind != TokenKind::Literal => meant_part(meant(both, words)),
        _ => Part::Nothing,
    }
}
