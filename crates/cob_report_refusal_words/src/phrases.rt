//! Phrases: a form with places in it, and what stands there.

use crate::bearers::{Bearer, write_bearer};
use crate::entry::{write_described, write_entry, write_picture};
use crate::words::{write_bytes, write_word, write_words};
use cob_source::Token;
use std::fmt;

/// What stands at a place of a form.
#[derive(Clone, Copy)]
pub(crate) enum Part<'a> {
    /// Nothing.
    Nothing,
    /// A text.
    Text(&'a str),
    /// Characters, one that does not print as a period.
    Bytes(&'a [u8]),
    /// A byte by its hexadecimal digits.
    Hexadecimal(u8),
    /// A number.
    Number(usize),
    /// A level, with two digits.
    Level(u32),
    /// A word, a literal or a period.
    Word(&'a Token),
    /// Words, with spaces between them.
    Words(&'a [Token]),
    /// An entry, by its name or its line.
    Entry(&'a [Token]),
    /// An entry, by its picture or as a group.
    Picture(&'a [Token]),
    /// An entry so, behind its name and a comma.
    Described(&'a [Token]),
    /// An entry of one of two records by its name, with its record, and where it stands.
    Bearer(Bearer<'a>),
}

impl Part<'_> {
    /// Writes it.
    fn write<W: fmt::Write>(self, f: &mut fmt::Formatter<W>) -> fmt::Result {
        match self {
            Part::Nothing => Ok(()),
            Part::Text(text) => f.write_str(text),
            Part::Bytes(bytes) => write_bytes(f, bytes),
            Part::Hexadecimal(byte) => write!(f, "{byte:02X}"),
            Part::Number(number) => write!(f, "{number}"),
            Part::Level(level) => write!(f, "{level:02}"),
            Part::Word(word) => write_word(f, word),
            Part::Words(words) => write_words(f, words),
            Part::Entry(entry) => write_entry(f, entry),
            Part::Picture(entry) => write_picture(f, entry),
            Part::Described(entry) => write_described(f, entry),
            Part::Bearer(bearer) => write_bearer(f, bearer),
        }
    }
}

/// A form, in which a pair of braces is a place, and what stands at its places, which prints as its text.
#[derive(Clone, Copy)]
pub(crate) struct Phrase<'a> {
    form: &'static str,
    parts: [Part<'a>; 5],
}

impl<'a> Phrase<'a> {
    /// A form without places.
    pub(crate) fn plain(form: &'static str) -> Phrase<'a> {
        Phrase {
            form,
            parts: [Part::Nothing; 5],
        }
    }

    /// A form with one place.
    pub(crate) fn of(form: &'static str, part: Part<'a>) -> Phrase<'a> {
        Phrase::of_two(form, part, Part::Nothing)
    }

    /// A form with two places.
    pub(crate) fn of_two(form: &'static str, first: Part<'a>, second: Part<'a>) -> Phrase<'a> {
        Phrase::of_three(form, first, second, Part::Nothing)
    }

    /// A form with three places.
    pub(crate) fn of_three(
        form: &'static str,
        first: Part<'a>,
        second: Part<'a>,
        third: Part<'a>,
    ) -> Phrase<'a> {
        Phrase::of_five(form, first, second, third, Part::Nothing, Part::Nothing)
    }

    /// A form with four places.
    pub(crate) fn of_four(
        form: &'static str,
        first: Part<'a>,
        second: Part<'a>,
        third: Part<'a>,
        fourth: Part<'a>,
    ) -> Phrase<'a> {
        Phrase::of_five(form, first, second, third, fourth, Part::Nothing)
    }

    /// A form with five places.
    pub(crate) fn of_five(
        form: &'static str,
        first: Part<'a>,
        second: Part<'a>,
        third: Part<'a>,
        fourth: Part<'a>,
        fifth: Part<'a>,
    ) -> Phrase<'a> {
        Phrase {
            form,
            parts: [first, second, third, fourth, fifth],
        }
    }
}

impl fmt::Display for Phrase<'_> {
    fn fmt<W: fmt::Write>(&self, f: &mut fmt::Formatter<W>) -> fmt::Result {
        let mut rest = self.form;
        for part in &self.parts {
            let Some((front, behind)) = rest.split_once("{}") else {
                break;
            };
            f.write_str(front)?;
            (*part).write(f)?;
            rest = behind;
        }
        f.write_str(rest)
    }
}
