//! Lines that break a rule of the reference format.

use crate::phrases::{Part, Phrase};
use crate::told::{Caret, Told, advised, said};
use cob_source::{SourceRule, without_return};

/// The bytes of the line with this number, from 1; none where there are fewer.
pub(crate) fn line_in(text: &[u8], number: u32) -> &[u8] {
    let mut left = number;
    for line in text.split(|byte| *byte == b'\n') {
        if left <= 1 {
            return without_return(line);
        }
        left -= 1;
    }
    b""
}

/// A line that breaks a rule.
#[derive(Clone, Copy)]
struct BadLine<'a> {
    /// Its number, from 1.
    number: u32,
    /// Its bytes.
    bytes: &'a [u8],
}

impl<'a> BadLine<'a> {
    /// One column of the line.
    fn at(self, column: u32) -> Option<Caret> {
        Some(Caret {
            line: self.number,
            column,
            width: 1,
        })
    }

    /// The byte in column 7, if the line has one.
    fn indicator(self) -> &'a [u8] {
        let (_, rest) = self.bytes.split_at(self.bytes.len().min(6));
        let (indicator, _) = rest.split_at(rest.len().min(1));
        indicator
    }

    /// The byte in a column, a space where the line is shorter.
    fn byte(self, column: usize) -> u8 {
        self.bytes
            .get(column.saturating_sub(1))
            .copied()
            .unwrap_or(b' ')
    }
}

/// A kind of bytes of a line.
#[derive(Clone, Copy)]
enum ByteKind {
    /// Tabs.
    Tab,
    /// From column 7 on bytes that do not print.
    Foreign,
    /// In columns 8 to 72 quotes.
    Quote,
    /// From column 8 on bytes other than spaces.
    Written,
}

/// Whether a byte in its column is of this kind.
fn is_of_kind(byte: u8, column: u32, kind: ByteKind) -> bool {
    match kind {
        ByteKind::Tab => byte == b'\t',
        ByteKind::Foreign => column > 6 && (byte < 32 || byte > 126) && byte != b'\t',
        ByteKind::Quote => column > 7 && column < 73 && (byte == b'"' || byte == b'\''),
        ByteKind::Written => column > 7 && byte != b' ',
    }
}

/// The first column with a byte of this kind, and the last, 0 where there is none.
fn columns_of(line: &[u8], kind: ByteKind) -> (u32, u32) {
    let mut column: u32 = 0;
    let mut first: u32 = 0;
    let mut last: u32 = 0;
    for byte in line {
        column = column.saturating_add(1);
        if is_of_kind(*byte, column, kind) {
            last = column;
            if first == 0 {
                first = column;
            }
        }
    }
    (first, last)
}

/// What to do with a byte that does not print.
fn foreign_hint(byte: u8) -> &'static str {
    if byte == 0xC2 || byte == 0xC3 {
        "iconv -f UTF-8 -t ASCII//TRANSLIT writes the text without such characters"
    } else {
        "a comment line (* in column 7) may hold it"
    }
}

/// What is told of a line in which a byte stands that no text has, and is not found.
fn told_line(form: &'static str, line: BadLine<'_>) -> Told<'static> {
    said(None, Phrase::of(form, Part::Number(line.number as usize)))
}

/// What is told of a byte that does not print, in this column.
fn told_byte(line: BadLine<'_>, column: u32, byte: u8) -> Told<'static> {
    advised(
        line.at(column),
        Phrase::of_two(
            "the byte {} stands in column {}, and a text has the characters 20 to 7E",
            Part::Hexadecimal(byte),
            Part::Number(column as usize),
        ),
        Phrase::plain(foreign_hint(byte)),
    )
}

/// What is told of a byte that does not print.
fn told_foreign(line: BadLine<'_>) -> Told<'static> {
    let (column, _) = columns_of(line.bytes, ByteKind::Foreign);
    if column == 0 {
        return told_line("a byte stands in line {} that no text has", line);
    }
    told_byte(line, column, line.byte(column as usize))
}

/// What a text is, by which options for it differ.
#[derive(Clone, Copy)]
pub(crate) enum SourceText {
    /// A copybook.
    Copybook,
    /// A paragraph.
    Paragraph,
}

impl SourceText {
    /// What to do with a tab in the text of a file.
    fn tab_hint(self) -> &'static str {
        match self {
            SourceText::Copybook => {
                "--tabs 8 reads it so that tabs stop at every eighth column; expand -t 8 {} writes the spaces"
            }
            SourceText::Paragraph => {
                "expand -t 8 {} writes the spaces, where tabs stop at every eighth column"
            }
        }
    }

    /// What to do with a character in column 7 that is none of its own.
    fn indicator_hint(self) -> &'static str {
        match self {
            SourceText::Copybook => {
                "columns 1 to 6 are not read: --free reads a copybook without columns"
            }
            SourceText::Paragraph => {
                "columns 1 to 6 are not read: words stand in columns 8 to 72"
            }
        }
    }
}

/// What is told of a tab.
fn told_tab<'a>(kind: SourceText, file: &'a str, line: BadLine<'a>) -> Told<'a> {
    let (column, _) = columns_of(line.bytes, ByteKind::Tab);
    if column == 0 {
        return told_line("a tab stands in line {}", line);
    }
    advised(
        line.at(column),
        Phrase::of(
            "a tab stands in column {}, and how many columns it is worth is not known",
            Part::Number(column as usize),
        ),
        Phrase::of(kind.tab_hint(), Part::Text(file)),
    )
}

/// What is told of a character in column 7 that is none of its own.
fn told_indicator(kind: SourceText, line: BadLine<'_>) -> Told<'_> {
    advised(
        line.at(7),
        Phrase::of(
            "{} stands in column 7, where a space, *, /, -, D or d stands",
            Part::Bytes(line.indicator()),
        ),
        Phrase::plain(kind.indicator_hint()),
    )
}

/// What to do with a literal that is left open.
fn open_hint(line: BadLine<'_>) -> &'static str {
    if line.byte(73) != b' ' {
        "it goes on behind column 72, where nothing is read"
    } else {
        "close it, or go on in the next line with - in column 7 and a quote"
    }
}

/// What is told of a column of a line, in forms without places.
fn told_column(
    line: BadLine<'_>,
    column: u32,
    what: &'static str,
    hint: &'static str,
) -> Told<'static> {
    advised(line.at(column), Phrase::plain(what), Phrase::plain(hint))
}

/// What is told of a literal that is left open: its quote is the last of the line.
fn told_open(line: BadLine<'_>) -> Told<'static> {
    let (_, quote) = columns_of(line.bytes, ByteKind::Quote);
    told_column(
        line,
        quote.max(8),
        "this literal is not closed on its line, and no continuation follows",
        open_hint(line),
    )
}

/// What is told of a continuation that does not fit.
fn told_continuation(line: BadLine<'_>) -> Told<'static> {
    let (written, _) = columns_of(line.bytes, ByteKind::Written);
    let column = written.max(8);
    let what = if column < 12 {
        "a continuation leaves columns 8 to 11 empty"
    } else {
        "this continuation does not fit the line before it"
    };
    told_column(
        line,
        column,
        what,
        "one of a literal begins with its quote, one of a word or behind a closed literal without, and a line stands before it",
    )
}

/// What is told of a text that is too long.
fn told_too_long(text: &[u8]) -> Told<'_> {
    advised(
        None,
        Phrase::of(
            "the text has {} bytes, and 1,000,000 are the most",
            Part::Number(text.len()),
        ),
        Phrase::plain("give a part of it"),
    )
}

/// What is told of a line that breaks a rule of the reference format.
pub(crate) fn told_source<'a>(
    kind: SourceText,
    file: &'a str,
    text: &'a [u8],
    rule: SourceRule,
    number: u32,
) -> Told<'a> {
    let line = BadLine {
        number,
        bytes: line_in(text, number),
    };
    match rule {
        SourceRule::NotAscii => told_foreign(line),
        SourceRule::Tab => told_tab(kind, file, line),
        SourceRule::OpenLiteral => told_open(line),
        SourceRule::BadContinuation => told_continuation(line),
        SourceRule::UnknownIndicator => told_indicator(kind, line),
        SourceRule::TooLong | SourceRule::Memory => told_too_long(text),
    }
}
