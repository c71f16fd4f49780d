//! Blocks: a refusal with its line of the text.

use crate::source::line_in;
use crate::told::{Caret, Told};
use crate::words::BytesText;
use std::alloc::AllocError;
use std::fmt;
use std::fmt::Write;

/// The last column of a line that is shown.
const LAST_SHOWN: usize = 80;

/// Up to so many columns stand before a caret, or in it.
const MOST_COLUMNS: u32 = 255;

/// So many columns of a line.
fn shown(line: &[u8]) -> &[u8] {
    let (front, _) = line.split_at(line.len().min(LAST_SHOWN));
    front
}

/// A character, which prints so many times.
#[derive(Clone, Copy)]
struct Repeated {
    character: char,
    count: u32,
}

impl fmt::Display for Repeated {
    fn fmt<W: fmt::Write>(&self, f: &mut fmt::Formatter<W>) -> fmt::Result {
        for _ in 0..self.count.min(MOST_COLUMNS) {
            f.write_char(self.character)?;
        }
        Ok(())
    }
}

/// How many columns the number of a line takes.
fn number_width(line: u32) -> u32 {
    match line {
        0..=9_999 => 4,
        10_000..=99_999 => 5,
        100_000..=999_999 => 6,
        _ => 7,
    }
}

/// Adds the line of a text and what points at a part of it.
fn push_source(out: &mut String, text: &[u8], caret: Caret) -> Result<(), AllocError> {
    let Caret {
        line,
        column,
        width,
    } = caret;
    let bytes = BytesText {
        bytes: shown(line_in(text, line)),
    };
    let margin = Repeated {
        character: ' ',
        count: number_width(line),
    };
    let before = Repeated {
        character: ' ',
        count: column.saturating_sub(1),
    };
    let marks = Repeated {
        character: '^',
        count: width,
    };
    write!(out, "{line:>4} | {bytes}\n{margin} | {before}{marks}\n")?;
    Ok(())
}

/// Adds the rule, what is wrong and what to do.
pub(crate) fn push_words<D: fmt::Display>(
    out: &mut String,
    rule: &D,
    told: &Told<'_>,
) -> Result<(), AllocError> {
    let what = told.what;
    write!(out, "{rule}: {what}\n")?;
    push_hint(out, told)
}

/// Adds what to do.
fn push_hint(out: &mut String, told: &Told<'_>) -> Result<(), AllocError> {
    if let Some(hint) = told.hint {
        write!(out, "     = {hint}\n")?;
    }
    Ok(())
}

/// Adds what is told of a refusal, with the line of its text.
pub(crate) fn push_block<D: fmt::Display>(
    out: &mut String,
    file: &str,
    text: &[u8],
    rule: &D,
    told: &Told<'_>,
) -> Result<(), AllocError> {
    let Some(caret) = told.at else {
        write!(out, "{file}: ")?;
        return push_words(out, rule, told);
    };
    let Caret { line, column, .. } = caret;
    let what = told.what;
    write!(out, "{file}:{line}:{column}: {rule}: {what}\n")?;
    push_source(out, text, caret)?;
    push_hint(out, told)
}
