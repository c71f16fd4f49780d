//! What the columns of a line say of a word that can't go on.

ghost use Rattle.std.specs.Prelude.{◌≡◌};

use crate::phrases::{Part, Phrase};
use crate::source::line_in;
use crate::told::{Caret, Told};
use crate::words::has_digits_alone;

/// The last column that is read.
const LAST_COLUMN: u32 = 72;

/// Columns 1 to 6 of a line.
fn first_columns(line: &[u8]) -> &[u8] {
    let (front, _) = line.split_at(line.len().min(6));
    front
}

/// Whether columns hold spaces alone.
fn is_blank(columns: &[u8]) -> bool {
    for byte in columns {
        if *byte != b' ' {
            return false;
        }
    }
    true
}

/// Whether columns 1 to 6 hold words: something stands there that is no number of a line.
fn hold_words(columns: &[u8]) -> bool {
    !has_digits_alone(columns) && !is_blank(columns)
}

/// Whether a word touches column 72, and something stands behind it.
fn goes_on(line: &[u8], caret: Caret) -> bool {
    let end = caret.column.saturating_add(caret.width);
    let behind = line.get(72).copied().unwrap_or(b' ');
    end > LAST_COLUMN && behind != b' '
}

/// What to do where words stand in columns 1 to 6, which hold this.
fn front_hint<'a>(file: &'a str, columns: &'a [u8]) -> Option<Phrase<'a>> {
    if !hold_words(columns) {
        return None;
    }
    Some(Phrase::of_two(
        "columns 1 to 6 are not read, and \"{}\" stands there: the text looks like free format\n     = --free reads it so; sed 's/^/       /' {} puts its words into columns 8 to 72",
        Part::Bytes(columns),
        Part::Text(file),
    ))
}

/// What the columns of a line say to do: where a word goes on behind them, or where nothing else is known and words stand in front of them.
fn columns_hint<'a>(
    file: &'a str,
    line: &'a [u8],
    caret: Caret,
    known: Option<Phrase<'a>>,
) -> Option<Phrase<'a>> {
    if goes_on(line, caret) {
        return Some(Phrase::plain(
            "the word goes on behind column 72, where nothing is read: put it on a further line",
        ));
    }
    known.or(front_hint(file, first_columns(line)))
}

/// What is told, with what the line of its word shows.
pub(crate) fn with_columns<'a>(file: &'a str, text: &'a [u8], told: Told<'a>) -> Told<'a>
    ensures { result.at ≡ told.entry.at }
{
    let Told { at, what, hint } = told;
    let Some(caret) = at else {
        return told;
    };
    Told {
        at,
        what,
        hint: columns_hint(file, line_in(text, caret.line), caret, hint),
    }
}
