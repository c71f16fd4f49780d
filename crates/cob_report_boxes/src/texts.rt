//! Texts of the page.

ghost use Rattle.std.specs.Fmt.{WritesOnOk};
ghost use Rattle.cob_report_boxes.specs.Shown.{shown, shown_character};

use cob_report_html::escape_of;
use cob_report_show::{digits_of, shown_byte};
use std::fmt;

/// Writes a character, or the escape that stands for it.
pub(crate) fn write_character<W: fmt::Write>(
    f: &mut fmt::Formatter<W>,
    character: u8,
) -> fmt::Result
    ensures { WritesOnOk W.write_str_gives f.old result (shown_character character) f.new }
{
    let character = char::from(character);
    match escape_of(character) {
        Some(escape) => f.write_str(escape),
        None => f.write_char(character),
    }
}

/// Writes characters, with their escapes.
pub(crate) fn write_shown<W: fmt::Write>(
    f: &mut fmt::Formatter<W>,
    characters: &[u8],
) -> fmt::Result
    ensures { WritesOnOk W.write_str_gives f.old result (shown characters.now) f.new }
{
    for character in characters {
        write_character(f, *character)?;
    }
    Ok(())
}

/// ASCII characters, which print with their escapes.
#[derive(Clone, Copy)]
pub struct Characters<'a> {
    pub characters: &'a [u8],
}

impl fmt::Display for Characters<'_> {
    ghost use Rattle.std.specs.Prelude.{Some};
    ghost use Rattle.cob_report_boxes.specs.Shown.{shown};

    ghost output = { λ text. Some (shown text.characters.now) };

    fn fmt<W: fmt::Write>(&self, f: &mut fmt::Formatter<W>) -> fmt::Result {
        write_shown(f, self.characters)
    }
}

/// Bytes of a record, which print as the characters that show them.
#[derive(Clone, Copy)]
pub struct ShownBytes<'a> {
    pub bytes: &'a [u8],
}

impl fmt::Display for ShownBytes<'_> {
    fn fmt<W: fmt::Write>(&self, f: &mut fmt::Formatter<W>) -> fmt::Result {
        for byte in self.bytes {
            let shown = shown_byte(*byte);
            let characters = shown.as_slice();
            write!(f, "{}", Characters { characters })?;
        }
        Ok(())
    }
}

/// Bytes of a record, which print as their hexadecimal digits.
#[derive(Clone, Copy)]
pub struct HexDigits<'a> {
    pub bytes: &'a [u8],
}

impl fmt::Display for HexDigits<'_> {
    fn fmt<W: fmt::Write>(&self, f: &mut fmt::Formatter<W>) -> fmt::Result {
        for byte in self.bytes {
            let digits = digits_of(*byte);
            let characters = digits.as_slice();
            write!(f, "{}", Characters { characters })?;
        }
        Ok(())
    }
}
