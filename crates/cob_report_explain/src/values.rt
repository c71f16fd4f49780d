//! Bytes and values, as they are told.

ghost use Rattle.cob_report_explain.specs.Told.{AreToldOf};

use cob_copybook_tree::{Item, Kind, is_number_item};
use cob_report_show::{number_text, shown_byte};
use std::fmt;

/// How many bytes are told in front, and how many at the end, where not all are told.
const AT_EACH_END: usize = 64;

/// The bytes of an entry that are told.
#[derive(Clone, Copy)]
pub(crate) enum Told<'a> {
    /// All of them.
    Whole(&'a [u8]),
    /// The first and the last of so many.
    Ends {
        first: &'a [u8],
        last: &'a [u8],
        all: usize,
    },
}

impl<'a> Told<'a> {
    /// What is told of these bytes: all, or where they are many those at both ends.
    pub(crate) fn of(bytes: &'a [u8]) -> Told<'a>
        ensures { AreToldOf bytes.now result }
    {
        if bytes.len() <= 2 * AT_EACH_END {
            return Told::Whole(bytes);
        }
        Told::Ends {
            first: &bytes[..AT_EACH_END],
            last: &bytes[bytes.len() - AT_EACH_END..],
            all: bytes.len(),
        }
    }
}

/// Writes bytes in hexadecimal digits.
fn write_digits<W: fmt::Write>(f: &mut fmt::Formatter<W>, bytes: &[u8]) -> fmt::Result {
    for byte in bytes {
        write!(f, "{byte:02X}")?;
    }
    Ok(())
}

/// Bytes, which print as their hexadecimal digits; where they are many, as those at both ends and their number.
#[derive(Clone, Copy)]
struct HexBytes<'a> {
    bytes: &'a [u8],
}

impl fmt::Display for HexBytes<'_> {
    fn fmt<W: fmt::Write>(&self, f: &mut fmt::Formatter<W>) -> fmt::Result {
        match Told::of(self.bytes) {
            Told::Whole(bytes) => write_digits(f, bytes),
            Told::Ends { first, last, all } => {
                write_digits(f, first)?;
                write!(f, "..")?;
                write_digits(f, last)?;
                write!(f, " ({all} bytes)")
            }
        }
    }
}

/// The value of an entry of these bytes, which prints as `show` prints it: a number, or `?` and the bytes of a number item that represent none, or
/// characters in quotation marks; so those of a group. Where the characters are many, those at both ends print so.
#[derive(Clone, Copy)]
struct ValueText<'a> {
    kind: &'a Kind,
    bytes: &'a [u8],
}

/// Writes characters.
fn write_characters<W: fmt::Write>(f: &mut fmt::Formatter<W>, text: &[u8]) -> fmt::Result {
    for character in text {
        write!(f, "{}", char::from(*character))?;
    }
    Ok(())
}

/// Writes bytes as characters in quotation marks.
fn write_quoted<W: fmt::Write>(f: &mut fmt::Formatter<W>, bytes: &[u8]) -> fmt::Result {
    write!(f, "\"")?;
    for byte in bytes {
        write_characters(f, shown_byte(*byte).as_slice())?;
    }
    write!(f, "\"")
}

/// Writes the characters of bytes that are told.
fn write_text<W: fmt::Write>(f: &mut fmt::Formatter<W>, bytes: &[u8]) -> fmt::Result {
    match Told::of(bytes) {
        Told::Whole(bytes) => write_quoted(f, bytes),
        Told::Ends { first, last, .. } => {
            write_quoted(f, first)?;
            write!(f, "..")?;
            write_quoted(f, last)
        }
    }
}

/// Writes the value of an item.
fn write_item<W: fmt::Write>(f: &mut fmt::Formatter<W>, item: &Item, bytes: &[u8]) -> fmt::Result {
    if !is_number_item(item) || bytes.len() != usize::from(item.size()) {
        return write_text(f, bytes);
    }
    match number_text(item, bytes) {
        Some(text) => write_characters(f, text.as_slice()),
        None => write!(f, "?{}", HexBytes { bytes }),
    }
}

impl fmt::Display for ValueText<'_> {
    fn fmt<W: fmt::Write>(&self, f: &mut fmt::Formatter<W>) -> fmt::Result {
        match self.kind {
            Kind::Item(item) => write_item(f, item, self.bytes),
            Kind::Group => write_text(f, self.bytes),
        }
    }
}

/// What an occurrence holds, which prints as its offset, its bytes, and its value where it is known what it describes.
#[derive(Clone, Copy)]
pub(crate) struct HeldText<'a> {
    pub(crate) offset: u32,
    pub(crate) kind: Option<&'a Kind>,
    pub(crate) bytes: &'a [u8],
}

impl fmt::Display for HeldText<'_> {
    fn fmt<W: fmt::Write>(&self, f: &mut fmt::Formatter<W>) -> fmt::Result {
        let digits = HexBytes { bytes: self.bytes };
        write!(f, "{} {digits}", self.offset)?;
        match self.kind {
            Some(kind) => {
                let value = ValueText {
                    kind,
                    bytes: self.bytes,
                };
                write!(f, " {value}")
            }
            None => Ok(()),
        }
    }
}
