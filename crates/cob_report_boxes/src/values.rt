//! The values of items, in their boxes and in the list of bytes.

use crate::occurrences::{ItemOccurrence, occurrence_at, occurrences_in};
use crate::records::{Drawn, GivenRecord, MOST_SHOWN, Showing, showing_of, tables_with};
use crate::texts::{Characters, HexDigits, ShownBytes};
use arrayvec::ArrayVec;
use cob_layout::{Item, Kind, Node, Spot, is_number_item};
use cob_report_show::number_text;
use cob_report_words::NamedOccurrence;
use std::fmt;

/// The space of code page 037.
const SPACE: u8 = 0x40;

/// How many bytes a row shows by characters.
const ROW_CHARACTERS: usize = 64;

/// How many bytes a row shows by their digits.
const ROW_DIGITS: usize = 8;

/// The text of the number that bytes of an item represent, where they represent one.
fn number_of(item: &Item, bytes: &[u8]) -> Option<ArrayVec<u8, 64>> {
    if !is_number_item(item) || bytes.len() != usize::from(item.size()) {
        return None;
    }
    number_text(item, bytes)
}

/// Bytes of a record that are shown, at most so many of them.
fn front(bytes: &[u8], most: usize) -> &[u8] {
    match bytes.get(..most) {
        Some(front) => front,
        None => bytes,
    }
}

/// How many of these bytes stand in front of the spaces at their end.
fn length_before_spaces(bytes: &[u8]) -> usize {
    let mut length = 0;
    for (at, byte) in bytes.iter().enumerate() {
        if *byte != SPACE {
            length = at + 1;
        }
    }
    length
}

/// Writes how many spaces stand behind so many characters.
fn write_spaces<W: fmt::Write>(
    f: &mut fmt::Formatter<W>,
    characters: usize,
    spaces: usize,
) -> fmt::Result {
    let sign = if characters > 0 { "+" } else { "" };
    match spaces {
        0 => Ok(()),
        1 => write!(f, "<i>{sign}1 space</i>"),
        _ => write!(f, "<i>{sign}{spaces} spaces</i>"),
    }
}

/// Writes characters as they stand in a row: without the spaces at their end, which are counted, and cut where they are many.
fn write_characters<W: fmt::Write>(f: &mut fmt::Formatter<W>, bytes: &[u8]) -> fmt::Result {
    let length = length_before_spaces(bytes);
    let shown = front(front(bytes, length), ROW_CHARACTERS);
    write!(f, "{}", ShownBytes { bytes: shown })?;
    if shown.len() < length {
        return write!(f, "&#8230;");
    }
    write_spaces(f, length, bytes.len() - length.min(bytes.len()))
}

/// Writes the value that bytes of an item represent, or that they represent no number.
fn write_value<W: fmt::Write>(f: &mut fmt::Formatter<W>, item: &Item, bytes: &[u8]) -> fmt::Result {
    if !is_number_item(item) {
        return write_characters(f, bytes);
    }
    match number_of(item, bytes) {
        Some(text) => {
            let characters = text.as_slice();
            write!(f, "{}", Characters { characters })
        }
        None => write!(f, "<em>no number</em>"),
    }
}

/// The bytes whose digits stand in a row: of characters those in front of the spaces at their end.
fn told_bytes<'a>(item: &Item, bytes: &'a [u8]) -> &'a [u8] {
    let told = if is_number_item(item) {
        bytes
    } else {
        front(bytes, length_before_spaces(bytes))
    };
    front(told, ROW_DIGITS)
}

/// Writes the value and the digits of an occurrence as they stand in a row.
fn write_shown<W: fmt::Write>(f: &mut fmt::Formatter<W>, item: &Item, bytes: &[u8]) -> fmt::Result {
    write!(f, "<span class=\"v\">")?;
    write_value(f, item, bytes)?;
    let digits = HexDigits {
        bytes: told_bytes(item, bytes),
    };
    write!(f, "</span><span class=\"x\">{digits}</span>")
}

/// The bytes of an element that has these and begins so many behind the first one.
fn bytes_at<'a>(contents: GivenRecord<'a>, spot: Spot, behind: u32) -> &'a [u8] {
    let start = spot.offset.saturating_add(behind);
    let end = start.saturating_add(spot.length);
    match contents.bytes.get(start as usize..end as usize) {
        Some(bytes) => bytes,
        None => &[],
    }
}

/// The bytes of an occurrence of an item in these tables.
fn occurrence_bytes<'a>(
    contents: GivenRecord<'a>,
    number: usize,
    occurrence: &ItemOccurrence,
) -> &'a [u8] {
    bytes_at(
        contents,
        Spot::of(contents.spots, number),
        occurrence.behind,
    )
}

/// How the values of an item that stands in these tables are shown.
fn showing_in(contents: GivenRecord<'_>, number: usize, item: &Item, tables: &[usize]) -> Showing {
    let occurrences = occurrences_in(contents.spots, tables);
    showing_of(item, occurrences, Spot::of(contents.spots, number).length)
}

/// Writes the value of an item that occurs once, in its row.
pub fn write_own_value<W: fmt::Write>(
    f: &mut fmt::Formatter<W>,
    contents: GivenRecord<'_>,
    number: usize,
    item: &Item,
    tables: &[usize],
) -> fmt::Result {
    if showing_in(contents, number, item, tables) != Showing::Alone {
        return Ok(());
    }
    let first = occurrence_at(contents.spots, tables, 0);
    write_shown(f, item, occurrence_bytes(contents, number, &first))
}

/// Writes how many occurrences are not shown, where there are some.
fn write_more<W: fmt::Write>(f: &mut fmt::Formatter<W>, occurrences: u32) -> fmt::Result {
    match occurrences.saturating_sub(MOST_SHOWN) {
        0 => Ok(()),
        more => write!(f, "<small>and {more} more</small>"),
    }
}

/// Writes the characters of the occurrences of an item, one beside another, and their digits.
fn write_beside<W: fmt::Write>(
    f: &mut fmt::Formatter<W>,
    contents: GivenRecord<'_>,
    number: usize,
    tables: &[usize],
) -> fmt::Result {
    let occurrences = occurrences_in(contents.spots, tables);
    write!(f, "<div class=\"w q\">")?;
    for earlier in 0..occurrences.min(MOST_SHOWN) {
        let occurrence = occurrence_at(contents.spots, tables, earlier);
        let bytes = occurrence_bytes(contents, number, &occurrence);
        if length_before_spaces(bytes) == 0 {
            write!(f, "<span class=\"chip\">&#183;</span>")?;
        } else {
            write!(f, "<span class=\"chip\">{}</span>", ShownBytes { bytes })?;
        }
    }
    write_more(f, occurrences)?;
    write!(f, "<span class=\"x\">")?;
    for earlier in 0..occurrences.min(MOST_SHOWN) {
        let occurrence = occurrence_at(contents.spots, tables, earlier);
        let bytes = occurrence_bytes(contents, number, &occurrence);
        write!(f, "{} ", HexDigits { bytes })?;
    }
    writeln!(f, "</span></div>")
}

/// Writes a row for each of so many occurrences of an item.
fn write_rows<W: fmt::Write>(
    f: &mut fmt::Formatter<W>,
    contents: GivenRecord<'_>,
    number: usize,
    item: &Item,
    tables: &[usize],
) -> fmt::Result {
    let occurrences = occurrences_in(contents.spots, tables);
    for earlier in 0..occurrences.min(MOST_SHOWN) {
        let occurrence = occurrence_at(contents.spots, tables, earlier);
        let bytes = occurrence_bytes(contents, number, &occurrence);
        write!(f, "<div class=\"w q\"><small>{occurrence}</small>")?;
        write_shown(f, item, bytes)?;
        writeln!(f, "</div>")?;
    }
    if occurrences > MOST_SHOWN {
        write!(f, "<div class=\"w q\">")?;
        write_more(f, occurrences)?;
        writeln!(f, "</div>")?;
    }
    Ok(())
}

/// Writes the values of an item that stands in these tables and occurs several times, below its row.
pub fn write_values<W: fmt::Write>(
    f: &mut fmt::Formatter<W>,
    contents: GivenRecord<'_>,
    number: usize,
    item: &Item,
    tables: &[usize],
) -> fmt::Result {
    match showing_in(contents, number, item, tables) {
        Showing::Nothing | Showing::Alone => Ok(()),
        Showing::Beside => write_beside(f, contents, number, tables),
        Showing::Rows { .. } => write_rows(f, contents, number, item, tables),
    }
}

/// Writes a row of the list of bytes: an occurrence of an item, where it begins, its value and all of its digits.
fn write_byte_row<W: fmt::Write>(
    f: &mut fmt::Formatter<W>,
    drawn: &Drawn<'_>,
    contents: GivenRecord<'_>,
    item: &Item,
    number: usize,
    occurrence: &ItemOccurrence,
) -> fmt::Result {
    let spot = Spot::of(contents.spots, number);
    let offset = spot.offset.saturating_add(occurrence.behind);
    let bytes = occurrence_bytes(contents, number, occurrence);
    let named = NamedOccurrence::new(drawn.layout.root(), number, &[]);
    write!(f, "<tr><td>{named} {occurrence}</td><td>{offset}</td><td>")?;
    if is_number_item(item) {
        write_value(f, item, bytes)?;
    } else {
        write!(f, "&quot;{}&quot;", ShownBytes { bytes })?;
    }
    writeln!(f, "</td><td>{}</td></tr>", HexDigits { bytes })
}

/// Writes the rows of the list of bytes of an entry that stands in these tables, and of those beneath it: of each item the first occurrences.
fn write_entry_bytes<W: fmt::Write>(
    f: &mut fmt::Formatter<W>,
    drawn: &Drawn<'_>,
    contents: GivenRecord<'_>,
    entry: &Node,
    over: &[usize],
) -> fmt::Result {
    let tables = tables_with(over, entry);
    if let Kind::Item(item) = &entry.kind {
        let occurrences = occurrences_in(contents.spots, tables.as_slice());
        for earlier in 0..occurrences.min(MOST_SHOWN) {
            let occurrence = occurrence_at(contents.spots, tables.as_slice(), earlier);
            write_byte_row(f, drawn, contents, item, entry.number, &occurrence)?;
        }
    }
    for child in entry.children.iter() {
        write_entry_bytes(f, drawn, contents, child, tables.as_slice())?;
    }
    Ok(())
}

/// Writes a row for the first occurrences of each item of a record that is given, with all of its bytes.
pub fn write_bytes<W: fmt::Write>(f: &mut fmt::Formatter<W>, drawn: &Drawn<'_>) -> fmt::Result {
    match drawn.contents {
        Some(contents) => write_entry_bytes(f, drawn, contents, drawn.layout.root(), &[]),
        None => Ok(()),
    }
}
