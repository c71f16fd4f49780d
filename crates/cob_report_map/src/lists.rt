//! The lists below the drawing: the moves, and the bytes that no receiver covers.

use crate::lines::{EscapedSent, Group, Sides, class_of, receiver_of};
use cob_layout::{Kind, Node, Spot};
use cob_report_boxes::{Drawn, told_length};
use cob_report_html::bare_length;
use cob_report_words::NamedOccurrence;
use std::fmt;

/// Writes the row of single moves that join the same, of which this is the first.
pub fn write_move<'a, W: fmt::Write>(
    f: &mut fmt::Formatter<W>,
    sides: &Sides<'a>,
    group: Group<'a>,
) -> fmt::Result {
    let Group {
        first: single,
        count,
        lost,
        ..
    } = group;
    let class = class_of(lost);
    let sent = EscapedSent {
        sides,
        sent: single.sent,
    };
    let receiver = receiver_of(sides, single);
    write!(
        f,
        "<tr{class}><td>{}</td><td>{sent}</td><td>{receiver}</td>",
        single.line
    )?;
    writeln!(f, "<td>{count}</td><td>{lost}</td></tr>")
}

/// The item in no redefinition in whose first element this byte is, of an entry and those beneath it.
pub(crate) fn item_at<'a>(drawn: &Drawn<'_>, entry: &'a Node, byte: u32) -> Option<&'a Node> {
    if entry.redefines.is_some() {
        return None;
    }
    if matches!(entry.kind, Kind::Item(_)) {
        let spot = Spot::of(drawn.layout.greatest_spots(), entry.number);
        let end = spot.offset.saturating_add(spot.length);
        return if spot.offset <= byte && byte < end {
            Some(entry)
        } else {
            None
        };
    }
    for child in entry.children.iter() {
        if let Some(found) = item_at(drawn, child, byte) {
            return Some(found);
        }
    }
    None
}

/// Writes a row with a run of bytes that are not covered, and the item in whose first element it begins, where it does.
fn write_run<W: fmt::Write>(
    f: &mut fmt::Formatter<W>,
    drawn: &Drawn<'_>,
    offset: u32,
    length: usize,
) -> fmt::Result {
    write!(f, "<tr><td>{offset}</td><td>{length}</td><td>")?;
    if let Some(entry) = item_at(drawn, drawn.layout.root(), offset) {
        let named = NamedOccurrence::new(drawn.layout.root(), entry.number, &[]);
        write!(f, "{named}")?;
    }
    writeln!(f, "</td></tr>")
}

/// Writes a row for each run of bytes that are not covered.
pub fn write_runs<W: fmt::Write>(f: &mut fmt::Formatter<W>, drawn: &Drawn<'_>) -> fmt::Result {
    let mut offset: u32 = 0;
    let mut rest = drawn.covered;
    while let Some((_, behind)) = rest.split_first() {
        let length = bare_length(rest);
        if length > 0 {
            write_run(f, drawn, offset, length)?;
        }
        let step = length.max(1);
        offset = offset.saturating_add(told_length(step));
        rest = match rest.get(step..) {
            Some(later) => later,
            None => behind,
        };
    }
    Ok(())
}
