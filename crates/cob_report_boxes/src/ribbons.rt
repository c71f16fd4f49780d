//! The ribbon of a record: its items one beside another, each as wide as its bytes.

use crate::boxes::{class_of_tone, covered_in};
use crate::entries::NameText;
use crate::records::{Drawn, Tone, told_length};
use cob_layout::{Kind, Node, Spot, is_table};
use cob_report_html::{Rectangle, bare_length};
use std::fmt;

/// So many bytes from an offset on, as they are drawn on a ribbon.
fn bytes_on_ribbon(offset: u32, length: u32) -> Rectangle {
    Rectangle {
        x: offset,
        y: 0,
        width: length,
        height: 1,
    }
}

/// Writes those of these bytes that are not covered. The first one stands at this offset.
fn write_bare<W: fmt::Write>(
    f: &mut fmt::Formatter<W>,
    covered: &[bool],
    first: u32,
) -> fmt::Result {
    let mut offset = first;
    let mut rest = covered;
    while let Some((_, behind)) = rest.split_first() {
        let length = told_length(bare_length(rest));
        if length > 0 {
            let bare = bytes_on_ribbon(offset, length);
            write!(f, "<g class=\"bad\">{bare}</g>")?;
        }
        let step = length.max(1);
        offset = offset.saturating_add(step);
        rest = match rest.get(step as usize..) {
            Some(later) => later,
            None => behind,
        };
    }
    Ok(())
}

/// The worst that single moves do to an entry and to those beneath it.
fn tone_beneath(drawn: &Drawn<'_>, entry: &Node) -> Tone {
    let mut tone = drawn.tone(entry.number);
    for child in entry.children.iter() {
        tone = tone.or(tone_beneath(drawn, child));
    }
    tone
}

/// The worst that single moves do to those of these entries that redefine this one.
fn tone_of_others(drawn: &Drawn<'_>, entry: &Node, siblings: &[Node]) -> Tone {
    let mut tone = Tone::Idle;
    for sibling in siblings {
        if let Some(name) = &sibling.redefines {
            if entry.is_called(name) {
                tone = tone.or(tone_beneath(drawn, sibling));
            }
        }
    }
    tone
}

/// Writes the segment of an item or a table, of which single moves do this.
fn write_segment<W: fmt::Write>(
    f: &mut fmt::Formatter<W>,
    drawn: &Drawn<'_>,
    entry: &Node,
    tone: Tone,
) -> fmt::Result {
    let spot = Spot::of(drawn.layout.greatest_spots(), entry.number);
    let length = spot.length.saturating_mul(spot.times);
    let class = if tone == Tone::Idle {
        " no"
    } else {
        class_of_tone(tone)
    };
    let segment = bytes_on_ribbon(spot.offset, length);
    write!(
        f,
        "<a class=\"s{class}\" href=\"#{}{}\">",
        drawn.letter, entry.number
    )?;
    write!(
        f,
        "<title>{}, offset {}, {length} bytes</title>{segment}",
        NameText { entry },
        spot.offset
    )?;
    let all = Spot { length, ..spot };
    write_bare(f, covered_in(drawn.covered, all), spot.offset)?;
    writeln!(f, "</a>")
}

/// Writes the segments of an entry and of those beneath it; single moves do this to what it stands in and to what redefines it.
fn write_segments<W: fmt::Write>(
    f: &mut fmt::Formatter<W>,
    drawn: &Drawn<'_>,
    entry: &Node,
    over: Tone,
) -> fmt::Result {
    if entry.redefines.is_some() {
        return Ok(());
    }
    if matches!(entry.kind, Kind::Item(_)) || is_table(entry.occurs) {
        let tone = over.or(tone_beneath(drawn, entry));
        return write_segment(f, drawn, entry, tone);
    }
    let over = over.or(drawn.tone(entry.number));
    let siblings = entry.children.as_slice();
    for child in entry.children.iter() {
        let tone = over.or(tone_of_others(drawn, child, siblings));
        write_segments(f, drawn, child, tone)?;
    }
    Ok(())
}

/// Writes the ribbon of a record.
pub fn write_ribbon<W: fmt::Write>(f: &mut fmt::Formatter<W>, drawn: &Drawn<'_>) -> fmt::Result {
    let length = drawn.layout.greatest();
    writeln!(
        f,
        "<svg class=\"rib\" viewBox=\"0 0 {length} 1\" preserveAspectRatio=\"none\">"
    )?;
    write_segments(f, drawn, drawn.layout.root(), Tone::Idle)?;
    writeln!(f, "</svg>")
}
