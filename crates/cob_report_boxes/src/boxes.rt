//! The boxes of a record.

use crate::conditions::ConditionRows;
use crate::entries::{ClausesText, KindText, NameText, TitleText};
use crate::records::{Drawn, ROW_HEIGHT, Tone, last_beneath, tables_with};
use crate::values::{write_own_value, write_values};
use arrayvec::ArrayVec;
use cob_layout::{Item, Kind, Layout, Node, Spot};
use cob_layout_steady::is_steady;
use cob_limits::MAX_SUBSCRIPTS;
use std::fmt;

/// Of each byte of an element, whether a receiver covers it, as far as that is said.
pub(crate) fn covered_in(covered: &[bool], spot: Spot) -> &[bool] {
    let start = spot.offset as usize;
    let end = start.saturating_add(spot.length as usize);
    match covered.get(start..end) {
        Some(covered) => covered,
        None => &[],
    }
}

/// Whether some of these bytes is not covered.
fn is_bare(covered: &[bool]) -> bool {
    covered.contains(&false)
}

/// The class of what has this tone; what keeps all has none.
pub(crate) fn class_of_tone(tone: Tone) -> &'static str {
    match tone {
        Tone::Lost => " bad",
        Tone::Undescribed => " amb",
        Tone::Kept | Tone::Idle => "",
    }
}

/// Writes the classes of the box of an entry whose first element has these bytes.
fn write_classes<W: fmt::Write>(
    f: &mut fmt::Formatter<W>,
    drawn: &Drawn<'_>,
    entry: &Node,
    covered: &[bool],
) -> fmt::Result {
    let tone = drawn.tone(entry.number);
    match &entry.kind {
        Kind::Group => write!(f, "g")?,
        Kind::Item(_) if is_bare(covered) => write!(f, "e bare")?,
        Kind::Item(_) => write!(f, "e")?,
    }
    write!(f, "{}", class_of_tone(tone))?;
    if entry.redefines.is_some() {
        write!(f, " r")?;
    }
    if drawn.receives && tone != Tone::Idle {
        write!(f, " got")?;
    }
    Ok(())
}

/// Writes the beginning of the box of an entry that stands in so many groups.
fn write_place<W: fmt::Write>(
    f: &mut fmt::Formatter<W>,
    drawn: &Drawn<'_>,
    entry: &Node,
    spot: Spot,
    depth: u32,
) -> fmt::Result {
    let number = entry.number;
    let (top, height) = (drawn.top(number), drawn.height(number));
    let title = TitleText {
        layout: drawn.layout,
        entry,
        spot,
    };
    write!(f, "<div class=\"")?;
    write_classes(f, drawn, entry, covered_in(drawn.covered, spot))?;
    write!(f, "\" id=\"{}{number}\"", drawn.letter)?;
    writeln!(
        f,
        " style=\"--d:{depth};--y:{top};--h:{height}\" title=\"{title}\">"
    )
}

/// Whether the first element of an entry that stands in so many tables, or is one of them, begins elsewhere under other counts.
fn is_shifted(layout: &Layout, number: usize, tables: usize) -> bool {
    if !layout.varies() {
        return false;
    }
    let mut first: ArrayVec<u32, MAX_SUBSCRIPTS> = ArrayVec::new();
    for _ in 0..tables {
        let _ = first.try_push(1);
    }
    match layout.reference(number, first.as_slice()) {
        Some(reference) => !is_steady(layout, &reference),
        None => false,
    }
}

/// Writes that some bytes of an item, which stands in so many tables, are not covered, where that is so, or that none is, and whether it stands behind a
/// table that varies.
fn write_mark<W: fmt::Write>(
    f: &mut fmt::Formatter<W>,
    layout: &Layout,
    entry: &Node,
    tables: usize,
    covered: &[bool],
) -> fmt::Result {
    if matches!(entry.kind, Kind::Group) || !is_bare(covered) {
        return Ok(());
    }
    let words = if covered.contains(&true) {
        "partly covered"
    } else {
        "not covered"
    };
    let shifted = if is_shifted(layout, entry.number, tables) {
        ", shifted"
    } else {
        ""
    };
    write!(f, "<span class=\"m\">{words}{shifted}</span>")
}

/// Writes the name of an entry, how often it occurs and what it redefines.
fn write_name<W: fmt::Write>(
    f: &mut fmt::Formatter<W>,
    layout: &Layout,
    entry: &Node,
) -> fmt::Result {
    let clauses = ClausesText { layout, entry };
    write!(
        f,
        "<div class=\"w\"><b>{}</b><small>{clauses}</small>",
        NameText { entry }
    )
}

/// Writes what stands in the row of an item behind its name: its picture, whether it is covered, and its value where it occurs once.
fn write_item<W: fmt::Write>(
    f: &mut fmt::Formatter<W>,
    drawn: &Drawn<'_>,
    entry: &Node,
    item: &Item,
    tables: &[usize],
) -> fmt::Result {
    let spot = Spot::of(drawn.layout.greatest_spots(), entry.number);
    let kind = KindText { kind: &entry.kind };
    write!(f, "<span class=\"p\">{kind}</span>")?;
    write_mark(
        f,
        drawn.layout,
        entry,
        tables.len(),
        covered_in(drawn.covered, spot),
    )?;
    match drawn.contents {
        Some(contents) => write_own_value(f, contents, entry.number, item, tables),
        None => Ok(()),
    }
}

/// Writes the values of an item below its row.
fn write_below<W: fmt::Write>(
    f: &mut fmt::Formatter<W>,
    drawn: &Drawn<'_>,
    entry: &Node,
    tables: &[usize],
) -> fmt::Result {
    match (drawn.contents, &entry.kind) {
        (Some(contents), Kind::Item(item)) => {
            write_values(f, contents, entry.number, item, tables)
        }
        _ => Ok(()),
    }
}

/// Writes the box of an entry that stands in so many groups and in these tables: its row, below it those of its condition-names, and those of its values.
fn write_own_box<W: fmt::Write>(
    f: &mut fmt::Formatter<W>,
    drawn: &Drawn<'_>,
    entry: &Node,
    depth: u32,
    tables: &[usize],
) -> fmt::Result {
    let spot = Spot::of(drawn.layout.greatest_spots(), entry.number);
    write_place(f, drawn, entry, spot, depth)?;
    write_name(f, drawn.layout, entry)?;
    if let Kind::Item(item) = &entry.kind {
        write_item(f, drawn, entry, item, tables)?;
    }
    writeln!(f, "<span class=\"o\">{}</span></div>", spot.offset)?;
    let names = ConditionRows {
        names: drawn.names,
        number: entry.number,
    };
    write!(f, "{names}")?;
    write_below(f, drawn, entry, tables)?;
    writeln!(f, "</div>")
}

/// Writes the rail along what a group holds that stands in so many groups.
fn write_rail<W: fmt::Write>(
    f: &mut fmt::Formatter<W>,
    drawn: &Drawn<'_>,
    group: &Node,
    depth: u32,
) -> fmt::Result {
    let last = last_beneath(group);
    let top = drawn.top(group.number).saturating_add(ROW_HEIGHT);
    let end = drawn.top(last).saturating_add(drawn.height(last));
    let height = end.saturating_sub(top);
    writeln!(
        f,
        "<div class=\"u\" style=\"--d:{depth};--y:{top};--h:{height}\"></div>"
    )
}

/// Writes the boxes of an entry that stands in so many groups and in these tables, and of those beneath it.
fn write_box<W: fmt::Write>(
    f: &mut fmt::Formatter<W>,
    drawn: &Drawn<'_>,
    entry: &Node,
    depth: u32,
    over: &[usize],
) -> fmt::Result {
    let tables = tables_with(over, entry);
    write_own_box(f, drawn, entry, depth, tables.as_slice())?;
    if matches!(entry.kind, Kind::Group) {
        write_rail(f, drawn, entry, depth)?;
    }
    let depth = depth.saturating_add(1);
    for child in entry.children.iter() {
        write_box(f, drawn, child, depth, tables.as_slice())?;
    }
    Ok(())
}

/// Writes the boxes of a record.
pub fn write_boxes<W: fmt::Write>(f: &mut fmt::Formatter<W>, drawn: &Drawn<'_>) -> fmt::Result {
    write_box(f, drawn, drawn.layout.root(), 0, &[])
}
