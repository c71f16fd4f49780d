//! The records of a mapping, and where their boxes stand.

use crate::occurrences::{EntryTables, occurrences_in};
use cob_copybook_conditions::ConditionName;
use cob_layout::{Item, Kind, Layout, Node, Spot, is_number_item, is_table};
use std::alloc::{AllocError, Global};

/// How high a row is, in units of the drawing.
pub const ROW_HEIGHT: u32 = 20;

/// How high the row of a condition-name is.
const NAME_HEIGHT: u32 = 16;

/// What stays white below the box of an item.
const GAP: u32 = 2;

/// What stays white below the row of a group.
const GROUP_GAP: u32 = 4;

/// How many occurrences of an item show their values.
pub const MOST_SHOWN: u32 = 8;

/// What single moves do to an entry, the worst of it: nothing; they keep all; they move bytes whose description may be lost; they may lose something.
#[derive(Clone, Copy, PartialEq, Eq)]
pub enum Tone {
    Idle,
    Kept,
    Undescribed,
    Lost,
}

impl Tone {
    /// The worse of both.
    pub fn or(self, other: Tone) -> Tone {
        match (self, other) {
            (Tone::Lost, _) | (_, Tone::Lost) => Tone::Lost,
            (Tone::Undescribed, _) | (_, Tone::Undescribed) => Tone::Undescribed,
            (Tone::Kept, _) | (_, Tone::Kept) => Tone::Kept,
            _ => Tone::Idle,
        }
    }
}

/// How high the box of an entry is with what stays white below it, and whether the entry is a group.
#[derive(Clone, Copy)]
pub struct EntryRow {
    pub height: u32,
    pub is_group: bool,
}

/// A record as it is drawn.
#[derive(Drop)]
pub struct Drawn<'a> {
    pub layout: &'a Layout,
    /// The condition-names of its copybook.
    pub names: &'a [ConditionName],
    /// What the names of its boxes begin with.
    pub letter: &'static str,
    /// Where its entries stand in the record that is given, and its bytes, where one is.
    pub contents: Option<GivenRecord<'a>>,
    /// Of each byte, whether a receiver covers it; of a byte behind these it isn't said.
    pub covered: &'a [bool],
    /// Whether the ends of lines at its boxes have heads of arrows.
    pub receives: bool,
    /// Of each entry, by its number, what single moves do to it.
    pub tones: Vec<Tone>,
    /// How high the boxes of its entries are, by their numbers.
    pub rows: Vec<EntryRow>,
    /// Where these boxes begin, and where the last one ends.
    pub tops: Vec<u32>,
}

/// A record that is given: where its entries stand, by their numbers, and its bytes.
#[derive(Clone, Copy)]
pub struct GivenRecord<'a> {
    pub spots: &'a [Spot],
    pub bytes: &'a [u8],
}

/// These tables, and the entry itself where it is one.
pub fn tables_with(over: &[usize], entry: &Node) -> EntryTables {
    let mut tables = EntryTables::new();
    for table in over {
        let _ = tables.try_push(*table);
    }
    if is_table(entry.occurs) {
        let _ = tables.try_push(entry.number);
    }
    tables
}

/// How the values of an item are shown.
#[derive(Clone, Copy, PartialEq, Eq)]
pub enum Showing {
    /// There are none.
    Nothing,
    /// The one value, in the row of the item.
    Alone,
    /// Characters one beside another, in a row of their own.
    Beside,
    /// A row for each of so many occurrences, and one more where there are more.
    Rows { shown: u32, more: bool },
}

/// How the values of an item are shown that occurs so many times, an element with so many bytes.
pub fn showing_of(item: &Item, occurrences: u32, length: u32) -> Showing {
    if occurrences == 0 {
        Showing::Nothing
    } else if occurrences == 1 {
        Showing::Alone
    } else if length == 1 && !is_number_item(item) {
        Showing::Beside
    } else {
        Showing::Rows {
            shown: occurrences.min(MOST_SHOWN),
            more: occurrences > MOST_SHOWN,
        }
    }
}

/// How many rows the values of an item take below its own.
fn value_rows(contents: Option<GivenRecord<'_>>, entry: &Node, tables: &[usize]) -> u32 {
    let (Some(contents), Kind::Item(item)) = (contents, &entry.kind) else {
        return 0;
    };
    let occurrences = occurrences_in(contents.spots, tables);
    let length = Spot::of(contents.spots, entry.number).length;
    match showing_of(item, occurrences, length) {
        Showing::Nothing | Showing::Alone => 0,
        Showing::Beside => 1,
        Showing::Rows { shown, more } => shown.saturating_add(u32::from(more)),
    }
}

/// How high the rows of the condition-names are that stand behind the entry with this number.
fn names_height(names: &[ConditionName], number: usize) -> u32 {
    let mut height: u32 = 0;
    for name in names {
        if name.entry == number {
            height = height.saturating_add(NAME_HEIGHT);
        }
    }
    height
}

/// How high the box of an entry is, without those beneath it, and with what stays white below it. The rows of its condition-names are so high.
fn row_of(entry: &Node, value_rows: u32, names_height: u32) -> EntryRow {
    match entry.kind {
        Kind::Group => EntryRow {
            height: names_height.saturating_add(ROW_HEIGHT + GROUP_GAP),
            is_group: true,
        },
        Kind::Item(_) => EntryRow {
            height: value_rows
                .saturating_add(1)
                .saturating_mul(ROW_HEIGHT)
                .saturating_add(names_height)
                .saturating_add(GAP),
            is_group: false,
        },
    }
}

/// Adds the rows of an entry and of those beneath it, in their order. The entry stands in these tables.
fn push_rows(
    contents: Option<GivenRecord<'_>>,
    names: &[ConditionName],
    entry: &Node,
    over: &[usize],
    rows: &mut Vec<EntryRow>,
) -> Result<(), AllocError> {
    let tables = tables_with(over, entry);
    let value_rows = value_rows(contents, entry, tables.as_slice());
    let names_height = names_height(names, entry.number);
    rows.push(row_of(entry, value_rows, names_height))?;
    for child in entry.children.iter() {
        push_rows(contents, names, child, tables.as_slice(), rows)?;
    }
    Ok(())
}

/// How high the boxes of a record's entries are, by their numbers. The condition-names are those of its copybook.
///
/// # Errors
///
/// Where no memory is left.
pub fn rows_of_entries(
    alloc: Global,
    layout: &Layout,
    names: &[ConditionName],
    contents: Option<GivenRecord<'_>>,
) -> Result<Vec<EntryRow>, AllocError> {
    let mut rows = Vec::new(alloc);
    push_rows(contents, names, layout.root(), &[], &mut rows)?;
    Ok(rows)
}

/// A number of bytes of a record, which has fewer than 65,536.
pub fn told_length(length: usize) -> u32 {
    length.min(0xFFFF) as u32
}

/// The number of the last entry beneath this one, or its own.
pub fn last_beneath(entry: &Node) -> usize {
    match entry.children.last() {
        Some(child) => last_beneath(child),
        None => entry.number,
    }
}

impl Drawn<'_> {
    /// What single moves do to the entry with this number.
    pub fn tone(&self, number: usize) -> Tone {
        match self.tones.get(number) {
            Some(tone) => *tone,
            None => Tone::Idle,
        }
    }

    /// Where the box of the entry with this number begins.
    pub fn top(&self, number: usize) -> u32 {
        match self.tops.get(number) {
            Some(top) => *top,
            None => 0,
        }
    }

    /// Where lines meet the box of the entry with this number.
    pub fn middle(&self, number: usize) -> u32 {
        self.top(number).saturating_add(ROW_HEIGHT / 2)
    }

    /// How high the box of the entry with this number is.
    pub fn height(&self, number: usize) -> u32 {
        match self.rows.get(number) {
            Some(row) if row.is_group => row.height.saturating_sub(GROUP_GAP),
            Some(row) => row.height.saturating_sub(GAP),
            None => 0,
        }
    }

    /// How high all of it is.
    pub fn whole_height(&self) -> u32 {
        match self.tops.last() {
            Some(end) => *end,
            None => 0,
        }
    }
}
