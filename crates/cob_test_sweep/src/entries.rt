//! The entries of an input record, as they are drawn.

use crate::draw::Draw;
use crate::rows::{ItemRow, Tables, row_of};
use std::alloc::{AllocError, Global};

/// How many levels may stand below the record.
const MOST_DEPTH: u64 = 4;
/// How many depths there are, that of the record with them.
pub(crate) const DEPTHS: usize = 5;

/// A table that varies: the number of its count, and its least and greatest number of elements.
#[derive(Clone, Copy)]
pub(crate) struct Varying {
    pub(crate) count: u64,
    pub(crate) least: u64,
    pub(crate) most: u64,
}

/// How often an entry occurs.
#[derive(Clone, Copy)]
pub(crate) enum Times {
    Once,
    Fixed(u64),
    Varies(Varying),
}

/// What an entry is.
#[derive(Clone, Copy)]
pub(crate) enum Shape<'a> {
    Item(ItemRow<'a>),
    /// The count of tables.
    Count(ItemRow<'a>),
    /// A redefinition of the item of this number.
    Redefinition(u64, ItemRow<'a>),
    Group,
}

/// An entry. Those beneath a group stand behind it.
#[derive(Clone, Copy)]
pub(crate) struct Entry<'a> {
    pub(crate) number: u64,
    pub(crate) named: bool,
    /// How many levels it stands below the record.
    pub(crate) depth: u64,
    pub(crate) times: Times,
    /// How often the entries occur that it stands in, and it itself, each by its depth.
    pub(crate) tables: [Times; DEPTHS],
    pub(crate) shape: Shape<'a>,
}

/// A record as it is drawn: where its items come from, the number of its last entry, and its entries in their order.
#[derive(Drop)]
pub(crate) struct Sketch<'a> {
    pub(crate) draw: Draw,
    pub(crate) tables: Tables<'a>,
    pub(crate) last: u64,
    pub(crate) entries: Vec<Entry<'a>>,
}

/// The innermost of tables that an entry stands in.
fn innermost(tables: [Times; DEPTHS]) -> Times {
    let mut found = Times::Once;
    for times in tables.iter() {
        if !matches!(times, Times::Once) {
            found = *times;
        }
    }
    found
}

/// The tables that entries stand in beneath one of this depth, which stands in others.
pub(crate) fn with_table(mut tables: [Times; DEPTHS], depth: u64, times: Times) -> [Times; DEPTHS] {
    if let Some(own) = tables.get_mut(depth as usize) {
        *own = times;
    }
    tables
}

impl<'a> Sketch<'a> {
    /// A record without entries yet.
    pub(crate) fn new(alloc: Global, draw: Draw, tables: Tables<'a>) -> Sketch<'a> {
        Sketch {
            draw,
            tables,
            last: 0,
            entries: Vec::new(alloc),
        }
    }

    /// The number of the next entry.
    fn number(&mut self) -> u64 {
        self.last = self.last.saturating_add(1);
        self.last
    }

    /// Draws how often an entry occurs, which stands in these tables: once, so many times, or as often as a count says. A table that
    /// varies and stands in none gets its count before it.
    fn times(&mut self, depth: u64, tables: [Times; DEPTHS]) -> Result<Times, AllocError> {
        match (self.draw.below(6), innermost(tables)) {
            (0, _) => Ok(Times::Fixed(1 + self.draw.below(3))),
            (1, Times::Once) => {
                let count = self.count(depth, tables)?;
                Ok(self.varying(count))
            }
            (1, Times::Varies(table)) => Ok(self.varying(table.count)),
            _ => Ok(Times::Once),
        }
    }

    /// Draws the bounds of a table with this count.
    fn varying(&mut self, count: u64) -> Times {
        let least = self.draw.below(2);
        let most = 3 + self.draw.below(2);
        Times::Varies(Varying { count, least, most })
    }

    /// Draws the item of a count, and answers its number.
    fn count(&mut self, depth: u64, tables: [Times; DEPTHS]) -> Result<u64, AllocError> {
        let number = self.number();
        let row = row_of(self.draw.part_of(self.tables.counts, '\n'));
        self.entries.push(Entry {
            number,
            named: true,
            depth,
            times: Times::Once,
            tables,
            shape: Shape::Count(row),
        })?;
        Ok(number)
    }

    /// Draws an entry that has no entries and no item yet.
    fn entry(&mut self, depth: u64, above: [Times; DEPTHS]) -> Result<Entry<'a>, AllocError> {
        let times = self.times(depth, above)?;
        let number = self.number();
        Ok(Entry {
            number,
            named: self.draw.below(8) != 0,
            depth,
            times,
            tables: with_table(above, depth, times),
            shape: Shape::Group,
        })
    }

    /// Draws what an item holds, and perhaps a redefinition of it.
    fn item(&mut self, mut entry: Entry<'a>) -> Result<(), AllocError> {
        let row = row_of(self.draw.part_of(self.tables.items, '\n'));
        entry.shape = Shape::Item(row);
        self.entries.push(entry)?;
        if entry.named && matches!(entry.times, Times::Once) && self.draw.below(4) == 0 {
            entry.shape = Shape::Redefinition(entry.number, row);
            entry.number = self.number();
            self.entries.push(entry)?;
        }
        Ok(())
    }

    /// Draws the entries of a group so deep below the record, which stand in these tables.
    pub(crate) fn beneath(
        &mut self,
        depth: u64,
        tables: [Times; DEPTHS],
    ) -> Result<(), AllocError> {
        let least = if depth == 1 { 3 } else { 1 };
        for _ in 0..least + self.draw.below(3) {
            let entry = self.entry(depth, tables)?;
            if depth < MOST_DEPTH && self.draw.below(3) == 0 {
                self.entries.push(entry)?;
                self.beneath(depth + 1, entry.tables)?;
            } else {
                self.item(entry)?;
            }
        }
        Ok(())
    }
}

/// The named entries of a record: those that are counts, or the others.
pub(crate) fn named<'a>(
    alloc: Global,
    entries: &[Entry<'a>],
    counts: bool,
) -> Result<Vec<Entry<'a>>, AllocError> {
    let mut found = Vec::new(alloc);
    for entry in entries {
        if entry.named && counts == matches!(entry.shape, Shape::Count(_)) {
            found.push(*entry)?;
        }
    }
    Ok(found)
}
