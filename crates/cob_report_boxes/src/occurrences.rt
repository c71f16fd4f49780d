//! The occurrences of an item in a record that is given.

use arrayvec::ArrayVec;
use cob_layout::Spot;
use cob_limits::MAX_SUBSCRIPTS;
use std::fmt;

/// The numbers of the tables that hold an item or that it is, the outermost first.
pub type EntryTables = ArrayVec<usize, MAX_SUBSCRIPTS>;

/// How many occurrences there are in these tables.
pub fn occurrences_in(spots: &[Spot], tables: &[usize]) -> u32 {
    let mut count: u32 = 1;
    for table in tables {
        count = count.saturating_mul(Spot::of(spots, *table).times);
    }
    count
}

/// An occurrence of an item: its subscripts, and how many bytes it stands behind the first one.
#[derive(Drop)]
pub struct ItemOccurrence {
    pub subscripts: ArrayVec<u32, MAX_SUBSCRIPTS>,
    pub behind: u32,
}

/// The occurrence in these tables with so many before it, the last subscript the fastest.
pub fn occurrence_at(spots: &[Spot], tables: &[usize], earlier: u32) -> ItemOccurrence {
    let mut occurrence = ItemOccurrence {
        subscripts: ArrayVec::new(),
        behind: 0,
    };
    let mut left = earlier;
    for table in tables.iter().rev() {
        let table = Spot::of(spots, *table);
        let times = table.times.max(1);
        let within = left % times;
        left /= times;
        let bytes = within.saturating_mul(table.length);
        occurrence.behind = occurrence.behind.saturating_add(bytes);
        let _ = occurrence.subscripts.try_push(within.saturating_add(1));
    }
    occurrence
}

impl fmt::Display for ItemOccurrence {
    fn fmt<W: fmt::Write>(&self, f: &mut fmt::Formatter<W>) -> fmt::Result {
        let mut some = false;
        for subscript in self.subscripts.as_slice().iter().rev() {
            if some {
                write!(f, ", {subscript}")?;
            } else {
                write!(f, "({subscript}")?;
            }
            some = true;
        }
        if self.subscripts.is_empty() {
            return Ok(());
        }
        write!(f, ") ")
    }
}
