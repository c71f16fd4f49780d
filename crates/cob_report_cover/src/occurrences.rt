//! The occurrences of items.

use arrayvec::ArrayVec;
use cob_back_losses::place_of;
use cob_copybook_tree::Node;
use cob_layout::{Layout, Place, is_table};
use cob_layout_steady::is_steady;
use cob_limits::MAX_RECORD;
use cob_report_words::{NamedOccurrence, Subscripts, advance, first_subscripts, tables_over};
use std::alloc::{AllocError, Global};

/// An occurrence of an item: its subscripts, and where it stands.
#[derive(Drop)]
pub(crate) struct PlacedOccurrence {
    number: usize,
    subscripts: Subscripts,
    pub(crate) place: Place,
}

impl PlacedOccurrence {
    /// The occurrence by its name.
    pub(crate) fn named<'a>(&self, layout: &'a Layout) -> NamedOccurrence<'a> {
        NamedOccurrence::new(layout.root(), self.number, self.subscripts.as_slice())
    }

    /// Whether it begins at the same byte of each record.
    pub(crate) fn is_steady(&self, layout: &Layout) -> bool {
        // Where no table varies, all occurrences do.
        if !layout.varies() {
            return true;
        }
        match layout.reference(self.number, self.subscripts.as_slice()) {
            Some(reference) => is_steady(layout, &reference),
            None => true,
        }
    }
}

/// The occurrence of an item of a record under these subscripts, where it stands in the record.
fn found_occurrence(
    layout: &Layout,
    number: usize,
    subscripts: &[u32],
) -> Option<PlacedOccurrence> {
    let place = place_of(layout, number, subscripts)?;
    let mut own = ArrayVec::new();
    own.try_extend_from_slice(subscripts).ok()?;
    Some(PlacedOccurrence {
        number,
        subscripts: own,
        place,
    })
}

/// The occurrences of an item of a record, in their order.
///
/// # Errors
///
/// Where no memory is left.
pub(crate) fn occurrences_of(
    alloc: Global,
    layout: &Layout,
    item: &Node,
) -> Result<Vec<PlacedOccurrence>, AllocError> {
    let mut occurrences = Vec::new(alloc);
    let tables: Subscripts = tables_over(layout.root(), item.number);
    let mut subscripts = first_subscripts(tables.as_slice());
    for _ in 0..MAX_RECORD {
        if let Some(found) = found_occurrence(layout, item.number, subscripts.as_slice()) {
            occurrences.push(found)?;
        }
        if !advance(subscripts.as_mut_slice(), tables.as_slice()) {
            break;
        }
    }
    Ok(occurrences)
}

/// The place of the first element of an entry.
fn first_place(layout: &Layout, number: usize) -> Place {
    match layout.greatest_spots().get(number) {
        Some(spot) => Place {
            offset: spot.offset,
            length: spot.length,
        },
        None => Place {
            offset: 0,
            length: 0,
        },
    }
}

/// The element of a table that has a byte, counted from 0, where the first one stands there; the last one, where the byte is behind all of them.
fn element_with(first: Place, most: u32, byte: u32) -> u32 {
    let into = byte.saturating_sub(first.offset);
    let element = into.checked_div(first.length).unwrap_or(0);
    element.min(most.saturating_sub(1))
}

/// Adds the subscripts of the occurrence of the entry with this number that has a byte, of this entry or one beneath it. Elements of the tables that hold
/// this entry put it so many bytes further behind; the answer is how many further the occurrence is.
fn push_subscripts(
    layout: &Layout,
    entry: &Node,
    number: usize,
    byte: u32,
    further: u32,
    subscripts: &mut Subscripts,
) -> u32 {
    let mut further = further;
    if is_table(entry.occurs) {
        let first = first_place(layout, entry.number);
        let element = element_with(first, entry.occurs.most(), byte.saturating_sub(further));
        let _ = subscripts.try_push(element.saturating_add(1));
        further = further.saturating_add(element.saturating_mul(first.length));
    }
    if entry.number == number {
        return further;
    }
    for child in entry.children.iter().rev() {
        // Entries are numbered from the first on, a group before those beneath it.
        if child.number <= number {
            return push_subscripts(layout, child, number, byte, further, subscripts);
        }
    }
    further
}

/// The occurrence of an item of a record that has a byte.
pub(crate) fn occurrence_with(layout: &Layout, number: usize, byte: u32) -> PlacedOccurrence {
    let mut subscripts = ArrayVec::new();
    let further = push_subscripts(layout, layout.root(), number, byte, 0, &mut subscripts);
    let first = first_place(layout, number);
    PlacedOccurrence {
        number,
        subscripts,
        place: Place {
            offset: first.offset.saturating_add(further),
            length: first.length,
        },
    }
}
