//! Which entry stands at a byte of a record.

use cob_copybook_tree::{Name, Node};
use cob_layout::{Layout, Spot};

/// A byte of a record as one of an element that is the first of its tables; none where an entry, with all its elements, has not this byte.
fn byte_within(spot: Spot, byte: u32) -> Option<u32> {
    let into = byte.checked_sub(spot.offset)?;
    let element = into.checked_div(spot.length)?;
    if element < spot.times {
        Some(spot.offset.saturating_add(into % spot.length))
    } else {
        None
    }
}

/// The characters of a name, or none.
fn name_text(name: &Option<Name>) -> &[u8] {
    match name {
        Some(name) => name.as_bytes(),
        None => b"",
    }
}

/// The name of the first entry beneath this one, deepest first, that has a byte and a name; else its own.
fn name_at<'a>(layout: &Layout, entry: &'a Node, byte: u32) -> &'a [u8] {
    let spot = Spot::of(layout.greatest_spots(), entry.number);
    let Some(first) = byte_within(spot, byte) else {
        return b"";
    };
    for child in entry.children.iter() {
        let name = name_at(layout, child, first);
        if !name.is_empty() {
            return name;
        }
    }
    name_text(&entry.name)
}

/// The name of the entry that stands deepest at a byte of a record, of several the first in the copybook: none where no entry there has a name, nor where a
/// table of the record varies, so that it may be another one's byte.
pub fn item_at(layout: &Layout, offset: u32) -> &[u8] {
    if layout.varies() {
        b""
    } else {
        name_at(layout, layout.root(), offset)
    }
}
