//! Which table a count counts.

ghost use Rattle.std.specs.Prelude.{◌≡◌};
ghost use Rattle.cob_layout.specs.Standing.{IsRoomFor};

use cob_layout::{Counts, Layout, Place, tables};
use std::alloc::{AllocError, Global};

/// A table that varies, the item that counts it, and how often it may occur.
#[derive(Clone, Copy, PartialEq, Eq)]
pub struct CountTable {
    /// The number of the table's entry.
    pub table: usize,
    /// The number of the entry of its count.
    pub count: usize,
    pub least: u32,
    pub most: u32,
}

/// Where an entry that is no table, and that none holds, stands in a storage.
fn place_in(layout: &Layout, number: usize, bytes: &[u8], counts: &mut Counts) -> Option<Place>
    requires { IsRoomFor layout.now counts.old }
    ensures { IsRoomFor layout.now counts.new }
{
    let reference = layout.reference(number, &[])?;
    let mut reads = 0;
    // What is kept may be of another storage.
    counts.forget();
    layout
        .find(&reference, false, bytes, counts, &mut reads)
        .ok()
}

/// The table whose count stands at this offset of a storage, and the first of several.
///
/// # Errors
///
/// Where no memory is left.
pub fn counted_at(
    alloc: Global,
    layout: &Layout,
    bytes: &[u8],
    offset: u32,
) -> Result<Option<CountTable>, AllocError> {
    let all = tables(alloc, layout.root())?;
    let mut counts = layout.new_counts(alloc)?;
    for table in all.iter() {
        match place_in(layout, table.count, bytes, &mut counts) {
            Some(place) if place.offset == offset => {
                return Ok(Some(CountTable {
                    table: table.number,
                    count: table.count,
                    least: table.least,
                    most: table.most,
                }));
            }
            _ => {}
        }
    }
    Ok(None)
}
