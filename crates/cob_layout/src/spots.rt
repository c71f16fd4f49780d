//! The spots of a record's entries, and elements that subscripts move from them.

ghost use Rattle.std.specs.Prelude.{◌≡◌, ◌+◌, ◌-◌, ◌*◌, ◌≤◌, length, drop, IfOk};
ghost use Rattle.cob_copybook_tree.specs.Forests.{entries_in};
ghost use Rattle.cob_copybook_tree.specs.Nodes.{tree_of};
ghost use Rattle.cob_limits.specs.Limits.{longest_record};
ghost use Rattle.cob_layout_places.specs.Lengths.{times, FitsInRecord};
ghost use Rattle.cob_layout_places.specs.Spots.{spots_of};
ghost use Rattle.cob_layout.specs.Ways.{first_element, moved, moved_once, spot_at};

use cob_copybook::Node;
use cob_layout_places::{Found, Spot, put_spots};
use std::alloc::{AllocError, Global};

/// The spot of an entry that there isn't.
pub(crate) const NOWHERE: Spot = Spot {
    offset: 0,
    length: 0,
    times: 0,
};

/// The spot of an entry.
pub(crate) fn spot_at(spots: &[Spot], number: usize) -> Spot
    ensures { result ≡ spot_at spots.now number }
{
    match spots.get(number) {
        Some(spot) => *spot,
        None => NOWHERE,
    }
}

/// Writes the spots of a record under these counts.
pub(crate) fn put_all_spots(root: &Node, counts: &[u32], spots: &mut [Spot])
    requires fit { FitsInRecord 0 (tree_of root.now) }
    requires room { length spots.old ≡ entries_in (tree_of root.now) }
    ensures { spots.new ≡ spots_of (times counts.now) (tree_of root.now) 0 0 }
{
    put_spots(root, counts, 0, spots);
}

/// The spots of a record under these counts, by the numbers of the entries; `entries` is how many these are.
///
/// # Errors
///
/// Where no memory is left.
pub(crate) fn new_spots(
    alloc: Global,
    root: &Node,
    counts: &[u32],
    entries: usize,
) -> Result<Vec<Spot>, AllocError>
    requires fit { FitsInRecord 0 (tree_of root.now) }
    requires room { entries ≡ entries_in (tree_of root.now) }
    ensures { IfOk result
        (λ spots. spots.items ≡ spots_of (times counts.now) (tree_of root.now) 0 0) }
{
    let mut spots = vec![in alloc; NOWHERE; entries]?;
    put_all_spots(root, counts, &mut spots);
    Ok(spots)
}

/// These spots once more.
///
/// # Errors
///
/// Where no memory is left.
pub(crate) fn copied_spots(alloc: Global, spots: &[Spot]) -> Result<Vec<Spot>, AllocError>
    ensures { IfOk result (λ same. same.items ≡ spots.now) }
{
    let mut same = Vec::new(alloc);
    same.extend_from_slice(spots)?;
    Ok(same)
}

/// An element of an entry, moved by one subscript of a table that holds the entry or that it is.
pub(crate) fn moved_by(found: Found, table: Spot, subscript: u32) -> Found
    requires room { found.offset + (subscript - 1) * table.length ≤ longest_record }
    ensures { result ≡ moved_once found table subscript }
{
    Found {
        offset: found.offset + subscript.saturating_sub(1) * table.length,
        length: found.length,
        within: found.within && subscript <= table.times,
    }
}

/// An element of an entry: the first one, moved by the subscripts of these tables, which hold the entry or are it, the outermost first.
pub(crate) fn element_at(
    spots: &[Spot],
    number: usize,
    tables: &[usize],
    subscripts: &[u32],
) -> Found
    requires room { (moved spots.now tables.now subscripts.now
        (first_element spots.now number)).offset
        ≤ longest_record }
    ensures { result ≡ moved spots.now tables.now subscripts.now (first_element spots.now number) }
{
    let first = spot_at(spots, number);
    let mut found = Found {
        offset: first.offset,
        length: first.length,
        within: true,
    };
    let mut rest = subscripts;
    for table in tables {
        let Some((subscript, later)) = rest.split_first() else {
            return found;
        };
        found = moved_by(found, spot_at(spots, *table), *subscript);
        rest = later;
    }
    found
}
