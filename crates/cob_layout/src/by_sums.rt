//! Where single entries stand by sums, without the spots of all the others.
//!
//! The spot of an entry is its least one, shifted by the sums of src/shifts.rt. So a reference is found by its own spot and those of the tables that hold
//! it, in a time that grows with the tables that vary and not with the entries.

ghost use Rattle.std.specs.Prelude.{◌≡◌, ◌+◌, ◌≤◌, ℕ, length, slice_index};
ghost use Rattle.cob_limits.specs.Limits.{longest_record};
ghost use Rattle.cob_layout.specs.Kept.{is_asked_by, kept_read, stored_at};
ghost use Rattle.cob_layout.specs.Footings.{first_by};
ghost use Rattle.cob_layout.specs.Shifts.{all_shifted, CanShift, FitsSums};
ghost use Rattle.cob_layout.specs.Ways.{moved, spot_at};

use crate::counts::{StoredCount, count_at};
use crate::fields::Place;
use crate::footings::Footing;
use crate::keeping::Needed;
use crate::shifts::{Shift, shifted};
use crate::spots::{NOWHERE, moved_by, spot_at};
use cob_layout_places::{Found, Spot, Table, is_needed};

/// The spot of an entry under these counts, whose sums these are.
#[inline(always)]
pub(crate) fn spot_by(
    shifts: &[Shift],
    least: &[Spot],
    sums: &[u32],
    counts: &[u32],
    number: usize,
) -> Spot
    requires by { CanShift sums.now shifts.now least.now }
    ensures { result ≡ spot_at (all_shifted sums.now counts.now 0 shifts.now least.now) number }
{
    if number >= shifts.len() {
        return NOWHERE;
    }
    let count = count_at(counts, number);
    shifted(shifts[number], least[number], sums, count)
}

/// The first element of an entry under counts whose sums these are, from what its place rests on.
#[inline(always)]
pub(crate) fn first_by(footing: Footing, sums: &[u32]) -> Found
    requires within { FitsSums sums.now footing.shift }
    requires small { footing.least.offset + footing.least.length ≤ longest_record }
    requires low { (k : ℕ) → slice_index sums.now k ≤ longest_record }
    ensures { result ≡ first_by sums.now footing }
{
    let spot = shifted(footing.shift, footing.least, sums, 0);
    Found {
        offset: spot.offset,
        length: spot.length,
        within: true,
    }
}

/// An element of an entry under these counts, whose sums these are: the first one, moved by the subscripts of these tables, which hold the entry or are
/// it, the outermost first.
#[inline(always)]
pub(crate) fn element_by(
    shifts: &[Shift],
    least: &[Spot],
    sums: &[u32],
    counts: &[u32],
    first: Found,
    tables: &[usize],
    subscripts: &[u32],
) -> Found
    requires by { CanShift sums.now shifts.now least.now }
    requires room { (moved (all_shifted sums.now counts.now 0 shifts.now least.now) tables.now
        subscripts.now first).offset
        ≤ longest_record }
    ensures { result ≡ moved (all_shifted sums.now counts.now 0 shifts.now least.now) tables.now
        subscripts.now first }
{
    let mut found = first;
    let mut rest = subscripts;
    for table in tables {
        let Some((subscript, later)) = rest.split_first() else {
            return found;
        };
        let spot = spot_by(shifts, least, sums, counts, *table);
        found = moved_by(found, spot, *subscript);
        rest = later;
    }
    found
}

/// The count of a table, where the counts are these and the sums theirs.
fn stored_by(
    shifts: &[Shift],
    least: &[Spot],
    sums: &[u32],
    counts: &[u32],
    table: Table,
) -> StoredCount
    requires by { CanShift sums.now shifts.now least.now }
    ensures { result ≡ stored_at counts.now
        (all_shifted sums.now counts.now 0 shifts.now least.now) table }
{
    let item = spot_by(shifts, least, sums, counts, table.count);
    StoredCount {
        number: count_at(counts, table.number),
        place: Place {
            offset: item.offset,
            length: item.length,
        },
    }
}

/// Keeps the counts of those tables that are needed, where the counts are these and the sums theirs.
pub(crate) fn keep_by(
    tables: &[Table],
    needed: Needed,
    shifts: &[Shift],
    least: &[Spot],
    sums: &[u32],
    counts: &[u32],
    kept: &mut [Option<StoredCount>],
)
    requires by { CanShift sums.now shifts.now least.now }
    requires as_many { length kept.old ≡ length tables.now }
    ensures { kept.new ≡ kept_read (is_asked_by needed) counts.now
        (all_shifted sums.now counts.now 0 shifts.now least.now) tables.now kept.old }
{
    for (index, table) in tables.iter().enumerate() {
        if is_needed(needed.behind, needed.last, needed.number, *table) {
            kept[index] = Some(stored_by(shifts, least, sums, counts, *table));
        }
    }
}
