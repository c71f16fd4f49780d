//! Counts of a storage, some of which are kept.

ghost use Rattle.std.specs.Prelude.{◌≡◌, ◌&&◌, ◌+◌, ◌<◌, ◌≤◌, nat_lt, ℕ, length, min, slice_index, Ok, Err};
ghost use Rattle.cob_copybook_tree.specs.Forests.{entries_in};
ghost use Rattle.cob_layout_places.specs.Counts.{tables_of};
ghost use Rattle.cob_layout_places.specs.Needs.{is_needed};
ghost use Rattle.cob_layout.specs.Counting.{greatest_counts};
ghost use Rattle.cob_layout.specs.Kept.{IsIn, IsReadOne, TakesAnew, is_asked_by, kept_read, most_reads, kept_number, outcome_of, stored_at};
ghost use Rattle.cob_layout.specs.Standing.{first_number, meets, meets_kept, LieWithin};

use crate::counts::{KeptRange, NO_RANGE, StoredCount, count_at};
use crate::fields::Place;
use crate::layout::Layout;
use crate::spots::spot_at;
use cob_layout_places::{CountFault, Spot, Table, is_needed};

/// Which counts are needed: those of tables below a number, for the last entry of a record that receives or not.
#[derive(Clone, Copy)]
pub(crate) struct Needed {
    pub(crate) behind: usize,
    pub(crate) last: bool,
    pub(crate) number: usize,
}

/// The number of a count, where it is kept.
fn number_of(kept: Option<StoredCount>) -> Option<u32>
    ensures { result ≡ kept_number kept }
{
    match kept {
        Some(stored) => Some(stored.number),
        None => None,
    }
}

impl Layout {
    /// The count of a table: the one that is kept, or else what the bytes say, which is one read more.
    #[inline(always)]
    fn count_anew(
        &self,
        table: Table,
        kept: Option<u32>,
        bytes: &[u8],
        counts: &[u32],
        sums: &mut [u32],
        reads: &mut u64,
    ) -> Result<u32, CountFault>
        requires table { IsIn table (tables_of self.now) }
        requires sums { length sums.old ≡ entries_in self.now + 1 }
        requires early { (k : ℕ) → k < first_number (tables_of self.now)
            → slice_index counts.now k ≡ slice_index (greatest_counts self.now) k }
        ensures read { (n : ℕ) × IsReadOne self.now bytes.now table kept counts.now result n
            × (reads.new ≡ min (reads.old + n) most_reads) }
    {
        // For `read`: how many reads there were is a count of 64 bits.
        let _before = *reads;
        match kept {
            Some(count) => Ok(count),
            None => {
                *reads = reads.saturating_add(1);
                self.count_in(table, bytes, counts, sums)
            }
        }
    }

    /// Takes those counts of a storage that are needed, each into its table's place, and reads only those that are not kept.
    ///
    /// # Errors
    ///
    /// The first count that is read and that gives no number from its table's least to its greatest one, or that ends past the bytes.
    #[inline(always)]
    pub(crate) fn take_anew(
        &self,
        needed: Needed,
        bytes: &[u8],
        kept: &[Option<StoredCount>],
        counts: &mut [u32],
        sums: &mut [u32],
        reads: &mut u64,
    ) -> Result<(), CountFault>
        requires counts { counts.old ≡ greatest_counts self.now }
        requires as_many { length kept.now ≡ length (tables_of self.now) }
        requires sums { length sums.old ≡ entries_in self.now + 1 }
        ensures taken { TakesAnew self.now (is_asked_by needed) bytes.now kept.now
            (outcome_of result counts.new) reads.old reads.new }
        ensures room { length counts.new ≡ length counts.old }
    {
        // For `taken`: how many reads there were is a count of 64 bits.
        let _before = *reads;
        let tables = self.tables.as_slice();
        for (index, table) in tables.iter().enumerate() {
            if is_needed(needed.behind, needed.last, needed.number, *table) {
                let known = number_of(kept[index]);
                let count = self.count_anew(*table, known, bytes, counts, sums, reads)?;
                counts[table.number] = count;
            }
        }
        Ok(())
    }
}

/// The count of a table, where the counts are these and the entries stand at these spots.
fn stored_at(counts: &[u32], spots: &[Spot], table: Table) -> StoredCount
    ensures { result ≡ stored_at counts.now spots.now table }
{
    let item = spot_at(spots, table.count);
    StoredCount {
        number: count_at(counts, table.number),
        place: Place {
            offset: item.offset,
            length: item.length,
        },
    }
}

/// Keeps the counts of those tables that are needed, where the counts are these and the entries stand at these spots.
pub(crate) fn keep_read(
    tables: &[Table],
    needed: Needed,
    counts: &[u32],
    spots: &[Spot],
    kept: &mut [Option<StoredCount>],
)
    requires as_many { length kept.old ≡ length tables.now }
    ensures { kept.new ≡ kept_read (is_needed needed.behind needed.last needed.number) counts.now
        spots.now tables.now kept.old }
{
    for (index, table) in tables.iter().enumerate() {
        if is_needed(needed.behind, needed.last, needed.number, *table) {
            kept[index] = Some(stored_at(counts, spots, *table));
        }
    }
}

/// Whether the first place has a byte that is one of the second's.
fn meets(place: Place, other: Place) -> bool
    ensures { result ≡ meets place other }
{
    let place_end = u64::from(place.offset) + u64::from(place.length);
    let other_end = u64::from(other.offset) + u64::from(other.length);
    place.length > 0 && u64::from(place.offset) < other_end && u64::from(other.offset) < place_end
}

/// Whether a place meets the item of one of the counts that are kept, looked at one after another.
#[inline(never)]
fn meets_one_of(kept: &[Option<StoredCount>], place: Place) -> bool
    ensures { result ≡ meets_kept place kept.now }
{
    for one in kept {
        if let Some(stored) = one {
            if meets(place, stored.place) {
                return true;
            }
        }
    }
    false
}

/// Whether a place has a byte in a range, or would if it had one.
#[inline(always)]
fn meets_range(range: KeptRange, place: Place) -> bool
    ensures { result
        ≡ (nat_lt place.offset range.end && nat_lt range.from (place.offset + place.length)) }
{
    let place_end = u64::from(place.offset) + u64::from(place.length);
    u64::from(place.offset) < range.end && range.from < place_end
}

/// Whether a place meets the item of one of the counts that are kept, which lie within this range. It is inlined, so that a place outside it costs no
/// call.
#[inline(always)]
pub(crate) fn meets_kept(kept: &[Option<StoredCount>], range: KeptRange, place: Place) -> bool
    requires within { LieWithin range kept.now }
    ensures { result ≡ meets_kept place kept.now }
{
    if !meets_range(range, place) {
        return false;
    }
    meets_one_of(kept, place)
}

/// A range that holds another one and a place.
fn range_with(range: KeptRange, place: Place) -> KeptRange
    ensures from { (result.from ≤ range.from) × (result.from ≤ place.offset) }
    ensures end { (range.end ≤ result.end) × (place.offset + place.length ≤ result.end) }
{
    let place_end = u64::from(place.offset) + u64::from(place.length);
    KeptRange {
        from: range.from.min(u64::from(place.offset)),
        end: range.end.max(place_end),
    }
}

/// The range of the counts that are kept.
#[inline(never)]
pub(crate) fn range_of(kept: &[Option<StoredCount>]) -> KeptRange
    ensures { LieWithin result kept.now }
{
    let mut range = NO_RANGE;
    for one in kept {
        if let Some(stored) = one {
            range = range_with(range, stored.place);
        }
    }
    range
}
