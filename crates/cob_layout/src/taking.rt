//! The counts of a record, taken where they stand.

ghost use Rattle.std.specs.Prelude.{◌≡◌, ◌+◌, ◌<◌, ℕ, List, [], length, slice_index, Ok, Err, Some, OnErr, OnOk, IfOk, IfErr};
ghost use Rattle.cob_copybook_tree.specs.Forests.{entries_in};
ghost use Rattle.cob_layout_places.specs.Counts.{tables_of, IsCounted};
ghost use Rattle.cob_layout_places.specs.Lengths.{times};
ghost use Rattle.cob_layout_places.specs.Places.{place_of};
ghost use Rattle.cob_layout_places.specs.Spots.{spots_of};
ghost use Rattle.cob_layout.specs.Counting.{greatest_counts, CountsOf};
ghost use Rattle.cob_layout.specs.Kept.{IsIn};
ghost use Rattle.cob_layout.specs.Standing.{first_number};

use crate::by_sums::spot_by;
use crate::kinds::kind_at;
use crate::layout::Layout;
use crate::spots::spot_at;
use cob_copybook::Kind;
use cob_layout_places::{CountFault, Found, Spot, Table, count_at, one_place};

/// The fault of a count that is no item: no record has one.
const NOWHERE: CountFault = CountFault {
    offset: 0,
    short: false,
};

/// The number of the first of the tables.
fn first_number(tables: &[Table]) -> usize
    ensures { result ≡ first_number tables.now }
{
    match tables.first() {
        Some(table) => table.number,
        None => 0,
    }
}

impl Layout {
    /// Where the item of a table's count stands under the counts so far. One before the first table that varies stands where it does under the
    /// greatest counts, which these are up to there.
    #[inline(always)]
    fn place_of_count(&self, table: Table, counts: &[u32], sums: &mut [u32]) -> Found
        requires table { IsIn table (tables_of self.now) }
        requires sums { length sums.old ≡ entries_in self.now + 1 }
        requires early { (k : ℕ) → k < first_number (tables_of self.now)
            → slice_index counts.now k ≡ slice_index (greatest_counts self.now) k }
        ensures { place_of (times counts.now) table.count self.now 0 0 [] ≡ Some result }
    {
        // For a count before the first table: counts that agree on what its item needs give it one place.
        one_place();
        if table.count < first_number(&self.tables) {
            let spot = spot_at(self.counts.spots(), table.count);
            return Found {
                offset: spot.offset,
                length: spot.length,
                within: true,
            };
        }
        self.put_sums(counts, sums);
        let sums = self.own_sums(sums);
        let spot = spot_by(&self.shifts, &self.least, sums, counts, table.count);
        Found {
            offset: spot.offset,
            length: spot.length,
            within: true,
        }
    }

    /// What the bytes say of a table whose count's item stands there under some counts.
    ///
    /// # Errors
    ///
    /// The count gives no number from its table's least to its greatest one, or ends past the bytes.
    #[inline(always)]
    pub(crate) fn count_found(
        &self,
        table: Table,
        found: Found,
        bytes: &[u8],
    ) -> Result<u32, CountFault>
        requires table { IsIn table (tables_of self.now) }
        requires stands { (c : List ℕ)
            × (place_of (times c) table.count self.now 0 0 [] ≡ Some found) }
        ensures ok { IfOk result (λ v. (c : List ℕ)
            → place_of (times c) table.count self.now 0 0 [] ≡ Some found
            → IsCounted self.now bytes.now table c (Ok v)) }
        ensures err { IfErr result (λ e. (c : List ℕ)
            → place_of (times c) table.count self.now 0 0 [] ≡ Some found
            → IsCounted self.now bytes.now table c (Err e)) }
    {
        match kind_at(&self.kinds, table.count) {
            Kind::Item(item) => count_at(item, table, found, bytes),
            Kind::Group => Err(NOWHERE),
        }
    }

    /// What the bytes say of a table under the counts so far, which up to the first table that varies are the greatest ones.
    ///
    /// # Errors
    ///
    /// The count gives no number from its table's least to its greatest one, or ends past the bytes.
    #[inline(always)]
    pub(crate) fn count_in(
        &self,
        table: Table,
        bytes: &[u8],
        counts: &[u32],
        sums: &mut [u32],
    ) -> Result<u32, CountFault>
        requires table { IsIn table (tables_of self.now) }
        requires sums { length sums.old ≡ entries_in self.now + 1 }
        requires early { (k : ℕ) → k < first_number (tables_of self.now)
            → slice_index counts.now k ≡ slice_index (greatest_counts self.now) k }
        ensures ok { IfOk result (λ v. IsCounted self.now bytes.now table counts.now (Ok v)) }
        ensures err { IfErr result (λ e. IsCounted self.now bytes.now table counts.now (Err e)) }
    {
        let found = self.place_of_count(table, counts, sums);
        match self.count_found(table, found, bytes) {
            Ok(count) => Ok(count),
            Err(fault) => Err(fault),
        }
    }

    /// Takes the counts of all tables of a record, each into its table's place.
    ///
    /// # Errors
    ///
    /// The first count that gives no number within its table's bounds, or that ends past the bytes.
    pub(crate) fn take_all_counts(
        &self,
        bytes: &[u8],
        counts: &mut [u32],
        sums: &mut [u32],
    ) -> Result<(), CountFault>
        requires counts { counts.old ≡ greatest_counts self.now }
        requires sums { length sums.old ≡ entries_in self.now + 1 }
        ensures ok { OnOk result (CountsOf self.now bytes.now (Ok counts.new)) }
        ensures err { IfErr result (λ e. CountsOf self.now bytes.now (Err e)) }
        ensures room { length counts.new ≡ length counts.old }
    {
        let tables = self.tables.as_slice();
        for table in tables {
            counts[table.number] = self.count_in(*table, bytes, counts, sums)?;
        }
        Ok(())
    }

    /// Takes the counts of all tables of a record, and where its entries stand under them; the next counts and the sums are room that it needs.
    ///
    /// # Errors
    ///
    /// The first count that gives no number within its table's bounds, or that ends past the bytes. The counts and the spots are as they were then.
    pub(crate) fn counts_in(
        &self,
        bytes: &[u8],
        next: &mut [u32],
        sums: &mut [u32],
        taken: &mut [u32],
        spots: &mut [Spot],
    ) -> Result<(), CountFault>
        requires next { length next.old ≡ entries_in self.now }
        requires sums { length sums.old ≡ entries_in self.now + 1 }
        requires counts { length taken.old ≡ entries_in self.now }
        requires room { length spots.old ≡ entries_in self.now }
        ensures ok { OnOk result (CountsOf self.now bytes.now (Ok taken.new)) }
        ensures err { IfErr result (λ e. CountsOf self.now bytes.now (Err e)) }
        ensures same_counts { OnErr result (taken.new ≡ taken.old) }
        ensures same_spots { OnErr result (spots.new ≡ spots.old) }
        ensures stands { OnOk result (spots.new ≡ spots_of (times taken.new) self.now 0 0) }
    {
        if self.tables.is_empty() {
            self.counts.copy_to(taken, spots);
            return Ok(());
        }
        next.copy_from_slice(self.counts.as_slice());
        self.take_all_counts(bytes, next, sums)?;
        self.stand_under(next, taken, sums, spots);
        Ok(())
    }
}
