//! Where references stand by the counts of a storage that are kept.
//!
//! Counts that agree on what a reference needs give it one place. So a reference may be placed under all counts of a storage that are kept, whichever of
//! them it needs, and only a count that isn't kept is read. Whether the counts of before serve it is known up to a number, and past it seen from the counts
//! themselves.

ghost use Rattle.std.specs.Prelude.{◌≡◌, ◌+◌, ◌<◌, ◌≤◌, true, false, ℕ, List, Result, length, min, slice_index, Ok, Err, IfOk};
ghost use Rattle.cob_copybook_tree.specs.Lengths.{greatest_number, sum_of};
ghost use Rattle.cob_layout_places.specs.declared.counts.CountFault.{CountFault};
ghost use Rattle.cob_layout_places.specs.Counts.{tables_of};
ghost use Rattle.cob_layout_places.specs.Lengths.{times};
ghost use Rattle.cob_layout_places.specs.Needs.{is_read};
ghost use Rattle.cob_layout_places.specs.References.{Refers};
ghost use Rattle.cob_layout.specs.Counting.{greatest_counts, NeededOf};
ghost use Rattle.cob_layout.specs.Finding.{EndsInLength, IsFound, KeepsNeeded, OnCountFault, OnCounts, are_met, is_met};
ghost use Rattle.cob_layout.specs.Kept.{ReadsAnew, TakenAnew, kept_after, most_reads, kept_numbers};
ghost use Rattle.cob_layout.specs.Standing.{IsRoomFor, KeepsOf};

use crate::counts::{Counts, StoredCount, count_at};
use crate::fields::Place;
use crate::keeping::Needed;
use crate::laws::places_end_in_length;
use crate::layout::{Layout, PlaceFault, placed};
use cob_layout_places::{CountFault, Ref, Table, is_needed};

/// Why a reference stands nowhere in a storage.
#[derive(Clone, Copy, PartialEq, Eq)]
pub enum FindFault {
    /// A count that it needs gives no number from its table's least to its greatest one, or ends past the bytes.
    Count(CountFault),
    /// A subscript is past its table's count.
    Subscript(PlaceFault),
}

/// Whether this count is what a reference asks of a table: the one that is kept, where it reads the table's count; the greatest one, where it is spared
/// it; and any for a table from its reach on.
fn is_met(table: Table, needed: Needed, kept: Option<StoredCount>, count: u32) -> bool
    ensures { result ≡ is_met needed.behind needed.last needed.number table kept count }
{
    if needed.behind <= table.number {
        return true;
    }
    if !is_needed(needed.behind, needed.last, needed.number, table) {
        return count == table.most;
    }
    match kept {
        Some(stored) => stored.number == count,
        None => false,
    }
}

/// Whether these counts are what a reference asks of all tables.
#[inline(never)]
pub(crate) fn are_met(
    tables: &[Table],
    needed: Needed,
    kept: &[Option<StoredCount>],
    counts: &[u32],
) -> bool
    requires as_many { length kept.now ≡ length tables.now }
    ensures { result
        ≡ are_met needed.behind needed.last needed.number counts.now tables.now kept.now }
{
    for (index, table) in tables.iter().enumerate() {
        let count = count_at(counts, table.number);
        if !is_met(*table, needed, kept[index], count) {
            return false;
        }
    }
    true
}

/// How far counts reach that reached so far before a table of which so much is kept: no further than its number where this count isn't the one that is
/// kept.
fn reach_past(table: Table, kept: Option<StoredCount>, count: u32, reach: usize) -> usize
    ensures { (behind : ℕ) → behind ≤ result
        → (behind ≤ reach) × (is_met behind false 0 table kept count ≡ true) }
{
    match kept {
        Some(stored) if stored.number == count => reach,
        _ => reach.min(table.number),
    }
}

/// How far counts reach: up to the first table whose count isn't kept as it stands in them, and past all where there is none.
#[inline(always)]
pub(crate) fn reach_of(tables: &[Table], kept: &[Option<StoredCount>], counts: &[u32]) -> usize
    requires as_many { length kept.now ≡ length tables.now }
    ensures { are_met result false 0 counts.now tables.now kept.now ≡ true }
{
    let mut reach = usize::MAX;
    for (index, table) in tables.iter().enumerate() {
        let count = count_at(counts, table.number);
        reach = reach_past(*table, kept[index], count, reach);
    }
    reach
}

impl Layout {
    /// Where a reference stands, as [`Layout::find`] says it, wherever the counts that it needs may be past the reach.
    ///
    /// # Errors
    ///
    /// Those of [`Layout::find`].
    #[inline(never)]
    fn find_past(
        &self,
        reference: &Ref,
        receiving: bool,
        bytes: &[u8],
        counts: &mut Counts,
        reads: &mut u64,
    ) -> Result<Place, FindFault>
        requires refers { Refers reference.now.node reference.now.subscripts.items self.now }
        requires room { IsRoomFor self.now counts.old }
        requires kept { KeepsOf self.now bytes.now counts.old }
        ensures found { IsFound self.now reference.now receiving bytes.now result }
        ensures current { IfOk result (EndsInLength self.now reference.now receiving bytes.now) }
        ensures fits { IfOk result (λ p. p.offset + p.length ≤ sum_of greatest_number self.now) }
        ensures same { OnCountFault result (counts.new ≡ counts.old) }
        ensures keeps { KeepsOf self.now bytes.now counts.new }
        ensures kept { OnCounts result (KeepsNeeded self.now reference.now receiving bytes.now
            counts.old.kept counts.new.kept) }
        ensures reads { ReadsAnew self.now reference.now receiving bytes.now counts.old.kept
            reads.old reads.new }
        ensures room { IsRoomFor self.now counts.new }
    {
        // For `current`: an element that is there ends within the record's length,
        places_end_in_length();
        // and the layout is that of a record description.
        let _ = self.greatest();
        let found = match self.found_past(reference, receiving, bytes, counts, reads) {
            Ok(found) => found,
            Err(fault) => return Err(FindFault::Count(fault)),
        };
        match placed(found) {
            Ok(place) => Ok(place),
            Err(fault) => Err(FindFault::Subscript(fault)),
        }
    }

    /// Where a reference stands, as [`Layout::find`] says it, whichever counts it needs: at once, where these are kept and within reach. Neither it nor what
    /// finds past the reach is inlined, so that each keeps only what it needs itself.
    ///
    /// # Errors
    ///
    /// Those of [`Layout::find`].
    #[inline(never)]
    fn find_by_all_counts(
        &self,
        reference: &Ref,
        receiving: bool,
        bytes: &[u8],
        counts: &mut Counts,
        reads: &mut u64,
    ) -> Result<Place, FindFault>
        requires refers { Refers reference.now.node reference.now.subscripts.items self.now }
        requires room { IsRoomFor self.now counts.old }
        requires kept { KeepsOf self.now bytes.now counts.old }
        ensures found { IsFound self.now reference.now receiving bytes.now result }
        ensures current { IfOk result (EndsInLength self.now reference.now receiving bytes.now) }
        ensures fits { IfOk result (λ p. p.offset + p.length ≤ sum_of greatest_number self.now) }
        ensures same { OnCountFault result (counts.new ≡ counts.old) }
        ensures keeps { KeepsOf self.now bytes.now counts.new }
        ensures kept { OnCounts result (KeepsNeeded self.now reference.now receiving bytes.now
            counts.old.kept counts.new.kept) }
        ensures reads { ReadsAnew self.now reference.now receiving bytes.now counts.old.kept
            reads.old reads.new }
        ensures room { IsRoomFor self.now counts.new }
    {
        if let Some(place) = self.place_at_once(reference, receiving, bytes, counts, *reads) {
            return Ok(place);
        }
        self.find_past(reference, receiving, bytes, counts, reads)
    }

    /// Where a reference stands by the counts of these bytes that it needs. It reads only those of them that are not kept, and keeps those that it reads.
    /// Each count that is read adds one to `reads`, one that is refused too; `reads` stays at the greatest `u64`. The counts that are kept are those of
    /// these bytes. Its time doesn't grow with the number of the record's entries while all that it needs are kept, nor with that of the tables that vary
    /// where an earlier call needed as many of them and what is kept and taken stayed since. It takes no memory. Only the choice of its way is inlined: what is
    /// noted of most places says where they are ([`Layout::place_by_sums`]).
    ///
    /// # Errors
    ///
    /// The first count that is read and that gives no number within its table's bounds, or that ends past the bytes: the counts are as they were then. And
    /// a subscript that is past the number of elements that its table has under the counts.
    #[inline(always)]
    pub fn find(
        &self,
        reference: &Ref,
        receiving: bool,
        bytes: &[u8],
        counts: &mut Counts,
        reads: &mut u64,
    ) -> Result<Place, FindFault>
        requires refers { Refers reference.now.node reference.now.subscripts.items self.now }
        requires room { IsRoomFor self.now counts.old }
        requires kept { KeepsOf self.now bytes.now counts.old }
        ensures found { IsFound self.now reference.now receiving bytes.now result }
        // An element that is there ends within the record's length under the counts that it needs.
        ensures current { IfOk result (λ p. (c : List ℕ)
            × NeededOf self.now reference.now.node receiving bytes.now (Ok c)
            × (p.offset + p.length ≤ sum_of (times c) self.now)) }
        ensures fits { IfOk result (λ p. p.offset + p.length ≤ sum_of greatest_number self.now) }
        ensures same { OnCountFault result (counts.new ≡ counts.old) }
        // The counts that are kept then are those of these bytes: those that were needed, and those that were kept before.
        ensures keeps { KeepsOf self.now bytes.now counts.new }
        ensures kept { OnCounts result ((c : List ℕ)
            × NeededOf self.now reference.now.node receiving bytes.now (Ok c)
            × (kept_numbers counts.new.kept
            ≡ kept_after (is_read self.now reference.now.node receiving) c (tables_of self.now)
            (kept_numbers counts.old.kept))) }
        // So many counts were read, none of them one that was kept.
        ensures reads { (c : Result (List ℕ) CountFault) × (n : ℕ)
            × TakenAnew self.now bytes.now (is_read self.now reference.now.node receiving)
            (tables_of self.now) (kept_numbers counts.old.kept) (greatest_counts self.now) c n
            × (reads.new ≡ min (reads.old + n) most_reads) }
        ensures room { IsRoomFor self.now counts.new }
    {
        // In most records with a table that varies no other count is needed.
        if let Some(lone) = self.lone_unread(reference, receiving, &counts.kept) {
            return self.find_by_lone_count(reference, receiving, lone, bytes, counts, reads);
        }
        self.find_by_all_counts(reference, receiving, bytes, counts, reads)
    }
}
