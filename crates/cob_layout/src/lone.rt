//! Counts of a record with just one table that varies, whose count stands before it: a lone table.
//!
//! Most records with a table that varies have one such table. The place of its count doesn't vary, so its count is read where it stands under the greatest
//! counts, and a reference that needs it needs no other. What such a reference needs is had in a straight line then: no counts are copied, no table is
//! looked for, and the sums are 0 and the bytes of the table's elements.

ghost use Rattle.std.specs.Prelude.{◌≡◌, ◌&&◌, ◌+◌, ◌*◌, ◌<◌, ◌≤◌, [], ◌∷◌, true, false, length, take, Err, None, Some, OnOk, OnErr, IfErr, IfOk, IfSome, IsTrue};
ghost use Rattle.cob_copybook_tree.specs.Forests.{entries_in};
ghost use Rattle.cob_copybook_tree.specs.Lengths.{greatest_number, sum_of};
ghost use Rattle.cob_limits.specs.Limits.{longest_record};
ghost use Rattle.cob_layout_places.specs.Counts.{tables_of};
ghost use Rattle.cob_layout_places.specs.Needs.{is_read};
ghost use Rattle.cob_layout_places.specs.References.{Refers};
ghost use Rattle.cob_layout.specs.Counting.{NeededOf};
ghost use Rattle.cob_layout.specs.Finding.{EndsInLength, FindsNeeded, HasNeeded, IsFound, KeepsNeeded, OnCountFault, OnCounts, ReachIn};
ghost use Rattle.cob_layout.specs.Kept.{AreKeptOf, ReadsAnew, ReadsLone, kept_numbers};
ghost use Rattle.cob_layout.specs.Lone.{GrowsAlone, IsLoneIn, IsLoneTable};
ghost use Rattle.cob_layout.specs.Shifts.{grow_in, sums_of};
ghost use Rattle.cob_layout.specs.Sound.{IsSound};
ghost use Rattle.cob_layout.specs.Standing.{IsRoomFor, KeepsOf, LieWithin};

use crate::counts::{Counts, KeptRange, StoredCount};
use crate::fields::Place;
use crate::finding::FindFault;
use crate::footings::{Footing, footing_at};
use crate::laws::places_end_in_length;
use crate::layout::{Layout, placed};
use crate::shifts::Growth;
use crate::sound::records_are_sound;
use crate::spots::spot_at;
use cob_layout_places::{CountFault, Found, Ref, Spot, Table, needs_are_read, one_place};

/// A lone table, with what its count and its elements ask.
#[derive(Clone, Copy)]
pub(crate) struct LoneTable {
    pub(crate) table: Table,
    /// Where the item of its count stands, whatever the counts.
    pub(crate) item: Place,
    /// The bytes of its element.
    pub(crate) bytes: u32,
}

/// The only one of these tables, where its count stands before it.
fn only_table(tables: &[Table]) -> Option<Table>
    ensures { IfSome result (λ x. (tables.now ≡ x ∷ []) × (x.count < x.number)) }
{
    match tables.split_first() {
        Some((table, others)) if others.is_empty() && table.count < table.number => Some(*table),
        _ => None,
    }
}

/// The only one of these growths, where it is that of this table alone.
fn only_growth(growths: &[Growth], table: Table) -> Option<Growth>
    ensures { IfSome result (GrowsAlone growths.now table) }
{
    match growths.split_first() {
        Some((growth, others)) if others.is_empty() && is_alone(*growth, table) => Some(*growth),
        _ => None,
    }
}

/// Whether a growth is that of this table, and of no other one with it.
fn is_alone(growth: Growth, table: Table) -> bool
    ensures plain { IsTrue result → (growth.before ≡ 0) × (growth.times ≡ 0) }
    ensures own { IsTrue result → (growth.number ≡ table.number) × (growth.most ≡ table.most) }
{
    growth.before == 0
        && growth.times == 0
        && growth.number == table.number
        && growth.most == table.most
}

/// The lone table of these, which grow so and whose entries stand at these spots under the greatest counts.
pub(crate) fn lone_of(tables: &[Table], growths: &[Growth], spots: &[Spot]) -> Option<LoneTable>
    ensures { IfSome result (IsLoneTable tables.now growths.now spots.now) }
{
    let table = only_table(tables)?;
    let growth = only_growth(growths, table)?;
    let item = spot_at(spots, table.count);
    Some(LoneTable {
        table,
        item: Place {
            offset: item.offset,
            length: item.length,
        },
        bytes: growth.bytes,
    })
}

/// Writes the sums of a record, whose lone table has so many elements.
#[inline(always)]
fn put_lone_sums(lone: &LoneTable, number: u32, sums: &mut [u32])
    requires room { 2 ≤ length sums.old }
    requires small { number * lone.now.bytes ≤ longest_record }
    ensures { take 2 sums.new ≡ 0 ∷ number * lone.now.bytes ∷ [] }
{
    sums[0] = 0;
    sums[1] = number * lone.bytes;
}

/// Whether a reference to an entry, which receives or not, needs the count of the table with this number, and may be spared none.
#[inline(always)]
fn asks_for(footing: Footing, receiving: bool, number: usize) -> bool
    ensures behind { IsTrue result → number < footing.behind }
    ensures spares { IsTrue result → (receiving && footing.spares) ≡ false }
{
    number < footing.behind && !(receiving && footing.spares)
}

/// The range of a place alone.
#[inline(always)]
fn range_at(place: Place) -> KeptRange
    ensures from { result.from ≡ place.offset }
    ensures end { result.end ≡ place.offset + place.length }
{
    KeptRange {
        from: u64::from(place.offset),
        end: u64::from(place.offset) + u64::from(place.length),
    }
}

impl Layout {
    /// The record's lone table, where it has one, whose count isn't kept.
    #[inline(always)]
    pub(crate) fn lone_not_kept(&self, kept: &[Option<StoredCount>]) -> Option<&LoneTable>
        requires as_many { length kept.now ≡ length (tables_of self.now) }
        ensures lone { IfSome result (λ l. IsLoneIn self.now l.now) }
        ensures unread { IfSome result (λ _. kept.now ≡ None ∷ []) }
    {
        match &self.lone {
            Some(lone) if kept[0].is_none() => Some(lone),
            _ => None,
        }
    }

    /// The record's lone table, where it has one, whose count isn't kept, and the reference reads it.
    #[inline(always)]
    pub(crate) fn lone_unread(
        &self,
        reference: &Ref,
        receiving: bool,
        kept: &[Option<StoredCount>],
    ) -> Option<&LoneTable>
        requires refers { Refers reference.now.node reference.now.subscripts.items self.now }
        requires as_many { length kept.now ≡ length (tables_of self.now) }
        ensures lone { IfSome result (λ l. IsLoneIn self.now l.now) }
        ensures read { IfSome result
            (λ l. is_read self.now reference.now.node receiving l.now.table ≡ true) }
        ensures unread { IfSome result (λ _. kept.now ≡ None ∷ []) }
    {
        match &self.lone {
            Some(lone) if kept[0].is_none() => {
                let footing = footing_at(&self.footings, reference.node);
                if asks_for(footing, receiving, lone.table.number) {
                    Some(lone)
                } else {
                    None
                }
            }
            _ => None,
        }
    }

    /// The count of a lone table that isn't kept: what the bytes say, which is one read more and is kept then.
    ///
    /// # Errors
    ///
    /// The count gives no number from its table's least to its greatest one, or ends past the bytes. What is kept is as it was then.
    #[inline(always)]
    fn keep_lone(
        &self,
        lone: &LoneTable,
        bytes: &[u8],
        kept: &mut [Option<StoredCount>],
        range: &mut KeptRange,
        reads: &mut u64,
    ) -> Result<u32, CountFault>
        requires lone { IsLoneIn self.now lone.now }
        requires unread { kept.old ≡ None ∷ [] }
        requires within { LieWithin range.old kept.old }
        ensures read { ReadsLone self.now lone.now.table bytes.now kept.old result reads.old
            reads.new }
        ensures same { OnErr result (kept.new ≡ kept.old) }
        ensures kept { IfOk result (λ v. kept_numbers kept.new ≡ Some v ∷ []) }
        ensures within { LieWithin range.new kept.new }
        ensures keeps { OnOk result (AreKeptOf self.now bytes.now kept.new) }
    {
        // For `read`: how many there were is a count of 64 bits.
        let _before = *reads;
        *reads = reads.saturating_add(1);
        let place = lone.item;
        let found = Found {
            offset: place.offset,
            length: place.length,
            within: true,
        };
        let number = match self.count_found(lone.table, found, bytes) {
            Ok(number) => number,
            Err(fault) => return Err(fault),
        };
        kept[0] = Some(StoredCount { number, place });
        *range = range_at(place);
        Ok(number)
    }

    /// Lets the counts be what a reference needs that reads the count of a lone table, which isn't kept: it is read and kept then. The sums are those of
    /// the counts then, and the reach goes past all tables.
    ///
    /// # Errors
    ///
    /// The count gives no number within its table's bounds, or ends past the bytes. What is kept is as it was then.
    #[inline(always)]
    fn read_lone(
        &self,
        reference: &Ref,
        receiving: bool,
        lone: &LoneTable,
        bytes: &[u8],
        kept: &mut [Option<StoredCount>],
        range: &mut KeptRange,
        counts: &mut [u32],
        sums: &mut [u32],
        reach: &mut usize,
        reads: &mut u64,
    ) -> Result<(), CountFault>
        requires refers { Refers reference.now.node reference.now.subscripts.items self.now }
        requires lone { IsLoneIn self.now lone.now }
        requires read { is_read self.now reference.now.node receiving lone.now.table ≡ true }
        requires sound { IsSound self.now }
        requires kept { AreKeptOf self.now bytes.now kept.old }
        requires unread { kept.old ≡ None ∷ [] }
        requires counts { length counts.old ≡ entries_in self.now }
        requires sums { length sums.old ≡ entries_in self.now + 1 }
        requires within { LieWithin range.old kept.old }
        ensures err { IfErr result
            (λ e. NeededOf self.now reference.now.node receiving bytes.now (Err e)) }
        ensures same { OnErr result (kept.new ≡ kept.old) }
        ensures came { OnOk result (HasNeeded self.now reference.now receiving bytes.now counts.new
            kept.old kept.new) }
        ensures sums { OnOk result (take (grow_in self.now + 1) sums.new
            ≡ sums_of self.now counts.new) }
        ensures reach { ReachIn self.now reach.new counts.new sums.new kept.new }
        ensures within { LieWithin range.new kept.new }
        ensures keeps { OnOk result (AreKeptOf self.now bytes.now kept.new) }
        ensures reads { ReadsAnew self.now reference.now receiving bytes.now kept.old reads.old
            reads.new }
    {
        // For `err` and `came`: the counts that are read are those that the reference needs, and counts that agree on them give it one place.
        needs_are_read();
        one_place();
        let number = match self.keep_lone(lone, bytes, kept, range, reads) {
            Ok(number) => number,
            Err(fault) => {
                *reach = 0;
                return Err(fault);
            }
        };
        counts[lone.table.number] = number;
        put_lone_sums(lone, number, sums);
        *reach = usize::MAX;
        Ok(())
    }

    /// The element of a reference that reads the count of this lone table, which isn't kept.
    ///
    /// # Errors
    ///
    /// The first count that is read and that gives no number within its table's bounds, or that ends past the bytes. The counts are as they were then.
    #[inline(always)]
    pub(crate) fn found_lone(
        &self,
        reference: &Ref,
        receiving: bool,
        lone: &LoneTable,
        bytes: &[u8],
        counts: &mut Counts,
        reads: &mut u64,
    ) -> Result<Found, CountFault>
        requires refers { Refers reference.now.node reference.now.subscripts.items self.now }
        requires room { IsRoomFor self.now counts.old }
        requires kept { KeepsOf self.now bytes.now counts.old }
        requires lone { IsLoneIn self.now lone.now }
        requires read { is_read self.now reference.now.node receiving lone.now.table ≡ true }
        requires unread { counts.old.kept ≡ None ∷ [] }
        ensures err { IfErr result
            (λ e. NeededOf self.now reference.now.node receiving bytes.now (Err e)) }
        ensures same { OnErr result (counts.new ≡ counts.old) }
        ensures came { IfOk result (FindsNeeded self.now reference.now receiving bytes.now
            counts.old.kept counts.new.kept) }
        ensures keeps { OnOk result (KeepsOf self.now bytes.now counts.new) }
        ensures reads { ReadsAnew self.now reference.now receiving bytes.now counts.old.kept
            reads.old reads.new }
        ensures room { IsRoomFor self.now counts.new }
    {
        // For what `read_lone` asks: a record description is sound.
        let _ = self.greatest();
        records_are_sound();
        self.read_lone(
            reference,
            receiving,
            lone,
            bytes,
            &mut counts.kept,
            &mut counts.range,
            &mut counts.next,
            &mut counts.sums,
            &mut counts.reach,
            reads,
        )?;
        Ok(self.element_or_apart(reference, &counts.sums, &counts.next))
    }

    /// Where a reference stands, as [`Layout::find`] says it, that reads the count of this lone table, which isn't kept.
    ///
    /// # Errors
    ///
    /// Those of [`Layout::find`].
    #[inline(never)]
    pub(crate) fn find_by_lone_count(
        &self,
        reference: &Ref,
        receiving: bool,
        lone: &LoneTable,
        bytes: &[u8],
        counts: &mut Counts,
        reads: &mut u64,
    ) -> Result<Place, FindFault>
        requires refers { Refers reference.now.node reference.now.subscripts.items self.now }
        requires room { IsRoomFor self.now counts.old }
        requires kept { KeepsOf self.now bytes.now counts.old }
        requires lone { IsLoneIn self.now lone.now }
        requires read { is_read self.now reference.now.node receiving lone.now.table ≡ true }
        requires unread { counts.old.kept ≡ None ∷ [] }
        ensures found { IsFound self.now reference.now receiving bytes.now result }
        ensures current { IfOk result (EndsInLength self.now reference.now receiving bytes.now) }
        ensures fits { IfOk result (λ p. p.offset + p.length ≤ sum_of greatest_number self.now) }
        ensures same { OnCountFault result (counts.new ≡ counts.old) }
        ensures keeps { KeepsOf self.now bytes.now counts.new }
        ensures kept { OnCounts result (KeepsNeeded self.now reference.now receiving bytes.now
            counts.old.kept counts.new.kept) }
        ensures reads { ReadsAnew self.now reference.now receiving bytes.now counts.old.kept
            reads.old reads.new }
        ensures room { IsRoomFor self.now counts.new }
    {
        // For `current`: an element that is there ends within the record's length,
        places_end_in_length();
        // and the layout is that of a record description.
        let _ = self.greatest();
        let found = match self.found_lone(reference, receiving, lone, bytes, counts, reads) {
            Ok(found) => found,
            Err(fault) => return Err(FindFault::Count(fault)),
        };
        match placed(found) {
            Ok(place) => Ok(place),
            Err(fault) => Err(FindFault::Subscript(fault)),
        }
    }
}
