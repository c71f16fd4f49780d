//! Where references stand by the counts of a storage that are kept, and by the sums of the tables under them.
//!
//! Only the entry of a reference and the tables that hold it are placed, and of a count that is read its item. The counts and their sums, as many as the
//! tables that grow, stay from call to call, and it is known up to which number they serve references: their reach (`ReachTo` of specs/Finding.antt). Past
//! it counts are read. The reach ends where a kept count goes, or where the counts or the sums are written for another question.

ghost use Rattle.std.specs.Prelude.{◌≡◌, ◌==◌, ◌&&◌, ◌+◌, ◌<◌, ◌≤◌, true, false, length, take, Ok, Err, Some, OnOk, OnErr, IfErr, IfOk, IfSome, IsFalse, IsTrue};
ghost use Rattle.cob_copybook_tree.specs.Forests.{entries_in};
ghost use Rattle.cob_copybook_tree.specs.Lengths.{greatest_number, sum_of};
ghost use Rattle.cob_layout_places.specs.Counts.{tables_of};
ghost use Rattle.cob_layout_places.specs.Needs.{number_behind};
ghost use Rattle.cob_layout_places.specs.References.{Refers};
ghost use Rattle.cob_layout.specs.Counting.{NeededOf};
ghost use Rattle.cob_layout.specs.Finding.{EndsInLength, FindsNeeded, FindsWithin, HasNeeded, IsFound, KeepsNeeded, ReachIn, SparesNone, are_met};
ghost use Rattle.cob_layout.specs.Kept.{AreKeptOf, ReadsAnew};
ghost use Rattle.cob_layout.specs.Placed.{element_under};
ghost use Rattle.cob_layout.specs.Shifts.{grow_in, sums_of};
ghost use Rattle.cob_layout.specs.Standing.{IsRoomFor, KeepsOf, LieWithin};

use crate::by_sums::{element_by, first_by, keep_by};
use crate::counts::{Counts, KeptRange, StoredCount};
use crate::fields::Place;
use crate::finding::{are_met, reach_of};
use crate::footings::{footing_at, is_within};
use crate::keeping::{Needed, range_of};
use crate::laws::places_end_in_length;
use crate::layout::{Layout, placed};
use crate::ways::tables_at;
use cob_layout_places::{
    CountFault, Found, Ref, Table, needs_are_read, one_place, places_end_in_record,
};

/// Whether a reference may be spared a table: it is the last one and receives, and entries stand beneath it.
fn may_spare(needed: Needed) -> bool
    ensures { IsFalse result → SparesNone needed.behind needed.last needed.number }
{
    needed.last && needed.behind.saturating_sub(needed.number) > 1
}

/// Whether a reference may be spared a table, and these counts are what it asks of all. Of one that is spared none the reach says that.
fn serve_spared(
    tables: &[Table],
    needed: Needed,
    kept: &[Option<StoredCount>],
    counts: &[u32],
) -> bool
    requires as_many { length kept.now ≡ length tables.now }
    ensures { IsTrue result → are_met needed.behind needed.last needed.number counts.now tables.now
        kept.now
        ≡ true }
{
    may_spare(needed) && are_met(tables, needed, kept, counts)
}

impl Layout {
    /// The element of a reference without subscripts under these counts, whose sums these are.
    #[inline(always)]
    fn first_in(&self, reference: &Ref, sums: &[u32], counts: &[u32]) -> Found
        requires none { length reference.now.subscripts.items ≡ 0 }
        requires refers { Refers reference.now.node reference.now.subscripts.items self.now }
        requires room { length sums.now ≡ entries_in self.now + 1 }
        requires sums { take (grow_in self.now + 1) sums.now ≡ sums_of self.now counts.now }
        ensures { element_under counts.now self.now reference.now ≡ Some result }
    {
        let sums = self.own_sums(sums);
        let footing = footing_at(&self.footings, reference.node);
        first_by(footing, sums)
    }

    /// The element of a reference under these counts, whose sums these are: the first one, moved by its subscripts.
    #[inline(always)]
    fn element_moved(&self, reference: &Ref, sums: &[u32], counts: &[u32]) -> Found
        requires refers { Refers reference.now.node reference.now.subscripts.items self.now }
        requires room { length sums.now ≡ entries_in self.now + 1 }
        requires sums { take (grow_in self.now + 1) sums.now ≡ sums_of self.now counts.now }
        ensures { element_under counts.now self.now reference.now ≡ Some result }
    {
        // For what `element_by` asks: each element ends within the greatest record.
        places_end_in_record();
        let sums = self.own_sums(sums);
        let footing = footing_at(&self.footings, reference.node);
        let first = first_by(footing, sums);
        let tables = tables_at(&self.ways, reference.node);
        element_by(
            &self.shifts,
            &self.least,
            sums,
            counts,
            first,
            tables,
            reference.subscripts.as_slice(),
        )
    }

    /// The element of a reference, as [`Layout::element_moved`] says it, behind a call.
    #[inline(never)]
    fn element_apart(&self, reference: &Ref, sums: &[u32], counts: &[u32]) -> Found
        requires refers { Refers reference.now.node reference.now.subscripts.items self.now }
        requires room { length sums.now ≡ entries_in self.now + 1 }
        requires sums { take (grow_in self.now + 1) sums.now ≡ sums_of self.now counts.now }
        ensures { element_under counts.now self.now reference.now ≡ Some result }
    {
        self.element_moved(reference, sums, counts)
    }

    /// The element of a reference under these counts, whose sums these are.
    #[inline(always)]
    fn element_in(&self, reference: &Ref, sums: &[u32], counts: &[u32]) -> Found
        requires refers { Refers reference.now.node reference.now.subscripts.items self.now }
        requires room { length sums.now ≡ entries_in self.now + 1 }
        requires sums { take (grow_in self.now + 1) sums.now ≡ sums_of self.now counts.now }
        ensures { element_under counts.now self.now reference.now ≡ Some result }
    {
        if reference.subscripts.is_empty() {
            return self.first_in(reference, sums, counts);
        }
        self.element_moved(reference, sums, counts)
    }

    /// The element of a reference, as [`Layout::element_in`] says it. Subscripts cost a call, and nothing where there are none.
    #[inline(always)]
    pub(crate) fn element_or_apart(&self, reference: &Ref, sums: &[u32], counts: &[u32]) -> Found
        requires refers { Refers reference.now.node reference.now.subscripts.items self.now }
        requires room { length sums.now ≡ entries_in self.now + 1 }
        requires sums { take (grow_in self.now + 1) sums.now ≡ sums_of self.now counts.now }
        ensures { element_under counts.now self.now reference.now ≡ Some result }
    {
        if reference.subscripts.as_slice().is_empty() {
            return self.first_in(reference, sums, counts);
        }
        self.element_apart(reference, sums, counts)
    }

    /// The element of a reference under these counts, where those that it needs are among those that they reach; None where they may be others.
    #[inline(always)]
    fn element_within(
        &self,
        reference: &Ref,
        receiving: bool,
        reach: usize,
        sums: &[u32],
        counts: &[u32],
    ) -> Option<Found>
        requires refers { Refers reference.now.node reference.now.subscripts.items self.now }
        requires room { length sums.now ≡ entries_in self.now + 1 }
        requires sums { 0 < reach
            → take (grow_in self.now + 1) sums.now ≡ sums_of self.now counts.now }
        ensures { IfSome result (FindsWithin self.now reference.now receiving reach counts.now
            sums.now) }
    {
        // For what `element_in` asks and what is found: the counts that are read are those that the reference needs, and counts that agree on them give
        // it one place.
        needs_are_read();
        one_place();
        let footing = footing_at(&self.footings, reference.node);
        if is_within(footing, receiving, reach) {
            Some(self.element_in(reference, sums, counts))
        } else {
            None
        }
    }

    /// Reads the counts that a reference needs and that aren't kept, and keeps them; the counts are those that it needs then, and the sums theirs.
    ///
    /// # Errors
    ///
    /// The first count that is read and that gives no number within its table's bounds, or that ends past the bytes. What is kept is as it was then.
    #[inline(always)]
    fn read_anew(
        &self,
        reference: &Ref,
        receiving: bool,
        bytes: &[u8],
        kept: &mut [Option<StoredCount>],
        counts: &mut [u32],
        sums: &mut [u32],
        reads: &mut u64,
        needed: Needed,
    ) -> Result<(), CountFault>
        requires refers { Refers reference.now.node reference.now.subscripts.items self.now }
        requires kept { AreKeptOf self.now bytes.now kept.old }
        requires as_many { length kept.old ≡ length (tables_of self.now) }
        requires counts { length counts.old ≡ entries_in self.now }
        requires sums { length sums.old ≡ entries_in self.now + 1 }
        requires behind { needed.behind ≡ number_behind true reference.now.node self.now }
        requires last { needed.last ≡ (receiving
            && (number_behind false reference.now.node self.now == entries_in self.now)) }
        requires number { needed.number ≡ reference.now.node }
        ensures err { IfErr result
            (λ e. NeededOf self.now reference.now.node receiving bytes.now (Err e)) }
        ensures same { OnErr result (kept.new ≡ kept.old) }
        ensures came { OnOk result (HasNeeded self.now reference.now receiving bytes.now counts.new
            kept.old kept.new) }
        ensures sums { OnOk result (take (grow_in self.now + 1) sums.new
            ≡ sums_of self.now counts.new) }
        ensures keeps { OnOk result (AreKeptOf self.now bytes.now kept.new) }
        ensures reads { ReadsAnew self.now reference.now receiving bytes.now kept.old reads.old
            reads.new }
    {
        // For `err`, `came` and `keeps`: the counts that are read are those that the reference needs, and a count has one place.
        needs_are_read();
        one_place();
        counts.copy_from_slice(self.counts.as_slice());
        self.take_anew(needed, bytes, kept, counts, sums, reads)?;
        self.put_sums(counts, sums);
        keep_by(
            &self.tables,
            needed,
            &self.shifts,
            &self.least,
            self.own_sums(sums),
            counts,
            kept,
        );
        Ok(())
    }

    /// Lets the sums be those of the counts: as they are, where the counts and they have a reach, and else written anew.
    #[inline(never)]
    fn have_sums(&self, reach: usize, counts: &[u32], sums: &mut [u32])
        requires room { length sums.old ≡ entries_in self.now + 1 }
        requires sums { 0 < reach
            → take (grow_in self.now + 1) sums.old ≡ sums_of self.now counts.now }
        ensures { take (grow_in self.now + 1) sums.new ≡ sums_of self.now counts.now }
    {
        if reach == 0 {
            self.put_sums(counts, sums);
        }
    }

    /// Lets the counts be what a reference needs: as they are, where they are that and all that it reads are kept, and else those that are read. The sums
    /// are those of the counts then, and the reach goes up to the first table whose count isn't kept as it stands in them.
    ///
    /// # Errors
    ///
    /// The first count that is read and that gives no number within its table's bounds, or that ends past the bytes. What is kept is as it was then.
    #[inline(always)]
    fn have_counts(
        &self,
        reference: &Ref,
        receiving: bool,
        bytes: &[u8],
        kept: &mut [Option<StoredCount>],
        range: &mut KeptRange,
        counts: &mut [u32],
        sums: &mut [u32],
        reach: &mut usize,
        reads: &mut u64,
    ) -> Result<(), CountFault>
        requires refers { Refers reference.now.node reference.now.subscripts.items self.now }
        requires kept { AreKeptOf self.now bytes.now kept.old }
        requires as_many { length kept.old ≡ length (tables_of self.now) }
        requires counts { length counts.old ≡ entries_in self.now }
        requires sums { length sums.old ≡ entries_in self.now + 1 }
        requires reach { ReachIn self.now reach.old counts.old sums.old kept.old }
        requires within { LieWithin range.old kept.old }
        ensures err { IfErr result
            (λ e. NeededOf self.now reference.now.node receiving bytes.now (Err e)) }
        ensures same { OnErr result (kept.new ≡ kept.old) }
        ensures came { OnOk result (HasNeeded self.now reference.now receiving bytes.now counts.new
            kept.old kept.new) }
        ensures sums { OnOk result (take (grow_in self.now + 1) sums.new
            ≡ sums_of self.now counts.new) }
        ensures reach { ReachIn self.now reach.new counts.new sums.new kept.new }
        ensures within { LieWithin range.new kept.new }
        ensures keeps { OnOk result (AreKeptOf self.now bytes.now kept.new) }
        ensures reads { ReadsAnew self.now reference.now receiving bytes.now kept.old reads.old
            reads.new }
    {
        // For `came`: the counts that are read are those that the reference needs, and counts that agree on them give it one place.
        needs_are_read();
        one_place();
        // For `reads`: how many there were is a count of 64 bits.
        let _before = *reads;
        let tables = self.tables.as_slice();
        let needed = self.needed_by(reference.node, receiving);
        if serve_spared(tables, needed, kept, counts) {
            self.have_sums(*reach, counts, sums);
            return Ok(());
        }
        *reach = 0;
        self.read_anew(
            reference, receiving, bytes, kept, counts, sums, reads, needed,
        )?;
        *range = range_of(kept);
        *reach = reach_of(tables, kept, counts);
        Ok(())
    }

    /// The element of a reference under the counts that it needs, wherever these may be past the reach.
    ///
    /// # Errors
    ///
    /// The first count that is read and that gives no number within its table's bounds, or that ends past the bytes. The counts are as they were then.
    #[inline(always)]
    pub(crate) fn found_past(
        &self,
        reference: &Ref,
        receiving: bool,
        bytes: &[u8],
        counts: &mut Counts,
        reads: &mut u64,
    ) -> Result<Found, CountFault>
        requires refers { Refers reference.now.node reference.now.subscripts.items self.now }
        requires room { IsRoomFor self.now counts.old }
        requires kept { KeepsOf self.now bytes.now counts.old }
        ensures err { IfErr result
            (λ e. NeededOf self.now reference.now.node receiving bytes.now (Err e)) }
        ensures same { OnErr result (counts.new ≡ counts.old) }
        ensures came { IfOk result (FindsNeeded self.now reference.now receiving bytes.now
            counts.old.kept counts.new.kept) }
        ensures keeps { OnOk result (KeepsOf self.now bytes.now counts.new) }
        ensures reads { ReadsAnew self.now reference.now receiving bytes.now counts.old.kept
            reads.old reads.new }
        ensures room { IsRoomFor self.now counts.new }
    {
        self.have_counts(
            reference,
            receiving,
            bytes,
            &mut counts.kept,
            &mut counts.range,
            &mut counts.next,
            &mut counts.sums,
            &mut counts.reach,
            reads,
        )?;
        Ok(self.element_in(reference, &counts.sums, &counts.next))
    }

    /// Where a reference stands under the counts that it needs, where these are kept and within reach, and it is there.
    #[inline(always)]
    pub(crate) fn place_at_once(
        &self,
        reference: &Ref,
        receiving: bool,
        bytes: &[u8],
        counts: &Counts,
        reads: u64,
    ) -> Option<Place>
        requires refers { Refers reference.now.node reference.now.subscripts.items self.now }
        requires room { IsRoomFor self.now counts.now }
        requires kept { KeepsOf self.now bytes.now counts.now }
        ensures found { IfSome result
            (λ p. IsFound self.now reference.now receiving bytes.now (Ok p)) }
        ensures current { IfSome result (EndsInLength self.now reference.now receiving bytes.now) }
        ensures fits { IfSome result (λ p. p.offset + p.length ≤ sum_of greatest_number self.now) }
        // All that it needs is kept, and none of it is read.
        ensures kept { IfSome result (λ _. KeepsNeeded self.now reference.now receiving bytes.now
            counts.now.kept counts.now.kept) }
        ensures reads { IfSome result (λ _. ReadsAnew self.now reference.now receiving bytes.now
            counts.now.kept reads reads) }
    {
        // For `current`: an element that is there ends within the record's length,
        places_end_in_length();
        // and the layout is that of a record description.
        let _ = self.greatest();
        let reach = counts.reach;
        let sums = &counts.sums;
        let taken = &counts.next;
        match self.element_within(reference, receiving, reach, sums, taken) {
            Some(found) => match placed(found) {
                Ok(place) => Some(place),
                Err(_) => None,
            },
            None => None,
        }
    }
}
