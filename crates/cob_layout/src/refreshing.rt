//! The counts of a storage that are kept while it changes.

ghost use Rattle.std.specs.Prelude.{◌≡◌, ◌==◌, ◌&&◌, ◌+◌, ◌≤◌, true, false, ℕ, List, length, min, Ok, Err, OnOk, OnErr, IfErr};
ghost use Rattle.cob_copybook_tree.specs.Forests.{entries_in};
ghost use Rattle.cob_layout_places.specs.Counts.{tables_of};
ghost use Rattle.cob_layout_places.specs.Lengths.{times};
ghost use Rattle.cob_layout_places.specs.Needs.{Has, is_read, number_behind};
ghost use Rattle.cob_layout_places.specs.References.{Refers};
ghost use Rattle.cob_layout_places.specs.Spots.{spots_of};
ghost use Rattle.cob_layout.specs.Counting.{greatest_counts, NeededOf};
ghost use Rattle.cob_layout.specs.Fields.{with_field};
ghost use Rattle.cob_layout.specs.Kept.{AreKeptOf, TakenAnew, TakesAnew, kept_read, most_reads, kept_numbers, outcome_of};
ghost use Rattle.cob_layout.specs.Standing.{AreSomePlaces, IsRoomFor, KeepsOf, written};

use crate::counts::{Counts, StoredCount};
use crate::fields::Place;
use crate::keeping::{Needed, keep_read, meets_kept, range_of};
use crate::layout::Layout;
use crate::sound::records_are_sound;
use crate::ways::{end_of_table, is_last_receiver};
use cob_layout_places::{CountFault, Ref, Spot, needs_are_read, one_place};

impl Layout {
    /// Which counts a reference to an entry needs, which receives or not.
    pub(crate) fn needed_by(&self, number: usize, receiving: bool) -> Needed
        requires there { Has number self.now }
        ensures behind { result.behind ≡ number_behind true number self.now }
        ensures last { result.last
            ≡ (receiving && (number_behind false number self.now == entries_in self.now)) }
        ensures number { result.number ≡ number }
    {
        let behind = end_of_table(&self.ways, number);
        let last = is_last_receiver(&self.ways, number, receiving);
        Needed {
            behind,
            last,
            number,
        }
    }

    /// Takes the counts that the place of a reference needs, of which some may be kept, as [`Layout::refresh`] does; the next counts and the sums are room
    /// that it needs.
    ///
    /// # Errors
    ///
    /// Those of [`Layout::refresh`].
    fn refresh_in(
        &self,
        reference: &Ref,
        receiving: bool,
        bytes: &[u8],
        kept: &mut [Option<StoredCount>],
        next: &mut [u32],
        sums: &mut [u32],
        taken: &mut [u32],
        spots: &mut [Spot],
        reads: &mut u64,
    ) -> Result<(), CountFault>
        requires refers { Refers reference.now.node reference.now.subscripts.items self.now }
        requires kept { AreKeptOf self.now bytes.now kept.old }
        requires as_many { length kept.old ≡ length (tables_of self.now) }
        requires next { length next.old ≡ entries_in self.now }
        requires sums { length sums.old ≡ entries_in self.now + 1 }
        requires counts { length taken.old ≡ entries_in self.now }
        requires room { length spots.old ≡ entries_in self.now }
        ensures ok { OnOk result
            (NeededOf self.now reference.now.node receiving bytes.now (Ok taken.new)) }
        ensures err { IfErr result
            (λ e. NeededOf self.now reference.now.node receiving bytes.now (Err e)) }
        ensures same_counts { OnErr result (taken.new ≡ taken.old) }
        ensures same_spots { OnErr result (spots.new ≡ spots.old) }
        ensures same_kept { OnErr result (kept.new ≡ kept.old) }
        ensures stands { OnOk result (spots.new ≡ spots_of (times taken.new) self.now 0 0) }
        ensures keeps { OnOk result (AreKeptOf self.now bytes.now kept.new) }
        ensures kept { OnOk result (kept.new ≡ kept_read
            (is_read self.now reference.now.node receiving) taken.new spots.new
            (tables_of self.now) kept.old) }
        ensures reads { TakesAnew self.now (is_read self.now reference.now.node receiving) bytes.now
            kept.old (outcome_of result taken.new) reads.old reads.new }
    {
        // For `ok`, `err` and `keeps`: the counts that are read are those that the reference needs, and a count has one place.
        needs_are_read();
        one_place();
        let needed = self.needed_by(reference.node, receiving);
        next.copy_from_slice(self.counts.as_slice());
        self.take_anew(needed, bytes, kept, next, sums, reads)?;
        self.stand_under(next, taken, sums, spots);
        keep_read(&self.tables, needed, taken, spots, kept);
        Ok(())
    }

    /// Takes the counts that the place of a reference needs, as [`Layout::needed`] does, but reads only those of them that are not kept, and keeps
    /// those that it reads. Each count that is read adds one to `reads`, one that is refused too; `reads` stays at the greatest `u64`. The counts
    /// that are kept are those of these bytes. It takes no memory.
    /// It is there for callers of this library: nothing in this repository but its tests calls it.
    ///
    /// # Errors
    ///
    /// The first count that is read and that gives no number within its table's bounds, or that ends past the bytes. The counts are as they were then.
    pub fn refresh(
        &self,
        reference: &Ref,
        receiving: bool,
        bytes: &[u8],
        counts: &mut Counts,
        reads: &mut u64,
    ) -> Result<(), CountFault>
        requires refers { Refers reference.now.node reference.now.subscripts.items self.now }
        requires room { IsRoomFor self.now counts.old }
        requires kept { KeepsOf self.now bytes.now counts.old }
        ensures ok { OnOk result
            (NeededOf self.now reference.now.node receiving bytes.now (Ok counts.new.counts)) }
        ensures err { IfErr result
            (λ e. NeededOf self.now reference.now.node receiving bytes.now (Err e)) }
        ensures same { OnErr result (counts.new ≡ counts.old) }
        ensures stands { OnOk result (AreSomePlaces self.now counts.new) }
        // The counts that are kept then are those of these bytes: those that were needed, and those that were kept before.
        ensures keeps { OnOk result (KeepsOf self.now bytes.now counts.new) }
        ensures kept { OnOk result (counts.new.kept ≡ kept_read
            (is_read self.now reference.now.node receiving) counts.new.counts counts.new.spots
            (tables_of self.now) counts.old.kept) }
        // So many counts were read, none of them one that was kept.
        ensures reads { (n : ℕ) × TakenAnew self.now bytes.now
            (is_read self.now reference.now.node receiving) (tables_of self.now)
            (kept_numbers counts.old.kept) (greatest_counts self.now)
            (outcome_of result counts.new.counts) n
            × (reads.new ≡ min (reads.old + n) most_reads) }
        ensures room { IsRoomFor self.now counts.new }
    {
        counts.reach = 0;
        let answer = self.refresh_in(
            reference,
            receiving,
            bytes,
            &mut counts.kept,
            &mut counts.next,
            &mut counts.sums,
            &mut counts.taken,
            &mut counts.spots,
            reads,
        );
        counts.range = range_of(&counts.kept);
        answer
    }

    /// Says that the bytes of a place were written: where it meets the item of a count that is kept, none is kept any more.
    #[inline(always)]
    pub fn wrote(&self, place: Place, counts: &mut Counts)
        ensures drops { counts.new ≡ written place counts.old }
        // What is kept then is so of the storage as it is now.
        ensures keeps { (before field : List ℕ) → place.offset + place.length ≤ length before
            → length field ≡ place.length → KeepsOf self.now before counts.old
            → KeepsOf self.now (with_field before place field) counts.new }
    {
        // For `keeps`: a record description is sound, and counts that agree on what an item needs give it one place.
        records_are_sound();
        one_place();
        let _ = self.greatest();
        if meets_kept(&counts.kept, counts.range, place) {
            counts.forget();
        }
    }
}
