//! Where entries stand under counts, by their spots.

ghost use Rattle.std.specs.Prelude.{◌≡◌, ◌<◌, ◌≤◌, ◌+◌, ℕ, List, Ok, Some, IfOk, IfNone, IfSome, IsFalse, IsTrue, option_map};
ghost use Rattle.cob_copybook_tree.specs.Lengths.{greatest_number, sum_of};
ghost use Rattle.cob_layout_places.specs.Lengths.{times};
ghost use Rattle.cob_layout_places.specs.Needs.{Has};
ghost use Rattle.cob_layout_places.specs.References.{Refers};
ghost use Rattle.cob_layout_places.specs.Spots.{spots_of};
ghost use Rattle.cob_layout.specs.Placed.{element_under, placed_under};
ghost use Rattle.cob_layout.specs.Counting.{greatest_counts, ReadsNone};
ghost use Rattle.cob_layout.specs.Standing.{AreSomePlaces};

use crate::counts::Counts;
use crate::fields::Place;
use crate::laws::places_end_in_length;
use crate::layout::{Layout, PlaceFault, placed};
use crate::reads::none_needed;
use crate::sound::records_are_sound;
use crate::spots::{element_at, spot_at};
use crate::ways::{end_of_table, is_last_receiver, tables_at};
use cob_layout_places::{Found, Ref, Spot, needs_are_read, places_end_in_record};

impl Layout {
    /// The element of a reference under the counts whose spots these are.
    fn element(&self, reference: &Ref, spots: &[Spot]) -> Found
        requires refers { Refers reference.now.node reference.now.subscripts.items self.now }
        requires spots { (counts : List ℕ)
            × (spots.now ≡ spots_of (times counts) self.now 0 0) }
        ensures { (counts : List ℕ) → spots.now ≡ spots_of (times counts) self.now 0 0
            → element_under counts self.now reference.now ≡ Some result }
    {
        // For what `element_at` asks: each element ends within the greatest record.
        places_end_in_record();
        let tables = tables_at(&self.ways, reference.node);
        element_at(
            spots,
            reference.node,
            tables,
            reference.subscripts.as_slice(),
        )
    }

    /// Whether a reference to an entry, which receives or not, reads no count.
    fn reads_none(&self, number: usize, receiving: bool) -> bool
        requires there { Has number self.now }
        ensures must { IsTrue result → ReadsNone self.now number receiving }
        ensures only { IsFalse result → ReadsNone self.now number receiving → ⊥ }
    {
        // For `must` and `only`: the counts that are read are those that the reference needs.
        needs_are_read();
        let behind = end_of_table(&self.ways, number);
        match self.tables.first() {
            Some(first) if first.number < behind => {
                let last = is_last_receiver(&self.ways, number, receiving);
                none_needed(&self.tables, behind, last, number)
            }
            _ => true,
        }
    }

    /// Where a reference stands under these counts, in a time that doesn't grow with the record.
    ///
    /// # Errors
    ///
    /// A subscript is past the number of elements that its table has under these counts.
    pub fn place_in(&self, reference: &Ref, counts: &Counts) -> Result<Place, PlaceFault>
        requires refers { Refers reference.now.node reference.now.subscripts.items self.now }
        requires stands { AreSomePlaces self.now counts.now }
        ensures value { placed_under counts.now.counts self.now reference.now ≡ Some result }
        // An element that is there ends within the record's length under the same counts.
        ensures current { IfOk result
            (λ p. p.offset + p.length ≤ sum_of (times counts.now.counts) self.now) }
        ensures fits { IfOk result (λ p. p.offset + p.length ≤ sum_of greatest_number self.now) }
    {
        // For `current` and `fits`: an element that is there ends within the record's length,
        places_end_in_length();
        // and the layout is that of a record description.
        let _ = self.greatest();
        placed(self.element(reference, counts.spots()))
    }

    /// Where the first element of each entry stands where each table has its greatest number of elements, by the numbers of the entries.
    pub fn greatest_spots(&self) -> &[Spot]
        ensures { result.now ≡ spots_of (times (greatest_counts self.now)) self.now 0 0 }
    {
        self.counts.spots()
    }

    /// The record's length in bytes under these counts, in a time that doesn't grow with the record.
    pub fn length_in(&self, counts: &Counts) -> u16
        requires stands { AreSomePlaces self.now counts.now }
        ensures value { result ≡ sum_of (times counts.now.counts) self.now }
        ensures least { 0 < result }
        ensures most { result ≤ sum_of greatest_number self.now }
    {
        // For all three clauses: a record description is sound,
        records_are_sound();
        // and the layout is that of one.
        let _ = self.greatest();
        let record = spot_at(counts.spots(), 0);
        (record.times * record.length) as u16
    }

    /// The place of a reference that needs no count, so that it is the same in every storage; None where it needs one.
    pub fn fixed_place(&self, reference: &Ref, receiving: bool) -> Option<Place>
        requires refers { Refers reference.now.node reference.now.subscripts.items self.now }
        ensures fixed { IfSome result (λ p. ReadsNone self.now reference.now.node receiving) }
        ensures value { IfSome result (λ p. placed_under
            (greatest_counts self.now) self.now reference.now ≡ Some (Ok p)) }
        ensures fits { IfSome result
            (λ p. p.offset + p.length ≤ sum_of greatest_number self.now) }
        ensures none { IfNone result (ReadsNone self.now reference.now.node receiving → ⊥) }
    {
        // For `fits`: an element that is there ends within the record's length.
        places_end_in_length();
        if !self.reads_none(reference.node, receiving) {
            return None;
        }
        match placed(self.element(reference, self.counts.spots())) {
            Ok(place) => Some(place),
            Err(_) => None,
        }
    }
}
