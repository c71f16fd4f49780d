//! Where entries begin at least.

ghost use Rattle.std.specs.Prelude.{◌≡◌, ◌≤◌, List, ℕ, [], Some};
ghost use Rattle.cob_layout_places.specs.declared.places.Found.{Found as PlacedElement};
ghost use Rattle.cob_layout_places.specs.Lengths.{times};
ghost use Rattle.cob_layout_places.specs.Places.{place_of};
ghost use Rattle.cob_layout_places.specs.References.{Refers};
ghost use Rattle.cob_layout_places.specs.Spots.{spots_of};
ghost use Rattle.cob_layout.specs.Ways.{spot_at};

use crate::layout::Layout;
use crate::spots::spot_at;

impl Layout {
    /// Where the entry with this number begins while the tables that vary have no element, in bytes from the start of the record. No element of it begins
    /// before that, whatever the counts.
    pub fn least_offset(&self, number: usize) -> u32
        ensures value { result ≡ (spot_at (spots_of (times []) self.now 0 0) number).offset }
        ensures least { (counts subscripts : List ℕ) (f : PlacedElement)
            → Refers number subscripts self.now
            → place_of (times counts) number self.now 0 0 subscripts ≡ Some f
            → result ≤ f.offset }
    {
        spot_at(&self.least, number).offset
    }
}
