//! Which references are legal, by what is known of the entries.

ghost use Rattle.std.specs.Prelude.{◌≡◌, IsFalse, IsTrue};
ghost use Rattle.cob_layout_places.specs.References.{Refers};
ghost use Rattle.cob_layout.specs.Legal.{are_legal, is_subscript};

use crate::layout::Layout;
use crate::spots::spot_at;
use crate::ways::tables_at;
use cob_layout_places::Spot;

/// Whether a subscript is one of a table that occurs so often at most.
fn is_subscript(most: u32, subscript: u32) -> bool
    ensures { result ≡ is_subscript most subscript }
{
    subscript != 0 && subscript <= most
}

/// Whether there are as many subscripts as tables, and each is one of its table by these spots.
fn are_legal(tables: &[usize], spots: &[Spot], subscripts: &[u32]) -> bool
    ensures { result ≡ are_legal tables.now spots.now subscripts.now }
{
    let mut rest = subscripts;
    for table in tables {
        let Some((subscript, later)) = rest.split_first() else {
            return false;
        };
        if !is_subscript(spot_at(spots, *table).times, *subscript) {
            return false;
        }
        rest = later;
    }
    rest.is_empty()
}

impl Layout {
    /// Whether a reference to the entry with this number, with these subscripts, is a legal one, in a time that doesn't grow with the record.
    pub(crate) fn is_legal(&self, node: usize, subscripts: &[u32]) -> bool
        ensures must { IsTrue result → Refers node subscripts.now self.now }
        ensures only { IsFalse result → Refers node subscripts.now self.now → ⊥ }
    {
        if node < self.ways.len() {
            are_legal(tables_at(&self.ways, node), self.counts.spots(), subscripts)
        } else {
            false
        }
    }
}
