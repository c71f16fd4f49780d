//! Elements that begin at the same byte of each record.

ghost use Rattle.std.specs.Prelude.{◌≡◌, [], Some};
ghost use Rattle.std.specs.Bool.{Decides};
ghost use Rattle.cob_layout.specs.Laws.{offset_of};
ghost use Rattle.cob_layout_places.specs.Lengths.{times};
ghost use Rattle.cob_layout_places.specs.Places.{place_of};
ghost use Rattle.cob_layout_places.specs.References.{Refers};
ghost use Rattle.cob_layout_steady.specs.Steady.{IsSteady, offset_by};

use cob_layout::{Layout, Place, PlaceFault, Ref, records_are_sound};
use cob_layout_places::{Found, seek};

/// Where an element begins, or would begin.
fn offset_by(answer: Result<Place, PlaceFault>) -> u32
    ensures { result ≡ offset_by answer }
{
    match answer {
        Ok(place) => place.offset,
        Err(fault) => fault.offset,
    }
}

/// Whether what was found begins at this byte.
fn begins_at(found: Option<Found>, offset: u32) -> bool
    ensures { Decides result (offset_of found ≡ Some offset) }
{
    match found {
        Some(found) => found.offset == offset,
        None => false,
    }
}

/// Where an element stands while the tables that vary have no element.
fn least_place(layout: &Layout, reference: &Ref) -> Option<Found>
    ensures { result ≡ place_of (times []) reference.now.node layout.now 0 0
        reference.now.subscripts.items }
{
    // For what `seek` asks: a record description is sound.
    records_are_sound();
    seek(
        layout.root(),
        reference.node,
        &[],
        0,
        reference.subscripts.as_slice(),
    )
}

/// Whether an element begins at the same byte of each record, whatever the counts of its tables. Its time grows with the record.
pub fn is_steady(layout: &Layout, reference: &Ref) -> bool
    requires { Refers reference.now.node reference.now.subscripts.items layout.now }
    ensures { Decides result
        (IsSteady layout.now reference.now.node reference.now.subscripts.items) }
{
    let greatest = layout.place_in(reference, layout.greatest_counts());
    begins_at(least_place(layout, reference), offset_by(greatest))
}
