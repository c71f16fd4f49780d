//! What rows ask about: an element of a record under counts.

ghost use Rattle.std.specs.Prelude.{◌≡◌, length, IfOk};
ghost use Rattle.cob_layout.specs.Standing.{IsRoomFor};

use crate::books::reference_of;
use crate::counted::{Counted, counts_for, legal, take};
use crate::refusal::Refusal;
use cob_layout::{Counts, Layout, Place, PlaceFault};
use cob_layout_places::Ref;
use cob_test_rows::{Row, RowFault};
use std::alloc::Global;

/// What a row asks about: a reference to an element of a record, and the counts under which it stands.
#[derive(Drop)]
pub(crate) struct Asked<'a> {
    pub(crate) layout: &'a Layout,
    pub(crate) reference: Ref,
    pub(crate) counts: Counts,
}

/// The question of a row about the element of a record that this field names, under counts that are taken so.
pub(crate) fn question<'a>(
    alloc: Global,
    layout: &'a Layout,
    row: &Row,
    place: usize,
    counted: &Counted,
) -> Result<Asked<'a>, Refusal>
    ensures room { IfOk result (λ a. IsRoomFor a.layout.now a.counts) }
{
    let reference = reference_of(layout.root(), row.field(place)?)?;
    match counts_for(alloc, layout, Some(&reference), counted) {
        Ok(counts) => Ok(Asked {
            layout,
            reference,
            counts,
        }),
        Err(refusal) => Err(refusal),
    }
}

/// Takes counts anew.
pub(crate) fn take_again(asked: &mut Asked<'_>, counted: &Counted) -> Result<(), Refusal>
    requires room { IsRoomFor asked.old.layout.now asked.old.counts }
{
    let Asked {
        layout,
        reference,
        counts,
    } = asked;
    take(layout, Some(reference), counted, counts)
}

/// Where the element stands, or where it would begin that there isn't.
pub(crate) fn placed(asked: &Asked<'_>) -> Result<Result<Place, PlaceFault>, RowFault> {
    let legal = legal(asked.layout, &asked.reference)?;
    Ok(asked.layout.place(&legal, &asked.counts))
}
