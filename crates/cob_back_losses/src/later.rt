//! Which bytes of the output record moves cover, and how far all bytes behind one are covered.

ghost use Rattle.std.specs.Prelude.{◌≡◌, ◌+◌, ◌<◌, ◌≤◌, ◌||◌, ℕ, Bool, List, [], IfNone, IfOk, IfSome, false, get_or, length};
ghost use Rattle.cob_copybook_tree.specs.Lengths.{greatest_number, sum_of};
ghost use Rattle.cob_layout.specs.declared.fields.Place.{Place as SeenPlace};
ghost use Rattle.cob_layout_places.specs.Cover.{holds};
ghost use Rattle.cob_layout_places.specs.References.{Refers};
ghost use Rattle.cob_move_data.specs.Singles.{occurrence, occurrence_by};
ghost use Rattle.cob_back_losses.specs.Keeping.{IsMarked};
ghost use Rattle.cob_back_losses.specs.Moved.{StandsAt};
ghost use Rattle.cob_back_losses.specs.Seen.{AreEnds, MarkCoveredBytes};

use cob_layout::{Layout, Place, PlaceFault, Ref};
use std::alloc::{AllocError, Global};

/// Where a reference stands in a record in which each table has its greatest number of elements.
fn greatest_place(layout: &Layout, reference: &Ref) -> Option<Place>
    requires { Refers reference.now.node reference.now.subscripts.items layout.now }
    ensures some { IfSome result (λ p. StandsAt layout.now (occurrence_by reference.now) p) }
    ensures none { IfNone result ((p : SeenPlace)
        → StandsAt layout.now (occurrence_by reference.now) p → ⊥) }
    ensures fits { IfSome result (λ p. p.offset + p.length ≤ sum_of greatest_number layout.now) }
{
    match layout.place_in(reference, layout.greatest_counts()) {
        Ok(place) => Some(place),
        Err(_) => None,
    }
}

/// Where an occurrence stands in a record in which each table has its greatest number of elements.
pub fn place_of(layout: &Layout, number: usize, subscripts: &[u32]) -> Option<Place>
    ensures some { IfSome result (λ p. StandsAt layout.now (occurrence number subscripts.now) p) }
    ensures none { IfNone result ((p : SeenPlace)
        → StandsAt layout.now (occurrence number subscripts.now) p → ⊥) }
    ensures fits { IfSome result (λ p. p.offset + p.length ≤ sum_of greatest_number layout.now) }
{
    match layout.reference(number, subscripts) {
        Some(reference) => greatest_place(layout, &reference),
        None => None,
    }
}

/// Marks of a record, none of whose bytes is covered.
pub(crate) fn uncovered(alloc: Global, layout: &Layout) -> Result<Vec<bool>, AllocError>
    ensures { IfOk result (λ marks. MarkCoveredBytes layout.now [] marks.items) }
{
    let mut marks = Vec::new(alloc);
    for _ in 0..layout.greatest() {
        marks.push(false)?;
    }
    Ok(marks)
}

/// Marks the bytes of a place, of which the first ones, so many, are marked already.
pub(crate) fn cover(marks: &mut [bool], place: Place, front: usize)
    requires fits { place.offset + place.length ≤ length marks.old }
    requires within { front ≤ place.length }
    requires front { (at : ℕ) → at < front → IsMarked marks.old (place.offset + at) }
    ensures marked { (byte : ℕ) → get_or marks.new byte false
        ≡ (holds byte place.offset place.length || get_or marks.old byte false) }
    ensures room { length marks.new ≡ length marks.old }
{
    let start = place.offset as usize;
    let end = start + place.length as usize;
    let first = start + front;
    for at in first..end {
        marks[at] = true;
    }
}

/// The ends up to which the bytes of a record are covered from each one on, where nothing is known of any.
pub(crate) fn unknown_ends(alloc: Global, layout: &Layout) -> Result<Vec<usize>, AllocError>
    ensures ends { IfOk result (λ ends. (marks : List Bool) → AreEnds marks ends.items) }
    ensures room { IfOk result (λ ends. length ends.items ≡ sum_of greatest_number layout.now) }
{
    let mut ends = Vec::new(alloc);
    for _ in 0..layout.greatest() {
        ends.push(0)?;
    }
    Ok(ends)
}

/// The end up to which all bytes from this one on are covered, as far as it and the byte there know; then it knows what both did.
fn known_end(ends: &mut [usize], at: usize) -> usize
    requires { at < length ends.old }
    ensures covered { (marks : List Bool) → AreEnds marks ends.old
        → (byte : ℕ) → at ≤ byte → byte < result → IsMarked marks byte }
    ensures ends { (marks : List Bool) → AreEnds marks ends.old → AreEnds marks ends.new }
    ensures room { length ends.new ≡ length ends.old }
{
    let end = ends[at];
    if end >= ends.len() {
        return end;
    }
    let further = ends[end];
    if further <= end {
        return end;
    }
    ends[at] = further;
    further
}

/// How many bytes of a place, from its first one on, are known to be covered. Who asks again finds it in fewer steps.
pub(crate) fn covered_front(ends: &mut [usize], place: Place) -> usize
    requires fits { place.offset + place.length ≤ length ends.old }
    ensures front { (marks : List Bool) → AreEnds marks ends.old
        → (at : ℕ) → at < result → IsMarked marks (place.offset + at) }
    ensures within { result ≤ place.length }
    ensures ends { (marks : List Bool) → AreEnds marks ends.old → AreEnds marks ends.new }
    ensures room { length ends.new ≡ length ends.old }
{
    let start = place.offset as usize;
    let end = start + place.length as usize;
    let mut at = start;
    while at < end {
        let next = known_end(ends, at).min(end);
        if next <= at {
            return at - start;
        }
        at = next;
    }
    end - start
}

/// Notes that all bytes of a place are covered, of which this is known of the first ones, so many.
pub(crate) fn note_covered(ends: &mut [usize], place: Place, front: usize)
    requires fits { place.offset + place.length ≤ length ends.old }
    requires within { front ≤ place.length }
    ensures ends { (marks : List Bool) → AreEnds marks ends.old
        → ((byte : ℕ) → place.offset ≤ byte → byte < place.offset + place.length → IsMarked marks byte)
        → AreEnds marks ends.new }
    ensures room { length ends.new ≡ length ends.old }
{
    let start = place.offset as usize;
    let end = start + place.length as usize;
    let first = start + front;
    for at in first..end {
        ends[at] = end.max(ends[at]);
    }
}
