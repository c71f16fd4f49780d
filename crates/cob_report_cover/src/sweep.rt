//! The bytes that places have, swept from the first byte on: each place is looked at once, and each byte once.

ghost use Rattle.std.specs.Prelude.{◌≡◌, ◌<◌, ◌||◌, ℕ, List, false, nat_lt, get_or, length, IfOk};
ghost use Rattle.std.specs.List.{list_any};
ghost use Rattle.cob_layout.specs.declared.fields.Place.{Place as SeenPlace};
ghost use Rattle.cob_report_cover.specs.Covered.{has_offset};
ghost use Rattle.cob_report_cover.specs.Reaches.{AreReaches, begins_longer};

use cob_layout::Place;
use std::alloc::{AllocError, Global};

/// Lets the reach of the byte at which a place begins be as long as the place is, where it was shorter.
fn raise(reaches: &mut [u32], place: Place)
    ensures long { length reaches.new ≡ length reaches.old }
    ensures each { (o n : ℕ) → o < length reaches.old → nat_lt n (get_or reaches.new o 0)
        ≡ (nat_lt n (get_or reaches.old o 0) || begins_longer o n place) }
{
    let at = place.offset as usize;
    if at < reaches.len() && reaches[at] < place.length {
        reaches[at] = place.length;
    }
}

/// So many reaches of nothing.
fn no_reaches(alloc: Global, count: u16) -> Result<Vec<u32>, AllocError>
    ensures long { IfOk result (λ reaches. length reaches.items ≡ count) }
    ensures none { IfOk result
        (λ reaches. (o n : ℕ) → nat_lt n (get_or reaches.items o 0) ≡ false) }
{
    let mut reaches = Vec::new(alloc);
    for _ in 0..count {
        reaches.push(0)?;
    }
    Ok(reaches)
}

/// Of each byte its reach: how long the longest of these places is that begins at it, and 0 where none does.
fn reaches_of(alloc: Global, count: u16, places: &[Place]) -> Result<Vec<u32>, AllocError>
    ensures long { IfOk result (λ reaches. length reaches.items ≡ count) }
    ensures reaches { IfOk result (λ reaches. AreReaches places.now reaches.items) }
{
    let mut reaches = no_reaches(alloc, count)?;
    for place in places {
        raise(&mut reaches, *place);
    }
    Ok(reaches)
}

/// The greater one of two lengths.
fn longer(left: u32, reach: u32) -> u32
    ensures { (n : ℕ) → nat_lt n result ≡ (nat_lt n left || nat_lt n reach) }
{
    if left < reach { reach } else { left }
}

/// Of each byte whether it is within the reach of one before it, or has one of its own.
fn swept(alloc: Global, reaches: &[u32]) -> Result<Vec<bool>, AllocError>
    ensures long { IfOk result (λ marks. length marks.items ≡ length reaches.now) }
    ensures marks { IfOk result (λ marks. (ps : List SeenPlace) → AreReaches ps reaches.now
        → (o : ℕ) → o < length marks.items
        → get_or marks.items o false ≡ list_any (has_offset o) ps) }
{
    let mut marks = Vec::new(alloc);
    let mut left: u32 = 0;
    for reach in reaches {
        left = longer(left, *reach);
        marks.push(left > 0)?;
        left = left.saturating_sub(1);
    }
    Ok(marks)
}

/// Of each of so many bytes whether one of these places has it.
///
/// # Errors
///
/// Where no memory is left.
pub(crate) fn marks_of(alloc: Global, count: u16, places: &[Place]) -> Result<Vec<bool>, AllocError>
    ensures marks { IfOk result (λ marks. (o : ℕ) → o < length marks.items
        → get_or marks.items o false ≡ list_any (has_offset o) places.now) }
    ensures all { IfOk result (λ marks. length marks.items ≡ count) }
{
    let reaches = reaches_of(alloc, count, places)?;
    let marks = swept(alloc, &reaches)?;
    Ok(marks)
}
