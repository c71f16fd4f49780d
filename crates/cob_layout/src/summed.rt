//! References that stand where the sums of the tables say.
//!
//! An entry without subscripts stands so, and mostly an element of one table: its subscript moves it as far in every storage. So what its place rests on is
//! noted once, and a record is asked only whether the counts that it needs are kept.

ghost use Rattle.std.specs.Prelude.{◌≡◌, ◌⊎◌, ◌∷◌, ◌+◌, ◌<◌, ◌≤◌, [], ℕ, length, max, min, slice_index, IfSome, IsTrue, Ok};
ghost use Rattle.cob_copybook_tree.specs.Lengths.{greatest_number, sum_of};
ghost use Rattle.cob_limits.specs.Limits.{longest_record};
ghost use Rattle.cob_layout_places.specs.References.{Refers};
ghost use Rattle.cob_layout.specs.Finding.{IsFound};
ghost use Rattle.cob_layout.specs.Standing.{IsRoomFor, KeepsOf};
ghost use Rattle.cob_layout.specs.Summed.{IsLeastOf, IsMovedBy, IsSummedBy, IsSummedPlace, MovesBy, summed_to};

use crate::counts::Counts;
use crate::fields::Place;
use crate::footings::{Footing, footing_at, is_within, shift_at};
use crate::laws::places_end_in_length;
use crate::layout::Layout;
use crate::shifts::Shift;
use crate::sound::records_are_sound;
use crate::spots::spot_at;
use crate::ways::tables_at;
use cob_layout_places::{Found, Ref, Spot, Table, needs_are_read, one_place};

/// Where a reference stands by the sums of the tables that grow.
#[derive(Clone, Copy)]
pub struct SummedPlace {
    /// Where it begins while the tables that vary have no element,
    offset: u16,
    /// and how long it is then.
    length: u16,
    /// The sum behind so many tables moves where it begins,
    before: u16,
    /// and the one behind so many where it ends.
    through: u16,
    /// It needs the counts of the tables below this number.
    behind: u16,
}

/// The only one of these numbers of tables.
fn only_number(tables: &[usize]) -> Option<usize>
    ensures { IfSome result (λ table. tables.now ≡ table ∷ []) }
{
    match tables.split_first() {
        Some((table, others)) if others.is_empty() => Some(*table),
        _ => None,
    }
}

/// The only one of these subscripts.
fn only_subscript(subscripts: &[u32]) -> Option<u32>
    ensures { IfSome result (λ subscript. subscripts.now ≡ subscript ∷ []) }
{
    match subscripts.split_first() {
        Some((subscript, others)) if others.is_empty() => Some(*subscript),
        _ => None,
    }
}

/// Whether a table has this number, which is below that.
fn is_named(table: Table, number: usize, behind: usize) -> bool
    ensures { IsTrue result → (table.number ≡ number) × (number < behind) }
{
    table.number == number && number < behind
}

/// How many elements the table with this number has at least, where its number is below that and it varies; and else 0.
fn least_of(tables: &[Table], number: usize, behind: usize) -> u32
    ensures { IsLeastOf tables.now number behind result }
{
    for table in tables {
        if is_named(*table, number, behind) {
            return table.least;
        }
    }
    0
}

/// How often a table with this shift and this spot occurs at least, where it has so many elements at least if it varies.
fn least_times(shift: Shift, spot: Spot, least: u32) -> u32
    ensures { (count : ℕ) → least ≤ count → result ≤ max spot.times (min count shift.most) }
{
    if shift.most > 0 {
        least.min(shift.most)
    } else {
        spot.times
    }
}

/// Whether so many elements of a table with this shift are as long in every storage.
fn are_as_long(shift: Shift, count: u32) -> bool
    ensures { IsTrue result → (count ≡ 0) ⊎ (shift.through ≡ shift.before) }
{
    count == 0 || shift.through == shift.before
}

/// How far the subscript of a table with this shift and this spot moves an element, where the table has so many elements at least and its spot is that of no
/// element of the tables that vary. None where it moves it by elements that grow, or where it isn't always there.
fn moved_by(shift: Shift, spot: Spot, least: u32, subscript: u32) -> Option<u32>
    ensures { IfSome result (MovesBy shift spot least subscript) }
{
    if subscript > least_times(shift, spot, least) {
        return None;
    }
    let before = subscript.saturating_sub(1);
    if !are_as_long(shift, before) {
        return None;
    }
    match before.checked_mul(spot.length) {
        Some(further) => Some(further),
        None => None,
    }
}

/// A number in 16 bits, where it has no more.
fn short(number: u32) -> Option<u16>
    ensures { IfSome result (λ n. n ≡ number) }
{
    match u16::try_from(number) {
        Ok(short) => Some(short),
        Err(_) => None,
    }
}

/// The number of an entry or of a table in 16 bits, where it has no more.
fn short_number(number: usize) -> Option<u16>
    ensures { IfSome result (λ n. n ≡ number) }
{
    match u16::try_from(number) {
        Ok(short) => Some(short),
        Err(_) => None,
    }
}

/// Where a reference stands by the sums, whose first element rests on this, and whose subscripts move it so far. None where a number is too large.
fn summed_by(footing: Footing, further: u32) -> Option<SummedPlace>
    ensures { IfSome result (IsSummedBy footing further) }
{
    let offset = footing.least.offset.checked_add(further)?;
    Some(SummedPlace {
        offset: short(offset)?,
        length: short(footing.least.length)?,
        before: short_number(footing.shift.before)?,
        through: short_number(footing.shift.through)?,
        behind: short_number(footing.behind)?,
    })
}

/// Whether counts that reach so far are those that the reference needs.
#[inline(always)]
fn are_within(summed: &SummedPlace, reach: usize) -> bool
    ensures { IsTrue result → summed.now.behind ≤ reach }
{
    usize::from(summed.behind) <= reach
}

/// Where a reference stands by these sums.
#[inline(always)]
fn summed_to(summed: &SummedPlace, sums: &[u32]) -> Found
    requires before { summed.now.before < length sums.now }
    requires through { summed.now.through < length sums.now }
    requires rises { slice_index sums.now summed.now.before
        ≤ slice_index sums.now summed.now.through }
    requires low { (k : ℕ) → slice_index sums.now k ≤ longest_record }
    ensures { result ≡ summed_to summed.now sums.now }
{
    let before = sums[usize::from(summed.before)];
    let through = sums[usize::from(summed.through)];
    Found {
        offset: u32::from(summed.offset) + before,
        length: u32::from(summed.length) + through - before,
        within: true,
    }
}

impl Layout {
    /// How far the subscripts of a reference move its first element, where there is one at most. None where there are more, where the subscript moves it by
    /// elements that grow, and where it isn't there whatever the counts below this number.
    fn moved_always(&self, reference: &Ref, behind: usize) -> Option<u32>
        requires refers { Refers reference.now.node reference.now.subscripts.items self.now }
        ensures { IfSome result (IsMovedBy self.now reference.now behind) }
    {
        let tables = tables_at(&self.ways, reference.node);
        let subscripts = reference.subscripts.as_slice();
        if subscripts.is_empty() {
            return Some(0);
        }
        let table = only_number(tables)?;
        let subscript = only_subscript(subscripts)?;
        if table >= self.shifts.len() {
            return None;
        }
        let shift = shift_at(&self.shifts, table);
        let spot = spot_at(&self.least, table);
        let least = least_of(&self.tables, table, behind);
        moved_by(shift, spot, least, subscript)
    }

    /// What the place of a reference rests on that has one subscript at most, where it is always there and the sums of the tables alone say where. None for
    /// others: such a reference is found in each storage ([`Layout::find`]).
    pub fn summed_place(&self, reference: &Ref, receiving: bool) -> Option<SummedPlace>
        requires refers { Refers reference.now.node reference.now.subscripts.items self.now }
        ensures { IfSome result (IsSummedPlace self.now reference.now receiving) }
    {
        let footing = footing_at(&self.footings, reference.node);
        if !is_within(footing, receiving, footing.behind) {
            return None;
        }
        let further = self.moved_always(reference, footing.behind)?;
        summed_by(footing, further)
    }

    /// Where a reference stands by what is noted of its place, where the counts that it needs are kept and within reach.
    #[inline(always)]
    pub fn place_by_sums(
        &self,
        reference: &Ref,
        receiving: bool,
        bytes: &[u8],
        summed: &SummedPlace,
        counts: &Counts,
    ) -> Option<Place>
        requires refers { Refers reference.now.node reference.now.subscripts.items self.now }
        requires room { IsRoomFor self.now counts.now }
        requires kept { KeepsOf self.now bytes.now counts.now }
        requires summed { IsSummedPlace self.now reference.now receiving summed.now }
        ensures found { IfSome result
            (λ p. IsFound self.now reference.now receiving bytes.now (Ok p)) }
        ensures fits { IfSome result (λ p. p.offset + p.length ≤ sum_of greatest_number self.now) }
    {
        // For `found`: the counts that are read are those that the reference needs, and counts that agree on them give it one place.
        needs_are_read();
        one_place();
        // For `fits`: an element that is there ends within the record's length,
        places_end_in_length();
        // and the layout is that of a record description, which is sound.
        let _ = self.greatest();
        records_are_sound();
        if !are_within(summed, counts.reach) {
            return None;
        }
        let found = summed_to(summed, self.own_sums(&counts.sums));
        Some(Place {
            offset: found.offset,
            length: found.length,
        })
    }
}
