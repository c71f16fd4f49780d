//! What a reference to an entry asks and where the entry stands by the sums, side by side, so that one whose counts are kept is found at once.

ghost use Rattle.std.specs.Prelude.{◌≡◌, ◌&&◌, ◌<◌, ◌≤◌, false, length, slice_index_or, IfOk, IsTrue};
ghost use Rattle.cob_layout.specs.Footings.{footing_of, shift_at, AreFootings};

use crate::shifts::Shift;
use crate::spots::spot_at;
use crate::ways::{Way, end_of_table, is_last_receiver};
use cob_layout_places::Spot;
use std::alloc::{AllocError, Global};

/// What the place of an entry rests on.
#[derive(Clone, Copy)]
pub(crate) struct Footing {
    /// A reference to it needs the counts of the tables below this number,
    pub(crate) behind: usize,
    /// but may be spared some where it receives.
    pub(crate) spares: bool,
    /// Where it stands while the tables that vary have no element.
    pub(crate) least: Spot,
    /// How its spot follows from that one.
    pub(crate) shift: Shift,
}

/// The shift of an entry that there isn't.
const STAYS: Shift = Shift {
    before: 0,
    through: 0,
    most: 0,
    only_moves: false,
};

/// The shift of an entry.
pub(crate) fn shift_at(shifts: &[Shift], number: usize) -> Shift
    ensures { result ≡ shift_at shifts.now number }
{
    match shifts.get(number) {
        Some(shift) => *shift,
        None => STAYS,
    }
}

/// What the place of the entry with this number rests on.
fn footing_of(ways: &[Way], shifts: &[Shift], least: &[Spot], number: usize) -> Footing
    ensures { result ≡ footing_of ways.now shifts.now least.now number }
{
    let behind = end_of_table(ways, number);
    let last = is_last_receiver(ways, number, true);
    let shift = shift_at(shifts, number);
    Footing {
        behind,
        spares: last && behind.saturating_sub(number) > 1,
        least: spot_at(least, number),
        shift,
    }
}

/// What the places of the entries of a record rest on, by the numbers of the entries.
///
/// # Errors
///
/// Where no memory is left.
pub(crate) fn footings(
    alloc: Global,
    ways: &[Way],
    shifts: &[Shift],
    least: &[Spot],
) -> Result<Vec<Footing>, AllocError>
    ensures { IfOk result (λ all. AreFootings ways.now shifts.now least.now all.items) }
{
    let mut all = Vec::with_capacity(alloc, ways.len())?;
    for number in 0..ways.len() {
        let footing = footing_of(ways, shifts, least, number);
        all.push(footing)?;
    }
    Ok(all)
}

/// Whether a reference to an entry, which receives or not, needs just the counts of the tables below a number that isn't above this reach.
#[inline(always)]
pub(crate) fn is_within(footing: Footing, receiving: bool, reach: usize) -> bool
    ensures behind { IsTrue result → footing.behind ≤ reach }
    ensures spares { IsTrue result → (receiving && footing.spares) ≡ false }
{
    footing.behind <= reach && !(receiving && footing.spares)
}

/// What the place of this entry rests on.
#[inline(always)]
pub(crate) fn footing_at(footings: &[Footing], number: usize) -> Footing
    requires { number < length footings.now }
    ensures { result ≡ slice_index_or footings.now number result }
{
    footings[number]
}
