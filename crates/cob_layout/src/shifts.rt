//! The spots of a record's entries by sums, in place of a walk over the record.
//!
//! The spot of each entry follows from the one that it has where the tables that vary have no element, its least spot: what stands behind a table is as
//! many bytes further as the table is longer than then, and what holds a table is as much longer. A table grows so where it varies, or where one that
//! varies stands beneath it. So one sum for each table that grows, in the order in which they end, and what each entry needs of these sums, give all
//! spots (`spots_of` of cob_layout_places).

ghost use Rattle.std.specs.Prelude.{◌≡◌, ◌∷◌, ◌++◌, ◌+◌, ◌-◌, ◌<◌, ◌≤◌, ◌^◌, ℕ, [], length, slice_index, take, IfOk, IsFalse, IsTrue};
ghost use Rattle.cob_copybook_tree.specs.Forests.{entries_in};
ghost use Rattle.cob_copybook_tree.specs.Nodes.{node, tree_of};
ghost use Rattle.cob_limits.specs.Limits.{longest_record};
ghost use Rattle.cob_layout_places.specs.Lengths.{times};
ghost use Rattle.cob_layout_places.specs.Spots.{spots_of};
ghost use Rattle.cob_layout.specs.Shifts.{AddsGrowth, CanAllGrow, CanGrow, CanShift, FitsSums, all_shifted, grow_in, growth_of, growths_from, next_sum, own_bytes, own_growth, shift_of, shifted_spot, shifts_from, sums_by, sums_of};

use crate::counts::{count_at, greatest_count};
use crate::layout::Layout;
use crate::spots::spot_at;
use cob_copybook::{Node, ResolvedOccurs};
use cob_layout_places::Spot;
use std::alloc::{AllocError, Global};

/// How the spot of an entry follows from the counts.
#[derive(Clone, Copy)]
pub(crate) struct Shift {
    /// How many tables that grow end before the entry begins.
    pub(crate) before: usize,
    /// How many of them end before its first element does: these, and those beneath it.
    pub(crate) through: usize,
    /// How often it occurs at most, where it varies, and else 0.
    pub(crate) most: u32,
    /// Whether it doesn't vary and none of them stands beneath it, so that its length and how often it occurs stay.
    pub(crate) only_moves: bool,
}

/// How a table grows with the counts.
#[derive(Clone, Copy)]
pub(crate) struct Growth {
    /// The number of its entry.
    pub(crate) number: usize,
    /// How many tables that grow end before it begins.
    pub(crate) before: usize,
    /// How often it occurs, where it doesn't vary, and else 0.
    pub(crate) times: u32,
    /// How often it occurs at most, where it varies, and else 0.
    pub(crate) most: u32,
    /// How long its element is while the tables that vary have none, where it varies, and else 0.
    pub(crate) bytes: u32,
}

/// The shift of an entry, where so many tables that grow end before it begins and before its first element ends, and it occurs so often at most.
fn shift_of(before: usize, through: usize, most: u32) -> Shift
    ensures { result ≡ shift_of before through most }
{
    Shift {
        before,
        through,
        most,
        only_moves: through == before && most == 0,
    }
}

/// Whether an entry grows, beneath which so many tables grow.
fn grows(occurs: ResolvedOccurs, many: usize) -> bool
    ensures yes { IsTrue result → own_growth occurs many ≡ 1 }
    ensures no { IsFalse result → own_growth occurs many ≡ 0 }
{
    match occurs {
        ResolvedOccurs::Once => false,
        ResolvedOccurs::Fixed(_) => many > 0,
        ResolvedOccurs::Varying { .. } => true,
    }
}

/// The bytes of an element of this size that no count gives, where the entry varies.
fn own_bytes(occurs: ResolvedOccurs, size: u32) -> u32
    ensures { result ≡ own_bytes occurs size }
{
    match occurs {
        ResolvedOccurs::Varying { .. } => size,
        ResolvedOccurs::Once | ResolvedOccurs::Fixed(_) => 0,
    }
}

/// The growth of an entry, where so many end before it begins.
fn growth_of(least: &[Spot], before: usize, entry: &Node) -> Growth
    ensures { result ≡ growth_of least.now before (node entry.now).top }
{
    let spot = spot_at(least, entry.number);
    Growth {
        number: entry.number,
        before,
        times: spot.times,
        most: greatest_count(entry.occurs),
        bytes: own_bytes(entry.occurs, spot.length),
    }
}

/// Adds the growth of an entry that grows, where so many end before it begins and before its first element ends; the answer is how many end before it
/// ends.
fn push_growth(
    entry: &Node,
    before: usize,
    through: usize,
    least: &[Spot],
    growths: &mut Vec<Growth>,
) -> Result<usize, AllocError>
    requires order { before ≤ through }
    requires small { through + own_growth (node entry.now).top.occurs (through - before) < 2 ^ 64 }
    ensures behind { IfOk result (λ behind. behind
        ≡ through + own_growth (node entry.now).top.occurs (through - before)) }
    ensures growths { IfOk result (λ _. AddsGrowth least.now before through (node entry.now).top
        growths.old.items growths.new.items) }
{
    if !grows(entry.occurs, through - before) {
        return Ok(through);
    }
    let growth = growth_of(least, before, entry);
    growths.push(growth)?;
    Ok(through + 1)
}

/// Adds the shifts of an entry and of those beneath it, in their order, and the growths of those that grow, those beneath an entry before it, where so
/// many end before it; the answer is how many end before it ends.
fn push_shifts(
    entry: &Node,
    before: usize,
    least: &[Spot],
    shifts: &mut Vec<Shift>,
    growths: &mut Vec<Growth>,
) -> Result<usize, AllocError>
    requires small { before + grow_in (tree_of entry.now) < 2 ^ 64 }
    ensures behind { IfOk result (λ behind. behind ≡ before + grow_in (tree_of entry.now)) }
    ensures shifts { IfOk result (λ _. shifts.new.items
        ≡ shifts.old.items ++ shifts_from before (tree_of entry.now)) }
    ensures growths { IfOk result (λ _. growths.new.items
        ≡ growths.old.items ++ growths_from least.now before (tree_of entry.now)) }
{
    let at = shifts.len();
    let most = greatest_count(entry.occurs);
    let first = shift_of(before, before, most);
    let mut through = before;
    shifts.push(first)?;
    for child in entry.children.iter() {
        through = push_shifts(child, through, least, shifts, growths)?;
    }
    let own = shift_of(before, through, most);
    shifts[at] = own;
    let behind = push_growth(entry, before, through, least, growths)?;
    Ok(behind)
}

/// Writes the shifts of the entries of a record, by the numbers of the entries, and the growths of those that grow, from its least spots.
///
/// # Errors
///
/// Where no memory is left.
pub(crate) fn put_shifts(
    root: &Node,
    least: &[Spot],
    shifts: &mut Vec<Shift>,
    growths: &mut Vec<Growth>,
) -> Result<(), AllocError>
    requires small { grow_in (tree_of root.now) < 2 ^ 64 }
    requires no_shifts { shifts.old.items ≡ [] }
    requires no_growths { growths.old.items ≡ [] }
    ensures shifts { IfOk result (λ _. shifts.new.items ≡ shifts_from 0 (tree_of root.now)) }
    ensures growths { IfOk result
        (λ _. growths.new.items ≡ growths_from least.now 0 (tree_of root.now)) }
{
    push_shifts(root, 0, least, shifts, growths)?;
    Ok(())
}

/// The sum behind a table that grows, from the sums up to the one with this number.
#[inline(always)]
fn next_sum(growth: Growth, counts: &[u32], sums: &[u32], last: usize) -> u32
    requires there { last < length sums.now }
    requires fit { CanGrow counts.now sums.now last growth }
    ensures { result ≡ next_sum counts.now sums.now last growth }
{
    let before = sums[growth.before];
    let count = count_at(counts, growth.number);
    let often = growth.times.max(count.min(growth.most));
    before + often * (growth.bytes + sums[last] - before)
}

/// Writes the sums before and behind the tables that grow, under these counts.
#[inline(always)]
fn put_sums(growths: &[Growth], counts: &[u32], sums: &mut [u32])
    requires room { length growths.now < length sums.old }
    requires fit { CanAllGrow counts.now (sums_by counts.now growths.now (0 ∷ []) 0) 0
        growths.now }
    ensures { take (length growths.now + 1) sums.new
        ≡ sums_by counts.now growths.now (0 ∷ []) 0 }
{
    sums[0] = 0;
    if let Some((growth, others)) = growths.split_first() {
        if others.is_empty() {
            let sum = next_sum(*growth, counts, sums, 0);
            sums[1] = sum;
            return;
        }
    }
    for (index, growth) in growths.iter().enumerate() {
        let sum = next_sum(*growth, counts, sums, index);
        sums[index + 1] = sum;
    }
}

/// The spot of an entry with this count, from its least one.
#[inline(always)]
pub(crate) fn shifted(shift: Shift, least: Spot, sums: &[u32], count: u32) -> Spot
    requires within { FitsSums sums.now shift }
    requires small { least.offset + least.length ≤ longest_record }
    requires low { (k : ℕ) → slice_index sums.now k ≤ longest_record }
    ensures { result ≡ shifted_spot sums.now count shift least }
{
    let before = sums[shift.before];
    let offset = least.offset + before;
    if shift.only_moves {
        return Spot {
            offset,
            length: least.length,
            times: least.times,
        };
    }
    Spot {
        offset,
        length: least.length + sums[shift.through] - before,
        times: least.times.max(count.min(shift.most)),
    }
}

/// Writes the spots of all entries from the least ones.
fn put_shifted(shifts: &[Shift], least: &[Spot], sums: &[u32], counts: &[u32], spots: &mut [Spot])
    requires by { CanShift sums.now shifts.now least.now }
    requires counts { length counts.now ≡ length shifts.now }
    requires room { length spots.old ≡ length shifts.now }
    ensures { spots.new ≡ all_shifted sums.now counts.now 0 shifts.now least.now }
{
    for (index, shift) in shifts.iter().enumerate() {
        spots[index] = shifted(*shift, least[index], sums, counts[index]);
    }
}

impl Layout {
    /// Writes the sums of the tables that grow under these counts: before all of them, and behind each.
    #[inline(always)]
    pub(crate) fn put_sums(&self, counts: &[u32], sums: &mut [u32])
        requires room { length sums.old ≡ entries_in self.now + 1 }
        ensures { take (grow_in self.now + 1) sums.new ≡ sums_of self.now counts.now }
    {
        put_sums(&self.growths, counts, sums);
    }

    /// The sums that were written.
    #[inline(always)]
    pub(crate) fn own_sums<'a>(&self, sums: &'a [u32]) -> &'a [u32]
        requires room { length sums.now ≡ entries_in self.now + 1 }
        ensures { result.now ≡ take (grow_in self.now + 1) sums.now }
    {
        &sums[..self.growths.len() + 1]
    }

    /// Writes the spots of the entries under these counts; the sums are room that it needs.
    fn put_spots(&self, counts: &[u32], sums: &mut [u32], spots: &mut [Spot])
        requires counts { length counts.now ≡ entries_in self.now }
        requires sums { length sums.old ≡ entries_in self.now + 1 }
        requires room { length spots.old ≡ entries_in self.now }
        ensures { spots.new ≡ spots_of (times counts.now) self.now 0 0 }
    {
        self.put_sums(counts, sums);
        let sums = self.own_sums(sums);
        put_shifted(&self.shifts, &self.least, sums, counts, spots);
    }

    /// Lets a record stand under the next counts, in place of those that were taken; the sums are room that it needs.
    pub(crate) fn stand_under(
        &self,
        next: &[u32],
        taken: &mut [u32],
        sums: &mut [u32],
        spots: &mut [Spot],
    )
        requires next { length next.now ≡ entries_in self.now }
        requires counts { length taken.old ≡ length next.now }
        requires sums { length sums.old ≡ entries_in self.now + 1 }
        requires room { length spots.old ≡ entries_in self.now }
        ensures counts { taken.new ≡ next.now }
        ensures spots { spots.new ≡ spots_of (times next.now) self.now 0 0 }
    {
        taken.copy_from_slice(next);
        self.put_spots(next, sums, spots);
    }
}
