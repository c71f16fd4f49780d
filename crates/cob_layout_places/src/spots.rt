//! Where the first elements of all entries stand, found in one walk.

ghost use Rattle.std.specs.Prelude.{◌≡◌, ◌++◌, ◌+◌, ◌≤◌, drop, length, slice_get, unwrap_or};
ghost use Rattle.cob_copybook_tree.specs.Forests.{entries_in};
ghost use Rattle.cob_copybook_tree.specs.Lengths.{sum_of};
ghost use Rattle.cob_copybook_tree.specs.Nodes.{forest, node, tree_of};
ghost use Rattle.cob_layout_places.specs.Lengths.{times, EntryFits};
ghost use Rattle.cob_layout_places.specs.Spots.{no_spot, spots_of};

use crate::lengths::times_of;
use crate::places::{begins_at, element_by, room_of};
use cob_copybook_tree::Node;

/// Where an entry stands: its first element, and how often it occurs.
#[derive(Clone, Copy, PartialEq, Eq)]
pub struct Spot {
    /// The bytes of the record in front of it.
    pub offset: u32,
    /// The bytes of one element.
    pub length: u32,
    /// How many elements there are.
    pub times: u32,
}

impl Spot {
    /// The spot of the entry with this number; where there is none, one of no bytes that never occurs.
    pub fn of(spots: &[Spot], number: usize) -> Spot
        ensures { result ≡ unwrap_or (slice_get spots.now number) no_spot }
    {
        match spots.get(number) {
            Some(spot) => *spot,
            None => Spot {
                offset: 0,
                length: 0,
                times: 0,
            },
        }
    }
}

/// Writes the spots of an entry that begins at `start`, be it a redefinition or not, and of those beneath it, in their order; the answer is how
/// many these are.
fn put_entry(entry: &Node, counts: &[u32], start: u32, spots: &mut [Spot]) -> usize
    requires fit { EntryFits start (node entry.now).top (node entry.now).beneath }
    requires room { 1 + entries_in (node entry.now).beneath ≤ length spots.old }
    ensures count { result ≡ 1 + entries_in (node entry.now).beneath }
    ensures spots { spots.new ≡ spots_of (times counts.now) (tree_of entry.now) start start
        ++ drop result spots.old }
{
    let mut next = 1;
    let mut at = start;
    let mut area = start;
    for child in entry.children.iter() {
        let begin = begins_at(&child.redefines, at, area);
        let count = put_entry(child, counts, begin, &mut spots[next..]);
        at += room_of(&child.redefines, spots[next].times * spots[next].length);
        area = begin;
        next += count;
    }
    spots[0] = Spot {
        offset: start,
        length: element_by(&entry.kind, at - start),
        times: times_of(entry, counts),
    };
    next
}

/// Writes the spots of an entry that begins at `start` and of those beneath it, in their order; the answer is how many these are.
pub fn put_spots(entry: &Node, counts: &[u32], start: u32, spots: &mut [Spot]) -> usize
    requires fit { EntryFits start (node entry.now).top (node entry.now).beneath }
    requires room { entries_in (tree_of entry.now) ≤ length spots.old }
    ensures count { result ≡ entries_in (tree_of entry.now) }
    ensures spots { spots.new ≡ spots_of (times counts.now) (tree_of entry.now) start start
        ++ drop result spots.old }
{
    put_entry(entry, counts, start, spots)
}
