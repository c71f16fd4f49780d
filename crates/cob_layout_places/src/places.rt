ghost use Rattle.std.specs.Prelude.{◌≡◌, ℕ, ◌+◌, ◌*◌, ◌<◌, ◌≤◌, Bool, List, length, Option, Some, None, IfOk, IfErr};
ghost use Rattle.cob_copybook_tree.specs.Nodes.{node, tree_of};
ghost use Rattle.cob_copybook_tree.specs.Lengths.{element_length, greatest_number, greatest_number_by, length_by_kind, own_length, whole_length};
ghost use Rattle.cob_layout_places.specs.Lengths.{times, EntryFits, MayOccur};
ghost use Rattle.cob_limits.specs.Limits.{longest_record};
ghost use Rattle.cob_layout_places.specs.Places.{also, begins, place_of, is_table, is_there, later, skipped};

use crate::lengths::{element_of, times_of};
use cob_copybook_tree::{Kind, Name, Node, ResolvedOccurs};

/// Where an element stands, in bytes from the start of the record, and whether it is one of those that are there.
#[derive(Clone, Copy, PartialEq, Eq)]
pub struct Found {
    pub offset: u32,
    pub length: u32,
    pub within: bool,
}

/// The elements before the one that is asked for, whether that is there, and the other subscripts.
fn step<'a>(occurs: ResolvedOccurs, times: u32, subscripts: &'a [u32]) -> (u32, bool, &'a [u32])
    ensures skipped { result.0 ≡ skipped (is_table occurs)
        (greatest_number_by occurs) subscripts.now }
    ensures there { result.1 ≡ is_there (is_table occurs) times subscripts.now }
    ensures later { result.2.now ≡ later (is_table occurs) subscripts.now }
{
    let most = match occurs {
        ResolvedOccurs::Once => return (0, true, subscripts),
        ResolvedOccurs::Fixed(most) | ResolvedOccurs::Varying { most, .. } => most,
    };
    match subscripts.split_first() {
        Some((first, rest)) => {
            let skipped = first.saturating_sub(1).min(most.saturating_sub(1));
            (skipped, *first <= times, rest)
        }
        None => (0, true, subscripts),
    }
}

/// A place under another table, whose element is there or isn't.
fn also_there(there: bool, found: Found) -> Found
    ensures { Some result ≡ also there (Some found) }
{
    Found {
        offset: found.offset,
        length: found.length,
        within: there && found.within,
    }
}

/// Where an entry begins: a redefinition where its area does.
pub(crate) fn begins_at(redefines: &Option<Name>, at: u32, area: u32) -> u32
    ensures { result ≡ begins redefines.now at area }
{
    match redefines {
        None => at,
        Some(_) => area,
    }
}

/// The room of an entry of this length: a redefinition takes none of its own.
pub(crate) fn room_of(redefines: &Option<Name>, length: u32) -> u32
    ensures { result ≡ own_length redefines.now length }
{
    match redefines {
        None => length,
        Some(_) => 0,
    }
}

/// Where the elements of an entry that starts there go on behind those that are skipped.
fn behind_skipped(entry: &Node, counts: &[u32], start: u32, skipped: u32) -> u32
    requires possible { MayOccur (tree_of entry.now) }
    requires small { whole_length greatest_number (node entry.now).top (node entry.now).beneath ≤
        longest_record }
    requires room { start + skipped * element_length (times counts.now) (node entry.now).top
        (node entry.now).beneath ≤ longest_record }
    ensures { result ≡ start + skipped * element_length (times counts.now) (node entry.now).top
        (node entry.now).beneath }
{
    if skipped == 0 {
        return start;
    }
    start + skipped * element_of(entry, counts)
}

/// The length of one element of an entry of this kind, where those beneath it have this length.
pub(crate) fn element_by(kind: &Kind, sum: u32) -> u32
    ensures { result ≡ length_by_kind kind.now sum }
{
    match kind {
        Kind::Item(item) => u32::from(item.size()),
        Kind::Group => sum,
    }
}

/// Where the entry with this number stands in an entry that begins at `start`; or the length of one element of this entry, where it neither
/// is that one nor holds it, so that one walk looks for an entry and measures those before it.
fn seek_or_measure(
    entry: &Node,
    number: usize,
    counts: &[u32],
    start: u32,
    subscripts: &[u32],
) -> Result<Found, u32>
    requires { EntryFits start (node entry.now).top (node entry.now).beneath }
    ensures found { IfOk result (λ found. place_of (times counts.now) number
        (tree_of entry.now) start start subscripts.now ≡ Some found) }
    ensures none { IfErr result (λ _. place_of (times counts.now) number
        (tree_of entry.now) start start subscripts.now ≡ None) }
    ensures length { IfErr result (λ length. length ≡ element_length (times counts.now)
        (node entry.now).top (node entry.now).beneath) }
{
    let (skipped, within, inner) = step(entry.occurs, times_of(entry, counts), subscripts);
    let offset = behind_skipped(entry, counts, start, skipped);
    if entry.number == number {
        return Ok(Found {
            offset,
            length: element_of(entry, counts),
            within,
        });
    }
    let mut at = offset;
    let mut area = offset;
    for child in entry.children.iter() {
        let begin = begins_at(&child.redefines, at, area);
        let length = match seek_or_measure(child, number, counts, begin, inner) {
            Ok(found) => return Ok(also_there(within, found)),
            Err(length) => length,
        };
        at += room_of(&child.redefines, times_of(child, counts) * length);
        area = begin;
    }
    let sum = at - offset;
    Err(element_by(&entry.kind, sum))
}

/// Where the entry with this number stands in an entry that begins at `start`, under these counts and with these subscripts.
///
/// The subscripts are those of the tables that hold the entry or are it, the outermost first, from 1; where they end before the tables do,
/// the first element is meant.
pub fn seek(
    entry: &Node,
    number: usize,
    counts: &[u32],
    start: u32,
    subscripts: &[u32],
) -> Option<Found>
    requires { EntryFits start (node entry.now).top (node entry.now).beneath }
    ensures { result ≡ place_of (times counts.now) number
        (tree_of entry.now) start start subscripts.now }
{
    seek_or_measure(entry, number, counts, start, subscripts).ok()
}
