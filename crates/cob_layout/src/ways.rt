//! What is known of the entries of a record whatever its counts: the tables that hold them, and where those beneath them end.

ghost use Rattle.std.specs.Prelude.{◌≡◌, ◌==◌, ◌&&◌, ◌+◌, ◌++◌, ◌≤◌, [], length, map, IfOk};
ghost use Rattle.cob_copybook_tree.specs.Forests.{entries_in};
ghost use Rattle.cob_copybook_tree.specs.Nodes.{node, tree_of};
ghost use Rattle.cob_layout_places.specs.Cover.{AreNumbered};
ghost use Rattle.cob_layout.specs.Sound.{own_dimension, AreNested};
ghost use Rattle.cob_limits.specs.Limits.{most_dimensions};
ghost use Rattle.cob_layout.specs.Ways.{end_of_table, held, held_at, held_in, own_table};

use arrayvec::ArrayVec;
use cob_copybook::Node;
use cob_layout_places::is_table;
use cob_limits::MAX_SUBSCRIPTS;
use std::alloc::{AllocError, Global};

/// The numbers of tables, one within the other, the outermost first.
pub type Tables = ArrayVec<usize, MAX_SUBSCRIPTS>;

/// What is known of an entry whatever the counts.
#[derive(Drop)]
pub(crate) struct Way {
    /// The tables that hold the entry or that it is.
    pub(crate) tables: Tables,
    /// The number behind the last entry beneath it.
    pub(crate) end: usize,
}

/// These tables, and the entry itself where it is one.
pub fn with_own(over: &[usize], entry: &Node) -> Tables
    requires nested { length over.now + own_dimension (node entry.now).top.occurs
        ≤ most_dimensions }
    ensures { result.items
        ≡ over.now ++ own_table (node entry.now).top.occurs (node entry.now).top.number }
{
    let mut tables = ArrayVec::new();
    for table in over {
        tables.push(*table);
    }
    if is_table(entry.occurs) {
        tables.push(entry.number);
    }
    tables
}

/// Adds the ways of an entry, which stands in these tables, and of those beneath it, in their order; `end` is the number behind the last one.
fn push_ways(
    entry: &Node,
    end: usize,
    over: &[usize],
    ways: &mut Vec<Way>,
) -> Result<(), AllocError>
    requires numbered { AreNumbered (node entry.now).top.number (tree_of entry.now) }
    requires end { end ≡ (node entry.now).top.number + 1 + entries_in (node entry.now).beneath }
    requires nested { AreNested (length over.now) (tree_of entry.now) }
    ensures { IfOk result (λ _. map held ways.new.items
        ≡ map held ways.old.items ++ held_in over.now (tree_of entry.now)) }
{
    let tables = with_own(over, entry);
    let within = with_own(over, entry);
    ways.push(Way { tables, end })?;
    let mut at = 0;
    for child in entry.children.iter() {
        at += 1;
        let behind = match entry.children.get(at) {
            Some(next) => next.number,
            None => end,
        };
        push_ways(child, behind, within.as_slice(), ways)?;
    }
    Ok(())
}

/// The ways of the entries of a record, by the numbers of the entries; `end` is how many these are.
///
/// # Errors
///
/// Where no memory is left.
pub(crate) fn ways(alloc: Global, root: &Node, end: usize) -> Result<Vec<Way>, AllocError>
    requires numbered { AreNumbered 0 (tree_of root.now) }
    requires end { end ≡ entries_in (tree_of root.now) }
    requires nested { AreNested 0 (tree_of root.now) }
    ensures { IfOk result (λ ways. map held ways.items ≡ held_in [] (tree_of root.now)) }
{
    let mut ways = Vec::new(alloc);
    push_ways(root, end, &[], &mut ways)?;
    Ok(ways)
}

/// The tables that hold an entry or that it is, the outermost first.
pub(crate) fn tables_at(ways: &[Way], number: usize) -> &[usize]
    ensures { result.now ≡ (held_at (map held ways.now) number).tables }
{
    match ways.get(number) {
        Some(way) => way.tables.as_slice(),
        None => &[],
    }
}

/// The number behind the last entry beneath an entry.
fn end_at(ways: &[Way], number: usize) -> usize
    ensures { result ≡ (held_at (map held ways.now) number).end }
{
    match ways.get(number) {
        Some(way) => way.end,
        None => 0,
    }
}

/// The number behind the last entry beneath the outermost table that holds an entry or that it is, else beneath the entry.
pub(crate) fn end_of_table(ways: &[Way], number: usize) -> usize
    ensures { result ≡ end_of_table (map held ways.now) number }
{
    match tables_at(ways, number).first() {
        Some(table) => end_at(ways, *table),
        None => end_at(ways, number),
    }
}

/// Whether an entry receives, and no later one outside it follows.
pub(crate) fn is_last_receiver(ways: &[Way], number: usize, receiving: bool) -> bool
    ensures { result ≡ (receiving
        && ((held_at (map held ways.now) number).end == length ways.now)) }
{
    receiving && end_at(ways, number) == ways.len()
}
