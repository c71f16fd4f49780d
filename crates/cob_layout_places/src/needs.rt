ghost use Rattle.std.specs.Prelude.{◌≡◌, ◌==◌, ◌&&◌, false, ℕ, ◌+◌, ◌<◌, ◌≤◌, Bool, List, length, Ok, Err, OnOk, IfErr};
ghost use Rattle.cob_copybook_tree.specs.Forests.{entries_in};
ghost use Rattle.cob_copybook_tree.specs.Nodes.{forest, node, tree_of};
ghost use Rattle.cob_layout_places.specs.Lengths.{EntryFits};
ghost use Rattle.cob_layout_places.specs.Places.{is_table};
ghost use Rattle.cob_layout_places.specs.Cover.{AreNumbered};
ghost use Rattle.cob_layout_places.specs.Counts.{AreCountable, AreNumberedBelow, Taken};
ghost use Rattle.cob_layout_places.specs.Needs.{TakesNeeded, greatest, is_needed, needed_tables, number_behind};

use crate::counts::{CountFault, count_of};
use crate::varying::Table;
use cob_copybook_tree::{Node, ResolvedOccurs};

/// Whether an entry that occurs so is a table.
pub fn is_table(occurs: ResolvedOccurs) -> bool
    ensures { result ≡ is_table occurs }
{
    !matches!(occurs, ResolvedOccurs::Once)
}

/// The number behind the last entry beneath the one with this number, or with `tables` beneath the outermost table that holds it.
///
/// The number is that of this entry or of one beneath it, and `end` is the number behind the last one beneath it.
fn number_behind(entry: &Node, end: usize, number: usize, tables: bool) -> usize
    requires numbered { AreNumbered (node entry.now).top.number (tree_of entry.now) }
    requires end { end ≡ (node entry.now).top.number + 1 + entries_in (node entry.now).beneath }
    requires inside { number < end }
    ensures { result ≡ number_behind tables number (tree_of entry.now) }
{
    if (tables && is_table(entry.occurs)) || entry.number == number {
        return end;
    }
    let mut at = 0;
    for child in entry.children.iter() {
        at += 1;
        let behind = match entry.children.get(at) {
            Some(next) => next.number,
            None => end,
        };
        if number < behind {
            return number_behind(child, behind, number, tables);
        }
    }
    0
}

/// Whether the entry with this number receives, and no later entry outside it follows.
fn is_last_receiver(root: &Node, end: usize, number: usize, receiving: bool) -> bool
    requires numbered { AreNumbered (node root.now).top.number (tree_of root.now) }
    requires end { end ≡ (node root.now).top.number + 1 + entries_in (node root.now).beneath }
    requires inside { number < end }
    ensures { result ≡ (receiving && (number_behind false number (tree_of root.now) == end)) }
{
    receiving && number_behind(root, end, number, false) == end
}

/// Whether a table's count is needed below this number, for the last entry of a record that receives or not.
pub fn is_needed(behind: usize, last: bool, number: usize, table: Table) -> bool
    ensures { result ≡ is_needed behind last number table }
{
    let spared = last && number < table.number && number < table.count;
    table.number < behind && !spared
}

/// Puts the greatest number of each table into its place.
fn begin_with_greatest(tables: &[Table], counts: &mut [u32])
    requires { AreNumberedBelow (length counts.old) tables.now }
    ensures value { counts.new ≡ greatest tables.now counts.old }
    ensures room { length counts.new ≡ length counts.old }
{
    for table in tables {
        counts[table.number] = table.most;
    }
}

/// Takes the counts of a storage that the place of an entry needs, each into its table's place; the other tables have their greatest number.
///
/// The counts have a place for each entry of the record. An entry that is `receiving` and that no later entry outside it follows is spared the
/// counts that stand beneath it with their tables: these are taken as the greatest.
///
/// # Errors
///
/// The first count that is needed and gives no number from its table's least to its greatest one, or that ends past the bytes.
pub fn take_needed(
    root: &Node,
    tables: &[Table],
    number: usize,
    receiving: bool,
    bytes: &[u8],
    counts: &mut [u32],
) -> Result<(), CountFault>
    requires fit { EntryFits 0 (node root.now).top (node root.now).beneath }
    requires numbered { AreNumbered 0 (tree_of root.now) }
    requires countable { AreCountable (tree_of root.now) tables.now }
    requires slots { AreNumberedBelow (length counts.old) tables.now }
    requires all { length counts.old ≡ entries_in (tree_of root.now) }
    requires there { number < length counts.old }
    ensures ok { OnOk result (TakesNeeded
        (tree_of root.now) bytes.now number receiving tables.now counts.old (Ok counts.new)) }
    ensures err { IfErr result (λ e. TakesNeeded
        (tree_of root.now) bytes.now number receiving tables.now counts.old (Err e)) }
    ensures room { length counts.new ≡ length counts.old }
{
    let end = counts.len();
    let behind = number_behind(root, end, number, true);
    let last = is_last_receiver(root, end, number, receiving);
    begin_with_greatest(tables, counts);
    for table in tables {
        if is_needed(behind, last, number, *table) {
            counts[table.number] = count_of(root, *table, bytes, counts)?;
        }
    }
    Ok(())
}
