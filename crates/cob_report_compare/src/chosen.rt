//! Which items of a record are compared.

ghost use Rattle.std.specs.Prelude.{◌≡◌, ◌++◌, ◌+◌, ◌≤◌, [], length, map, IfOk};
ghost use Rattle.cob_copybook_tree.specs.Nodes.{node, tree_of};
ghost use Rattle.cob_limits.specs.Limits.{most_dimensions};
ghost use Rattle.cob_layout.specs.Sound.{own_dimension, AreNested};
ghost use Rattle.cob_report_show.specs.Elements.{named_item, own_of};
ghost use Rattle.cob_report_compare.specs.Chosen.{compared_among, compared_in, counts_of_tables, is_exempt, is_one_of};

use cob_layout::{Kind, Layout, Node, records_are_sound, tables, with_own};
use cob_layout_places::Table;
use cob_report_show::ListedItem;
use std::alloc::{AllocError, Global};

/// What decides which items are compared.
#[derive(Clone, Copy)]
struct Choice<'a> {
    /// The numbers of the entries that are ignored.
    ignored: &'a [usize],
    /// The tables that vary.
    tables: &'a [Table],
}

/// Whether the entry with this number counts one of these tables.
fn is_count(tables: &[Table], number: usize) -> bool
    ensures { result ≡ is_one_of (counts_of_tables tables.now) number }
{
    for table in tables {
        if table.count == number {
            return true;
        }
    }
    false
}

/// Whether an entry is exempt, with all beneath it: it redefines another one or is ignored.
fn is_exempt(ignored: &[usize], entry: &Node) -> bool
    ensures { result ≡ is_exempt ignored.now (node entry.now).top }
{
    entry.redefines.is_some() || ignored.contains(&entry.number)
}

/// Adds an entry where it is a named elementary item; it stands in these tables.
fn push_own(entry: &Node, over: &[usize], items: &mut Vec<ListedItem>) -> Result<(), AllocError>
    requires { length over.now + own_dimension (node entry.now).top.occurs ≤ most_dimensions }
    ensures { IfOk result (λ _. map named_item items.new.items
        ≡ map named_item items.old.items ++ own_of over.now (node entry.now).top) }
{
    if let (Kind::Item(item), Some(name)) = (&entry.kind, &entry.name) {
        items.push(ListedItem {
            number: entry.number,
            name: name.clone(),
            item: item.clone(),
            tables: with_own(over, entry),
        })?;
    }
    Ok(())
}

/// Adds the items that are compared among an entry, which stands in these tables, and those beneath it. It stands beneath one that is exempt, or not.
fn push_compared(
    choice: Choice,
    entry: &Node,
    exempt: bool,
    over: &[usize],
    items: &mut Vec<ListedItem>,
) -> Result<(), AllocError>
    requires { AreNested (length over.now) (tree_of entry.now) }
    ensures { IfOk result (λ _. map named_item items.new.items
        ≡ map named_item items.old.items ++ compared_among choice.entry.ignored.now
        (counts_of_tables choice.entry.tables.now) exempt over.now (tree_of entry.now)) }
{
    let exempt = exempt || is_exempt(choice.ignored, entry);
    let within = with_own(over, entry);
    if !exempt || is_count(choice.tables, entry.number) {
        push_own(entry, over, items)?;
    }
    for child in entry.children.iter() {
        push_compared(choice, child, exempt, within.as_slice(), items)?;
    }
    Ok(())
}

/// The items of a record that are compared, in the order of its entries: its named elementary items that stand in no redefinition and in no entry that is
/// ignored, and all that count a table. An entry that is ignored is told by its number, and all beneath it is ignored too.
///
/// # Errors
///
/// Where no memory is left.
pub fn compared_items(
    alloc: Global,
    layout: &Layout,
    ignored: &[usize],
) -> Result<Vec<ListedItem>, AllocError>
    ensures items { IfOk result
        (λ items. map named_item items.items ≡ compared_in ignored.now layout.now) }
{
    // The layout is that of a record description, which is sound: no more than seven tables stand within one another.
    records_are_sound();
    let _ = layout.greatest();
    let tables = tables(alloc, layout.root())?;
    let choice = Choice {
        ignored,
        tables: &tables,
    };
    let mut items = Vec::new(alloc);
    push_compared(choice, layout.root(), false, &[], &mut items)?;
    Ok(items)
}
