//! The named elementary items of a record.

ghost use Rattle.std.specs.Prelude.{◌≡◌, ◌++◌, ◌+◌, ◌≤◌, [], length, map, IfOk};
ghost use Rattle.cob_copybook_tree.specs.Nodes.{node, tree_of};
ghost use Rattle.cob_limits.specs.Limits.{most_dimensions};
ghost use Rattle.cob_layout.specs.Sound.{own_dimension, AreNested};
ghost use Rattle.cob_report_show.specs.Elements.{named_item, named_in, own_of};

use cob_layout::{Item, Kind, Name, Node, Tables, with_own};
use std::alloc::{AllocError, Global};

/// A named elementary item.
#[derive(Drop)]
pub struct ListedItem {
    /// The number of its entry.
    pub number: usize,
    pub name: Name,
    pub item: Item,
    /// The tables that hold it or that it is.
    pub tables: Tables,
}

/// Adds an entry where it is a named elementary item; it stands in these tables.
fn push_own(entry: &Node, over: &[usize], items: &mut Vec<ListedItem>) -> Result<(), AllocError>
    requires { length over.now + own_dimension (node entry.now).top.occurs ≤ most_dimensions }
    ensures { IfOk result (λ _. map named_item items.new.items
        ≡ map named_item items.old.items ++ own_of over.now (node entry.now).top) }
{
    if let (Kind::Item(item), Some(name)) = (&entry.kind, &entry.name) {
        items.push(ListedItem {
            number: entry.number,
            name: name.clone(),
            item: item.clone(),
            tables: with_own(over, entry),
        })?;
    }
    Ok(())
}

/// Adds the named elementary items among an entry, which stands in these tables, and those beneath it, in their order.
fn push_named(entry: &Node, over: &[usize], items: &mut Vec<ListedItem>) -> Result<(), AllocError>
    requires { AreNested (length over.now) (tree_of entry.now) }
    ensures { IfOk result (λ _. map named_item items.new.items
        ≡ map named_item items.old.items ++ named_in over.now (tree_of entry.now)) }
{
    let within = with_own(over, entry);
    push_own(entry, over, items)?;
    for child in entry.children.iter() {
        push_named(child, within.as_slice(), items)?;
    }
    Ok(())
}

/// The named elementary items of a record, in the order of its entries.
///
/// # Errors
///
/// Where no memory is left.
pub(crate) fn named_items(alloc: Global, root: &Node) -> Result<Vec<ListedItem>, AllocError>
    requires { AreNested 0 (tree_of root.now) }
    ensures { IfOk result (λ items. map named_item items.items ≡ named_in [] (tree_of root.now)) }
{
    let mut items = Vec::new(alloc);
    push_named(root, &[], &mut items)?;
    Ok(items)
}
