ghost use Rattle.std.specs.Prelude.{◌≡◌, ◌++◌, List, length, IfOk, IfSome, IfNone, Some, None};
ghost use Rattle.cob_copybook_tree.specs.Nodes.{node, tree_of};
ghost use Rattle.cob_layout_places.specs.Counts.{kind_in, table_of, tables_of};

use cob_copybook_tree::{Kind, Node, ResolvedOccurs};
use std::alloc::{AllocError, Global};

/// A table that varies.
#[derive(Clone, Copy, PartialEq, Eq)]
pub struct Table {
    /// The number of its entry.
    pub number: usize,
    /// How often it occurs at least, and at most.
    pub least: u32,
    pub most: u32,
    /// The number of the entry of its count.
    pub count: usize,
}

/// Adds an entry that is a table that varies.
fn push_table(entry: &Node, tables: &mut Vec<Table>) -> Result<(), AllocError>
    ensures { IfOk result (λ _. tables.new.items
        ≡ tables.old.items ++ table_of (node entry.now).top.occurs (node entry.now).top.number) }
{
    if let ResolvedOccurs::Varying { least, most, count } = entry.occurs {
        tables.push(Table {
            number: entry.number,
            least,
            most,
            count,
        })?;
    }
    Ok(())
}

/// Adds the tables that vary among an entry and those beneath it.
fn push_tables(entry: &Node, tables: &mut Vec<Table>) -> Result<(), AllocError>
    ensures { IfOk result
        (λ _. tables.new.items ≡ tables.old.items ++ tables_of (tree_of entry.now)) }
{
    push_table(entry, tables)?;
    for child in entry.children.iter() {
        push_tables(child, tables)?;
    }
    Ok(())
}

/// The tables of a record that vary, in the order of the entries.
///
/// # Errors
///
/// Where no memory is left.
pub fn tables(alloc: Global, root: &Node) -> Result<Vec<Table>, AllocError>
    ensures { IfOk result (λ tables. tables.items ≡ tables_of (tree_of root.now)) }
{
    let mut tables = Vec::new(alloc);
    push_tables(root, &mut tables)?;
    Ok(tables)
}

/// What the entry with this number describes, if it is one of those beneath this entry, or this one.
pub(crate) fn kind_with<'a>(entry: &'a Node, number: usize) -> Option<&'a Kind>
    ensures found { IfSome result (λ kind. kind_in number (tree_of entry.now) ≡ Some kind.now) }
    ensures none { IfNone result (kind_in number (tree_of entry.now) ≡ None) }
{
    if entry.number == number {
        return Some(&entry.kind);
    }
    for child in entry.children.iter() {
        if let Some(kind) = kind_with(child, number) {
            return Some(kind);
        }
    }
    None
}
