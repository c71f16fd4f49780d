//! Whether two records are one.

ghost use Rattle.std.specs.Prelude.{◌≡◌, None};
ghost use Rattle.std.specs.Bool.{Decides};
ghost use Rattle.cob_copybook_tree.specs.Nodes.{forest, resolved_entry, tree_of};
ghost use Rattle.cob_copybook_tree.specs.declared.node.Node.TheViews.{out-Node};
ghost use Rattle.cob_back_moves.specs.Same.{told_name, IsSameRecord};

use crate::same_parts::{is_same_kind, is_same_name, is_same_number_of, is_same_value};
use cob_copybook_tree::{Kind, Node};

/// Whether two entries by themselves are one, but for their names.
fn is_same_but_name(entry: &Node, other: &Node) -> bool
    ensures { Decides result (record (resolved_entry (out-Node entry.now)) { name = None }
        ≡ record (resolved_entry (out-Node other.now)) { name = None }) }
{
    entry.number == other.number
        && entry.level == other.level
        && is_same_kind(&entry.kind, &other.kind)
        && is_same_number_of(entry.occurs, other.occurs)
        && is_same_name(&entry.redefines, &other.redefines)
        && is_same_value(&entry.value, &other.value)
}

/// Whether two entries with those beneath them are one.
#[cycle(entries)]
fn is_same_entry(entry: &Node, other: &Node) -> bool
    ensures { Decides result (tree_of entry.now ≡ tree_of other.now) }
{
    if !is_same_name(&entry.name, &other.name) {
        return false;
    }
    if !is_same_but_name(entry, other) {
        return false;
    }
    are_same_entries(entry.children.as_slice(), other.children.as_slice())
}

/// Whether entries side by side, with those beneath them, are one list.
#[cycle(entries)]
fn are_same_entries(entries: &[Node], others: &[Node]) -> bool
    ensures { Decides result (forest entries.now ≡ forest others.now) }
{
    let mut rest = others;
    for entry in entries {
        let Some((other, after)) = rest.split_first() else {
            return false;
        };
        if !is_same_entry(entry, other) {
            return false;
        }
        rest = after;
    }
    rest.is_empty()
}

/// Whether what two records' names tell is the same: nothing of a group's, and of an item's only whether there is one.
fn is_same_told_name(entry: &Node, other: &Node) -> bool
    requires { (out-Node entry.now).kind ≡ (out-Node other.now).kind }
    ensures { Decides result (told_name (out-Node entry.now).kind (out-Node entry.now).name
        ≡ told_name (out-Node other.now).kind (out-Node other.now).name) }
{
    match &entry.kind {
        Kind::Group => true,
        Kind::Item(_) => entry.name.is_some() == other.name.is_some(),
    }
}

/// Whether two records are one, but for the record's own name: the same entries, with the same names and clauses. It takes no memory.
pub fn is_same_record(entry: &Node, other: &Node) -> bool
    ensures { Decides result (IsSameRecord (tree_of entry.now) (tree_of other.now)) }
{
    if !is_same_but_name(entry, other) {
        return false;
    }
    if !is_same_told_name(entry, other) {
        return false;
    }
    are_same_entries(entry.children.as_slice(), other.children.as_slice())
}
