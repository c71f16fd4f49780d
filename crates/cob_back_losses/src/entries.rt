//! Entries by their numbers.

ghost use Rattle.std.specs.Prelude.{◌≡◌, IfNone, IfSome, None, Some};
ghost use Rattle.cob_copybook_tree.specs.Nodes.{node, tree_of};
ghost use Rattle.cob_back_losses.specs.Moved.{entry_in};

use cob_copybook_tree::Node;

/// The entry with this number, of this one and those beneath it.
pub(crate) fn entry_in(entry: &Node, number: usize) -> Option<&Node>
    ensures found { IfSome result (λ n. entry_in number (tree_of entry.now) ≡ Some (node n.now)) }
    ensures none { IfNone result (entry_in number (tree_of entry.now) ≡ None) }
{
    if entry.number == number {
        return Some(entry);
    }
    for child in entry.children.iter() {
        if let Some(found) = entry_in(child, number) {
            return Some(found);
        }
    }
    None
}
