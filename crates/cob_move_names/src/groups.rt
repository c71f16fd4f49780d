//! What is below a group of a record.

ghost use Rattle.std.specs.Prelude.{◌≡◌, Some, None, IfNone, IfSome};
ghost use Rattle.cob_copybook_tree.specs.Nodes.{forest, tree_of};
ghost use Rattle.cob_move_names.specs.Groups.{entries_below, found_below};

use cob_layout_places::Node;

/// What is below the entry with this number, if it is one of those below this entry, or this one.
fn found_below(entry: &Node, number: usize) -> Option<&[Node]>
    ensures found { IfSome result
        (λ below. found_below number (tree_of entry.now) ≡ Some (forest below.now)) }
    ensures none { IfNone result (found_below number (tree_of entry.now) ≡ None) }
{
    if entry.number == number {
        return Some(entry.children.as_slice());
    }
    for child in entry.children.iter() {
        if let Some(below) = found_below(child, number) {
            return Some(below);
        }
    }
    None
}

/// What is below the entry of a record with this number.
pub fn entries_below(top: &Node, number: usize) -> &[Node]
    ensures { forest result.now ≡ entries_below number (tree_of top.now) }
{
    match found_below(top, number) {
        Some(below) => below,
        None => &[],
    }
}
