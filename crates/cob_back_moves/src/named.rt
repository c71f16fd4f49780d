//! Whether an entry has a name.

ghost use Rattle.std.specs.Prelude.{◌≡◌, IsSome};
ghost use Rattle.std.specs.Bool.{Decides};
ghost use Rattle.cob_copybook_tree.specs.Nodes.{tree_of};
ghost use Rattle.cob_copybook_tree.specs.declared.node.Node.TheViews.{out-Node};
ghost use Rattle.cob_back_moves.specs.Returns.{BearsName};

use cob_copybook_tree::Node;

/// Whether an entry by itself has this number and a name.
fn bears_itself(entry: &Node, number: usize) -> bool
    ensures { Decides result
        (((out-Node entry.now).number ≡ number) × IsSome (out-Node entry.now).name) }
{
    entry.number == number && entry.name.is_some()
}

/// Whether the entry with this number is this one or one beneath it, and has a name.
pub(crate) fn bears_name(entry: &Node, number: usize) -> bool
    ensures { Decides result (BearsName number (tree_of entry.now)) }
{
    if bears_itself(entry, number) {
        return true;
    }
    for child in entry.children.iter() {
        if bears_name(child, number) {
            return true;
        }
    }
    false
}
