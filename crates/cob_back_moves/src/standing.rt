//! Whether a record stands in one way.

ghost use Rattle.std.specs.Prelude.{◌≡◌, ℕ, []};
ghost use Rattle.std.specs.Bool.{Decides};
ghost use Rattle.cob_copybook_tree.specs.Nodes.{tree_of};
ghost use Rattle.cob_layout_places.specs.Counts.{table_of};
ghost use Rattle.cob_back_moves.specs.Apart.{StandsOneWay};

use cob_copybook_tree::{Node, ResolvedOccurs};

/// Whether an entry that occurs so is no table that varies.
fn is_steady(occurs: ResolvedOccurs) -> bool
    ensures { (number : ℕ) → Decides result (table_of occurs number ≡ []) }
{
    match occurs {
        ResolvedOccurs::Once => true,
        ResolvedOccurs::Fixed(_) => true,
        ResolvedOccurs::Varying { .. } => false,
    }
}

/// Whether an entry with those beneath it stands in one way: none of them redefines another, and none is a table that varies. It takes no memory.
pub fn stands_one_way(entry: &Node) -> bool
    ensures { Decides result (StandsOneWay (tree_of entry.now)) }
{
    if entry.redefines.is_some() {
        return false;
    }
    if !is_steady(entry.occurs) {
        return false;
    }
    for child in entry.children.iter() {
        if !stands_one_way(child) {
            return false;
        }
    }
    true
}
