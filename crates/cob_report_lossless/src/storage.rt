//! Entries for which a record doesn't stand in one way.

use cob_copybook_tree::Node;

/// Whether an entry redefines another one, or is a table that varies.
fn stands_otherwise(entry: &Node) -> bool {
    entry.redefines.is_some() || entry.occurs.is_varying()
}

/// The first entry, of this one and those beneath it, that redefines another one or is a table that varies.
pub(crate) fn first_otherwise(entry: &Node) -> Option<&Node> {
    if stands_otherwise(entry) {
        return Some(entry);
    }
    for child in entry.children.iter() {
        if let Some(found) = first_otherwise(child) {
            return Some(found);
        }
    }
    None
}
