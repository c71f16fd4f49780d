ghost use Rattle.std.specs.Prelude.{IsTrue};
ghost use Rattle.std.specs.Option.{IsNone};
ghost use Rattle.cob_copybook_tree.specs.Branches.{forest_of};
ghost use Rattle.cob_copybook_rules.specs.Filled.{IsFilled, AreFilled};

use cob_copybook_tree::{Branch, Entry};

/// Whether the entry has a picture or entries beneath it, and not both.
fn is_filled(entry: &Entry, children: &[Branch]) -> bool
    ensures yes { IsTrue result → IsFilled entry.now.picture (forest_of children.now) }
    ensures must { IsFilled entry.now.picture (forest_of children.now) → IsTrue result }
{
    entry.picture.is_some() == children.is_empty()
}

/// The line that is named for an entry that isn't filled: that of the first one beneath it, which an entry with a picture may not have, or
/// its own where it has neither.
fn unfilled_line(branch: &Branch) -> u32 {
    match branch.children.first() {
        Some(child) => child.entry.line,
        None => branch.entry.line,
    }
}

/// The line of an entry that stands beneath one with a picture, or that has neither a picture nor entries beneath it.
pub(crate) fn unfilled(branches: &[Branch]) -> Option<u32>
    ensures fine { IsNone result → AreFilled (forest_of branches.now) }
    ensures must { AreFilled (forest_of branches.now) → IsNone result }
{
    for branch in branches {
        if !is_filled(&branch.entry, branch.children.as_slice()) {
            return Some(unfilled_line(branch));
        }
        if let Some(line) = unfilled(branch.children.as_slice()) {
            return Some(line);
        }
    }
    None
}
