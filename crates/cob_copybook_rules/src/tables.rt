ghost use Rattle.std.specs.Prelude.{◌≡◌, ◌≤◌, IsTrue, option_map};
ghost use Rattle.std.specs.Option.{IsNone};
ghost use Rattle.cob_limits.specs.Limits.{most_dimensions};
ghost use Rattle.cob_copybook_entry.specs.Described.{plain_entry, plain_occurs};
ghost use Rattle.cob_copybook_tree.specs.Branches.{forest_of};
ghost use Rattle.cob_copybook_rules.specs.Tables.{dimension, HasValidNumbers, IsNoRecordTable, AreTables};

use cob_copybook_tree::{Branch, Entry, Occurs};
use cob_limits::MAX_DIMENSIONS;

/// How many dimensions an entry adds to those of the tables that hold it.
fn dimension(occurs: &Option<Occurs>) -> u32
    ensures value { result ≡ dimension (option_map plain_occurs occurs.now) }
    ensures bound { result ≤ 1 }
{
    u32::from(occurs.is_some())
}

/// Whether an entry can occur that often.
fn is_possible(occurs: &Option<Occurs>) -> bool
    ensures yes { IsTrue result → HasValidNumbers (option_map plain_occurs occurs.now) }
    ensures must { HasValidNumbers (option_map plain_occurs occurs.now) → IsTrue result }
{
    match occurs {
        None => true,
        Some(Occurs::Fixed(count)) => *count > 0,
        Some(Occurs::Varying { least, most, .. }) => least < most,
    }
}

/// Whether the entry is no record, or is no table.
fn is_no_record_table(entry: &Entry) -> bool
    ensures yes { IsTrue result → IsNoRecordTable (plain_entry entry.now) }
    ensures must { IsNoRecordTable (plain_entry entry.now) → IsTrue result }
{
    entry.level != 1 || entry.occurs.is_none()
}

/// The line of an entry whose table isn't allowed beneath so many tables.
pub(crate) fn wrong_table(dimensions: u32, branches: &[Branch]) -> Option<u32>
    requires { dimensions ≤ most_dimensions }
    ensures fine { IsNone result → AreTables dimensions (forest_of branches.now) }
    ensures must { AreTables dimensions (forest_of branches.now) → IsNone result }
{
    for branch in branches {
        let entry = &branch.entry;
        let inner = dimensions + dimension(&entry.occurs);
        if !is_possible(&entry.occurs) || !is_no_record_table(entry) || inner > MAX_DIMENSIONS {
            return Some(entry.line);
        }
        if let Some(line) = wrong_table(inner, branch.children.as_slice()) {
            return Some(line);
        }
    }
    None
}
