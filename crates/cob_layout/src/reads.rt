//! Whether a reference reads a count.

ghost use Rattle.std.specs.Prelude.{◌≡◌};
ghost use Rattle.cob_layout_places.specs.Needs.{is_needed, keep};
ghost use Rattle.cob_layout.specs.Standing.{are_none};

use cob_layout_places::{Table, is_needed};

/// Whether the count of none of the tables is needed below this number, for the last entry of a record that receives or not.
pub(crate) fn none_needed(tables: &[Table], behind: usize, last: bool, number: usize) -> bool
    ensures { result ≡ are_none (keep (is_needed behind last number) tables.now) }
{
    for table in tables {
        if is_needed(behind, last, number, *table) {
            return false;
        }
    }
    true
}
