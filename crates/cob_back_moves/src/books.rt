//! Whether copybooks describe one record.

ghost use Rattle.std.specs.Bool.{Decides};
ghost use Rattle.cob_back_moves.specs.Same.{IsSameRecord};

use crate::same_entries::is_same_record;
use cob_copybook::Book;
use cob_layout::Layout;

/// Whether two copybooks describe one record, but for the record's own name: the same entries, with the same names and clauses. It takes no memory.
/// It is there for callers of this library: nothing in this repository but its tests calls it.
pub fn is_same_book(book: &Book, other: &Book) -> bool
    ensures { Decides result (IsSameRecord book.now other.now) }
{
    is_same_record(book.root(), other.root())
}

/// Whether two layouts are of one record, but for the record's own name.
pub fn is_same_layout(layout: &Layout, other: &Layout) -> bool
    ensures { Decides result (IsSameRecord layout.now other.now) }
{
    is_same_record(layout.root(), other.root())
}
