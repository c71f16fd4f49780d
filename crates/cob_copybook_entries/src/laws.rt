//! Laws of entries, as contracts of functions that do nothing. A function that calls one may rest its own proof on it.

ghost use Rattle.cob_copybook_entries.specs.Laws.{EntriesBreakNoRule, OneListOfEntries};

use cob_copybook_clauses::one_entry;

/// Words are one list of entries at most.
pub fn one_list_of_entries()
    ensures { OneListOfEntries }
{
    one_entry();
}

/// Words that are entries break no rule on words.
pub fn entries_break_no_rule()
    ensures { EntriesBreakNoRule }
{
    one_entry();
}
