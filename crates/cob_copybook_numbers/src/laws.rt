//! What joins condition-names to the entries of a record.

ghost use Rattle.cob_copybook_numbers.specs.Laws.{NamesOfEntries, NumbersInOrder};

use cob_copybook_entries::one_list_of_entries;
use cob_source::words_are_one;

/// A law: the entries of a record's tree are those of its text in order, each with the number of its place; the record has 0.
pub fn numbers_in_order()
    ensures { NumbersInOrder }
{}

/// A law: the condition-names of a record description are those that its sentences say, each with the number of the tree's entry that it belongs to.
pub fn names_of_entries()
    ensures { NamesOfEntries }
{
    words_are_one();
    one_list_of_entries();
}
