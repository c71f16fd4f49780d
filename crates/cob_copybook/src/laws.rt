//! What follows from the rules of copybooks.

ghost use Rattle.cob_copybook.specs.Bytes.{RecordsTakeBytes};
ghost use Rattle.cob_copybook.specs.Laws.{BookBreaksNoRule};

use cob_copybook_entries::{entries_break_no_rule, one_list_of_entries};
use cob_copybook_names::one_list_of_counts;
use cob_copybook_tree::one_tree;
use cob_picture::takes_bytes;
use cob_source::{words_are_one, words_break_no_rule};

/// A law: each item of a record takes a byte at least, and so does the record.
pub fn records_take_bytes()
    ensures { RecordsTakeBytes }
{
    takes_bytes();
}

/// A law: a text that is a record description breaks no rule of copybooks, and is refused for want of memory alone.
pub fn book_breaks_no_rule()
    ensures { BookBreaksNoRule }
{
    words_are_one();
    words_break_no_rule();
    one_list_of_entries();
    entries_break_no_rule();
    one_tree();
    cob_copybook_rules::breaks_no_rule();
    one_list_of_counts();
    cob_copybook_rules::breaks_no_length_rule();
}
