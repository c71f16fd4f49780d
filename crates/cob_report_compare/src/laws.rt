//! What follows from the definitions.

ghost use Rattle.cob_report_compare.specs.Laws.{EachOnce, EqualBytes, MergesInOrder};

use cob_layout::{one_outcome_of_counts, places_end_in_length, records_are_sound};

/// Records of one layout that have the same bytes are equal by value, whatever is ignored.
pub fn same_bytes_are_equal()
    ensures { EqualBytes }
{
    records_are_sound();
    places_end_in_length();
    one_outcome_of_counts();
}

/// Each record of a file stands in one entry, a pair or alone.
pub fn each_record_stands_once()
    ensures { EachOnce }
{}

/// Records without a key are pairs in their order, and behind them those of the longer file stand alone.
pub fn without_key_in_order()
    ensures { MergesInOrder }
{}
