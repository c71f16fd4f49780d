//! What follows from the definitions.

ghost use Rattle.cob_copybook_conditions.specs.Laws.{OneListOfConditionNames};

use cob_copybook_entries::one_list_of_entries;
use cob_source::words_are_one;

/// A law: a text has one list of condition-names at most.
pub fn one_list_of_condition_names()
    ensures { OneListOfConditionNames }
{
    words_are_one();
    one_list_of_entries();
}
