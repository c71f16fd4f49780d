//! Laws of the definitions.

ghost use Rattle.cob_move_condition.specs.Laws.{OneComparison, OneSaying};

use crate::operands::Operands;
use cob_copybook_tree::one_sent_number;
use cob_cp037::table_is_one_to_one;
use cob_edit::one_value;

/// Two operands have one order, or it is one of them that gives no number.
pub fn one_comparison()
    ensures { OneComparison }
{
    table_is_one_to_one();
    one_sent_number();
    one_value();
}

/// What a condition says of what operands give is one thing.
pub fn one_saying<O: Operands>()
    ensures { (operands : O) → OneSaying (O.gives operands) (O.lacks operands) }
{
    table_is_one_to_one();
    one_sent_number();
    one_value();
}
