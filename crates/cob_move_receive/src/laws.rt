//! The law of what receivers hold.

ghost use Rattle.cob_move_receive.specs.Received.{OneReceived};

use cob_copybook_tree::one_sent_number;
use cob_cp037::table_is_one_to_one;
use cob_decimal::laws::one_list_of_digits;
use cob_edit::{one_spelling, one_text, one_value};

/// A receiver holds one thing after a move, or there is no value.
pub fn one_received()
    ensures { OneReceived }
{
    table_is_one_to_one();
    one_list_of_digits();
    one_sent_number();
    one_value();
    one_text();
    one_spelling();
}
