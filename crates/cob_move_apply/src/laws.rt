ghost use Rattle.cob_move_apply.specs.Applied.{OneEnding};

use cob_layout::one_outcome_of_counts;
use cob_move_receive::one_received;

/// Moves end in one way.
pub fn one_ending()
    ensures { OneEnding }
{
    one_outcome_of_counts();
    one_received();
}
