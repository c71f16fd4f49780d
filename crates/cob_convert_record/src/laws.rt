//! Laws of the definitions.

ghost use Rattle.cob_convert_record.specs.Laws.{ConversionsAreDecided};

use cob_convert_stream::records_are_judged_once;
use cob_move_apply::one_outcome_of_counts;
use cob_move_deeds::one_carried;
use cob_move_initial::one_initial;

/// A record is one of its layout or isn't, for one reason, and what becomes of it is determined: its output or its stop.
#[tactic(auto, using(crate::proofs::Decided::conversions_are_decided))]
pub fn conversions_are_decided()
    ensures { ConversionsAreDecided }
{
    records_are_judged_once();
    one_outcome_of_counts();
    one_initial();
    one_carried();
}
