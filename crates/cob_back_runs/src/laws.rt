//! Laws of conversions there and back.

ghost use Rattle.cob_back_runs.specs.Laws.{LosslessKeep, LosslessRuns};

use cob_back_moves::returns_keep;
use cob_copybook::records_take_bytes;
use cob_layout::records_are_sound;
use cob_move_deeds::straight_is_applied;
use cob_move_initial::one_initial;

/// Conversions that lose nothing keep what the first one converts.
#[tactic(auto, using(crate::proofs::KeepLaw::lossless_keep))]
pub fn lossless_keep()
    ensures { LosslessKeep }
{
    straight_is_applied();
    returns_keep();
    one_initial();
    records_are_sound();
    records_take_bytes();
}

/// Where a run there ends clean, a run back over what it wrote ends clean, with as many records, and what it writes holds again what the first run
/// read.
#[tactic(auto, using(crate::proofs::RunLaw::lossless_runs))]
pub fn lossless_runs()
    ensures { LosslessRuns }
{
    cob_records::forms_are_frames();
}
