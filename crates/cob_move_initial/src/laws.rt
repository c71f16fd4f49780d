//! Laws of what items and groups hold before the first move.

ghost use Rattle.cob_move_initial.specs.Laws.{OneGroup, OneInitial, OneItem};

use cob_move_receive::one_received;

/// A group with a VALUE holds one thing before the first move.
pub fn one_group()
    ensures { OneGroup }
{
    one_received();
}

/// An item holds one thing before the first move.
pub fn one_item()
    ensures { OneItem }
{
    one_received();
}

/// A record has one storage before the first move.
#[tactic(auto, using(crate::proofs::OneInitialLaw::one_initial))]
pub fn one_initial()
    ensures { OneInitial }
{
    one_group();
    one_item();
}
