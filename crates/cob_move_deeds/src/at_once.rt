//! Whether flows carry out all moves at once.

ghost use Rattle.std.specs.Prelude.{◌≡◌};
ghost use Rattle.cob_move_deeds.specs.AtOnce.{are_all_moves, are_lone_moves};

use crate::flow::Flow;

/// Whether these are one flow, which carries out moves.
fn are_lone(flows: &[Flow]) -> bool
    ensures { result ≡ are_lone_moves flows.now }
{
    match flows.split_first() {
        Some((Flow::Moves(_), more)) => more.is_empty(),
        _ => false,
    }
}

/// Whether these flows carry out all of the moves that so many marks part, at once: there is no test, and no mark between the first and the last.
pub(crate) fn carry_all(flows: &[Flow], marks: usize) -> bool
    ensures { result ≡ are_all_moves marks flows.now }
{
    marks == 2 && are_lone(flows)
}
