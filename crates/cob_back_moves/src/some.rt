//! Whether some single move of statements meets a condition. They are gone through where they stand: nothing takes memory.

ghost use Rattle.std.specs.Bool.{Decides};
ghost use Rattle.cob_move_data.specs.Singles.{SingleMove as Meant, all_singles, plain_single};
ghost use Rattle.cob_back_moves.specs.Brought.{AreLegal, moves_between, singles_in};
ghost use Rattle.cob_move_apply.specs.Some.{SomeOf};
ghost use Rattle.cob_back_moves.specs.Tested.{AreMovesBetween, AreSound, IsSingle, single_of};

use crate::single::BothLayouts;
use cob_move_data::{SingleMove, Singles, StatementMoves};

/// The moves of statements, and the layouts of the records between which they are.
#[derive(Clone, Copy)]
pub struct MovesBetween<'a> {
    pub layouts: BothLayouts<'a>,
    pub statements: &'a [StatementMoves],
}

/// A condition of single moves.
pub(crate) trait Condition {
    /// The single move meets it.
    ghost met: { Self → Meant → Type 0 };

    /// What the answer rests on holds.
    ghost ready: { Self → Type 0 };

    /// Whether a single move meets it.
    fn is_met(&self, layouts: &BothLayouts<'_>, single: &SingleMove<'_>) -> bool
        requires ready { ready self.now }
        requires sound { AreSound layouts.now }
        requires single { IsSingle layouts.now (single_of layouts.now (plain_single single.now)) }
        ensures { Decides result
            (met self.now (single_of layouts.now (plain_single single.now))) };
}

/// Whether some single move of these statements meets the condition.
fn some_of_these_meets<C: Condition>(
    condition: &C,
    layouts: &BothLayouts<'_>,
    statements: &[StatementMoves],
) -> bool
    requires ready { C.ready condition.now }
    requires sound { AreSound layouts.now }
    requires moves { AreMovesBetween layouts.now (moves_between layouts.now statements.now) }
    ensures { Decides result (SomeOf (C.met condition.now)
        (all_singles (moves_between layouts.now statements.now))) }
{
    for single in Singles::new(statements) {
        if condition.is_met(layouts, &single) {
            return true;
        }
    }
    false
}

/// Whether some single move of moves meets the condition. The search begins at the statement with this number, and goes round once: what it finds doesn't
/// rest on the number.
pub(crate) fn some_meets<C: Condition>(
    condition: &C,
    moves: &MovesBetween<'_>,
    start: usize,
) -> bool
    requires ready { C.ready condition.now }
    requires legal { AreLegal moves.now }
    ensures { Decides result (SomeOf (C.met condition.now) (singles_in moves.now)) }
{
    let middle = start.min(moves.statements.len());
    let (front, behind) = moves.statements.split_at(middle);
    if some_of_these_meets(condition, &moves.layouts, behind) {
        return true;
    }
    some_of_these_meets(condition, &moves.layouts, front)
}
