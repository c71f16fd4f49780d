//! What follows from the definitions.

ghost use Rattle.cob_move.specs.MeaningLaws.{
  MeaningsBreakNoRule,
  MeantAreMoves,
  MeantBreakNoRule,
  OneMeaning,
  OneMeant,
};

use cob_layout::records_are_sound;
use cob_move_names::{
    named_are_operands, named_break_no_rule, one_named, subordinates_are_operands,
};

/// A law: a statement has one meaning at most.
pub fn one_meaning()
    ensures { OneMeaning }
{
    one_named();
}

/// A law: a statement that has a meaning breaks no rule.
pub fn meanings_break_no_rule()
    ensures { MeaningsBreakNoRule }
{
    one_named();
    named_break_no_rule();
}

/// A law: statements have one meaning at most.
pub fn one_meant()
    ensures { OneMeant }
{
    one_meaning();
}

/// A law: of statements that have a meaning, none breaks a rule.
pub fn meant_break_no_rule()
    ensures { MeantBreakNoRule }
{
    meanings_break_no_rule();
}

/// A law: the moves that statements mean are moves between the two records.
pub fn meant_are_moves()
    ensures { MeantAreMoves }
{
    named_are_operands();
    subordinates_are_operands();
    records_are_sound();
}
