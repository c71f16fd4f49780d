//! What follows from the definitions.

ghost use Rattle.cob_move_tests.specs.Laws.{ConditionsBreakNoRule, OneConditionOf};

use cob_move_conditions::one_written_condition;
use cob_move_names::{named_break_no_rule, one_named, one_valued, valued_break_no_rule};

/// A law: words mean one condition.
pub fn one_condition_of()
    ensures { OneConditionOf }
{
    one_named();
    one_valued();
    one_written_condition();
}

/// A law: words that mean a condition break no rule.
pub fn conditions_break_no_rule()
    ensures { ConditionsBreakNoRule }
{
    one_named();
    named_break_no_rule();
    one_valued();
    valued_break_no_rule();
    one_written_condition();
}
