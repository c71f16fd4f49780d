//! The laws.

ghost use Rattle.cob_move_choices.specs.Laws.{BranchTestsBreakNoRule, OneBranchTest, OneSubject, SubjectsBreakNoRule};

use cob_move_names::{named_break_no_rule, one_named};
use cob_move_tests::{conditions_break_no_rule, one_condition_of};

/// The tests of a choice are held against one thing.
pub fn one_subject()
    ensures { OneSubject }
{
    one_named();
}

/// The words of a test mean one condition in a turn.
pub fn one_branch_test()
    ensures { OneBranchTest }
{
    one_named();
    one_condition_of();
}

/// What the tests of a choice may be held against breaks no rule.
pub fn subjects_break_no_rule()
    ensures { SubjectsBreakNoRule }
{
    named_break_no_rule();
}

/// Words of a test that mean a condition break no rule.
pub fn branch_tests_break_no_rule()
    ensures { BranchTestsBreakNoRule }
{
    one_named();
    named_break_no_rule();
    conditions_break_no_rule();
}
