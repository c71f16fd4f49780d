//! What follows from the definitions.

ghost use Rattle.cob_move_names.specs.Laws.{ItemsAreOperands, NamedAreOperands, NamedBreakNoRule, OneNamed, OneValued, ValuedBreakNoRule};

use cob_layout::records_are_sound;

/// A law: what a reference names is an operand of its record.
pub fn named_are_operands()
    ensures { NamedAreOperands }
{
    records_are_sound();
}

/// A law: a reference names one operand at most.
pub fn one_named()
    ensures { OneNamed }
{}

/// A law: a reference that names an operand breaks no rule.
pub fn named_break_no_rule()
    ensures { NamedBreakNoRule }
{}

/// A law: the item of a condition-name that a reference names is an operand of its record.
pub fn items_are_operands()
    ensures { ItemsAreOperands }
{
    records_are_sound();
}

/// A law: a reference names the values of one condition at most.
pub fn one_valued()
    ensures { OneValued }
{}

/// A law: a reference that names the values of a condition breaks no rule.
pub fn valued_break_no_rule()
    ensures { ValuedBreakNoRule }
{}
