//! What follows from the definitions.

ghost use Rattle.cob_move_names.specs.Groups.{SubordinatesAreOperands};

/// A law: what may be in a pair below a group is an operand of the record, with the group's subscripts.
pub fn subordinates_are_operands()
    ensures { SubordinatesAreOperands }
{}
