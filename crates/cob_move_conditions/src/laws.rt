//! What follows from the definitions.

ghost use Rattle.cob_move_conditions.specs.Laws.{OneWrittenCondition};

/// A law: words are one condition.
pub fn one_written_condition()
    ensures { OneWrittenCondition }
{}
