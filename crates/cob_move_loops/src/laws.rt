//! Laws of passages.

ghost use Rattle.cob_move_loops.specs.Laws.{BreaksNone, NoTurn, OnePassage};

/// Words say one passage at most.
pub fn one_passage()
    ensures { OnePassage }
{}

/// Words that break off are no passage.
pub fn breaks_none()
    ensures { BreaksNone }
{}

/// Outside of loops words are as they are written.
pub fn no_turn()
    ensures { NoTurn }
{}
