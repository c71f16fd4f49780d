//! What it is worth that a move of bytes keeps its description.

ghost use Rattle.cob_back_losses.specs.Numbers.{KeepsNumbers, ReceivesBytes};

/// Where a move of bytes keeps its description, the numbers of its receiver that nothing covers are those that were sent.
pub fn keeps_numbers()
    ensures { KeepsNumbers }
{}

/// Where a group is on either side of a move, its receiver gets the bytes that are sent, from the left on, as far as both go.
pub fn receives_bytes()
    ensures { ReceivesBytes }
{}
