//! Which bytes of the output record are covered, and which of the input record are taken.

ghost use Rattle.std.specs.Prelude.{◌≡◌, length, IfOk};
ghost use Rattle.cob_copybook_tree.specs.Lengths.{greatest_number, sum_of};
ghost use Rattle.cob_report_cover.specs.Covered.{AreMarks, IsByteCovered, IsByteTaken};

use crate::gathered::{received, sent};
use crate::sweep::marks_of;
use cob_back_moves::MovesBetween;
use std::alloc::{AllocError, Global};

/// Of each byte of the output record whether it is covered: whether some single move has a receiver whose place has it.
///
/// # Errors
///
/// Where no memory is left.
pub fn bytes_covered(alloc: Global, moves: &MovesBetween<'_>) -> Result<Vec<bool>, AllocError>
    ensures marks { IfOk result (λ marks. AreMarks (IsByteCovered moves.now) marks.items) }
    ensures all { IfOk result (λ marks. length marks.items
        ≡ sum_of greatest_number moves.now.layouts.output.now) }
{
    let places = received(alloc, moves)?;
    let marks = marks_of(alloc, moves.layouts.output.greatest(), &places)?;
    Ok(marks)
}

/// Of each byte of the input record whether it is taken: whether some single move has a sender whose place has it.
///
/// # Errors
///
/// Where no memory is left.
pub fn bytes_taken(alloc: Global, moves: &MovesBetween<'_>) -> Result<Vec<bool>, AllocError>
    ensures marks { IfOk result (λ marks. AreMarks (IsByteTaken moves.now) marks.items) }
    ensures all { IfOk result (λ marks. length marks.items
        ≡ sum_of greatest_number moves.now.layouts.input.now) }
{
    let places = sent(alloc, moves)?;
    let marks = marks_of(alloc, moves.layouts.input.greatest(), &places)?;
    Ok(marks)
}
