//! Why two conversions may lose something, in words: the first point that fails, with its item and its statement.
//!
//! [`told_loss`] finds what is to be told of a [`Loss`] that `cob_back_moves` answers of moves there and back: the entry that redefines another one or varies,
//! the single move that isn't as is asked, the second of two single moves to one occurrence, or the first occurrence of an item that doesn't come back, and why
//! it doesn't. [`ToldLoss`] prints it in one line, as `E OF OUT-REC, PIC ZZ9.99, has no sign, and N OF IN-REC has one: there line 2`:
//!
//! - an occurrence by its name with those of the groups that hold it, and its subscripts in brackets;
//! - a picture by its symbols, with repeats as they are written;
//! - the place by the option that names the text, `there`, `back`, `in-book` or `out-book`, and the line in it where there is one.
//!
//! What is promised: of two items, what the second one lacks ([`lack_of`]; `Lacks` of specs/Lacks.antt), nothing exactly where it loses nothing of the
//! first (`LosesNothing` of `cob_back_moves`); and the lines of the statements that a paragraph comes to, those of a loop once for each of its turns
//! ([`lines_of`]; `AreLinesOf` of specs/Lines.antt), which are answered, memory aside, of each text that has such lines. Of a paragraph with loops to items
//! or choices the lines are told beside the flows that it comes to: as many turns of such a loop as have a test that passes over them, its own line and
//! counter, and for each branch with a condition the line of that ([`lines_of_deeds`]; `AreDeedLinesOf` of specs/Turned.antt). Which words tell a loss is
//! shown by `cob_test_jobs`.
//!
//! # Where it is proved
//!
//! The clauses `none`, `lost`, `lacks` of `lack_of`, `found`, `only` of `lines_of`, and `straight`, `tested` of `lines_of_deeds`: a text that has lines is
//! refused by `lines_of` for want of memory alone; which words tell a loss is shown by rows.
#![tactic(auto)]

mod items;
mod lacks;
mod lines;
mod reasons;
mod singles;
mod storage;
mod turned;
mod words;

pub use lacks::{Lack, lack_of};
pub use lines::{line_at, lines_of};
pub use reasons::{LinedMoves, LossPosition, LossReason, ToldLoss, named_in, told_loss, told_test};
pub use singles::{LinedSingle, singles_of};
pub use turned::{ConditionLine, DeedLines, LoopLine, lines_of_deeds};
pub use words::choice_word;
