//! What is refused of a paragraph: its statements, where one refusal does not hide the others.
//!
//! [`move_refusals`] reads a text as a paragraph between the records of two layouts, and answers why it is none: the fault that [`cob_move::Paragraph::read`]
//! answers comes first. Behind it come the faults of statements as they are written, the first of each: the words from MOVE, or from behind a period, up to the
//! next MOVE or period are no statement, or it breaks a rule. The statements of a loop are judged as they are in each turn, up to the hundredth, and told
//! once. Where loops can't be written out, nothing stands behind the first.
//!
//! What is promised: each refusal names a rule that the text breaks, by the definition that `Paragraph::read` has of it, or that one of its statements breaks by
//! itself; and the place that it tells, if it tells one, is where such a statement begins (clause `each`); nothing is answered of a text that is a paragraph (`none`), and a text of which nothing is answered is one (`some`). The definitions
//! stand in specs/Statements.antt. On which line a refusal is told, and that each statement that is refused is told, no clause says.
//!
//! # Where it is proved
//!
//! The clauses `each`, `none`, `some` of `move_refusals`.
#![tactic(auto)]

mod moves;
mod statements;
mod written;

pub use moves::move_refusals;
