//! What the tests of IF and EVALUATE mean between two records, and which rules they break (ANSI X3.23-1985, Nucleus: the IF statement, the EVALUATE statement).
//!
//! A choice is held against nothing, and then each of its tests is a condition, as behind IF and EVALUATE TRUE; or against an entry, whose values its tests list.
//! [`subject_of`] answers which (clause `found`; `IsSubjectOf` of specs/Choices.antt), and [`branch_test`] the condition that the words of a test mean in a turn of
//! the loops round it (`found`; `IsBranchTestOf`). A refusal names a rule that is broken (`fault`; `BreaksSubject`, `BreaksBranchTest`). Entries that they ask for
//! stand by their numbers behind those that were asked for before (`asks`).
//!
//! The counter of a loop stands in tests as a subscript alone: its number would be a literal there, and a literal is compared with characters otherwise than a
//! number is.
//!
//! Laws: a choice is held against one thing ([`one_subject`]), and words mean one condition ([`one_branch_test`]); what means something breaks no rule
//! ([`subjects_break_no_rule`], [`branch_tests_break_no_rule`]).
//!
//! # Where it is proved
//!
//! The clauses of `subject_of` and `branch_test`; the laws `one_subject`, `one_branch_test`, `subjects_break_no_rule`, `branch_tests_break_no_rule`.
#![tactic(auto)]

mod laws;
mod subjects;
mod tests;
mod values;

pub use laws::{branch_tests_break_no_rule, one_branch_test, one_subject, subjects_break_no_rule};
pub use subjects::{Subject, subject_of};
pub use tests::branch_test;
