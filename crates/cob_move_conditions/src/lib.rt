//! Conditions as they are written (ANSI X3.23-1985, Nucleus: conditional expressions).
//!
//! A condition is words: relations of two operands, classes and signs of entries, operands alone, and those that AND, OR, NOT and brackets make of them. AND
//! binds closer than OR, NOT closest, and both bind to the left. A relation may leave out its subject, and an operand its relation too: which they are, and
//! which words name a condition, the names say alone, and so the crates above. A word of conditions ([`condition_word`]) is no name in one.
//!
//! What is promised of [`condition`]: `Ok` has exactly the condition that the words say (clause `found`; `IsWholeCondition` of specs/Conditions.antt); the words of a
//! condition are read, memory aside, and say nothing else (`only`); a refusal is for want of memory, or the words are no condition, and then it names the line
//! of the first (`fault`). Words are one condition ([`one_written_condition`]).
//!
//! The definitions stand in `specs/`: `Words` has the words of conditions, `Relations` those of relations, `Conditions` those of whole conditions, and `Written`
//! a condition without where its texts lie in memory. `Fronts` and `Reading` hold what the readers say of what they answer.
//!
//! # Where it is proved
//!
//! The clauses `found`, `only`, `fault` of `condition`, and that of `condition_word`; the law `one_written_condition`.
#![tactic(auto)]

mod conditions;
mod laws;
mod operands;
mod phrases;
mod relations;
mod tests;
mod words;

pub use conditions::condition;
pub use laws::one_written_condition;
pub use operands::operand_at;
pub use phrases::{ConditionPhrase, Quality, TestPhrase};
pub use relations::Relation;
pub use words::{ConditionWord, condition_word};
