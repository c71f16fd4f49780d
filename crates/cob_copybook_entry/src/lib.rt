//! What an entry of a copybook says (ANSI X3.23-1985, Nucleus: the data description entry).
//!
//! An [`Entry`] is a record description entry by itself: its level, its name, and what its clauses say. This crate has its type, the types
//! of its parts (names, usages, signs, constants, how often it occurs), and the rules of copybooks with their faults, which the
//! crates that read and judge entries answer. It reads no text.
//!
//! What is promised: names, literals and constants are copied without memory (`clone`); a name and a literal are their characters
//! (`as_bytes`), at most 30 and 160 of them; [`BookRule::on`] is the fault of an entry on its line, and on line 0 for memory; a fault of
//! the text becomes one of the copybook on the same line, but refused memory stays refused memory, on line 0 (`from_source`);
//! [`usage_word`] is what a word means in a USAGE clause, and [`Usage::name`] the shortest name of a usage.
//!
//! The definitions stand in `specs/`: `Kinds` has the usages and their words, `Described` is what contracts see of an entry, and `Faults` what
//! the fault of a text becomes.
//!
//! # Where it is proved
//!
//! The clauses of `clone`, `as_bytes`, `usage_word`, `Usage::name` and `BookRule::on`.
#![tactic(auto)]

mod entry;
mod fault;
mod kinds;
mod name;
mod value;

pub use cob_limits::MAX_LITERAL;
pub use entry::{Entry, Occurs, Qualified};
pub use fault::{BookFault, BookRule, MAX_WORD};
pub use kinds::{Figurative, Sign, Usage, UsageWord, usage_word};
pub use name::Name;
pub use value::{Text, Value};
