//! The clauses of record description entries, as they are written (ANSI X3.23-1985, "Data description entry"; IBM
//! Enterprise COBOL for z/OS, Language Reference, "Data division - data description entry").
//!
//! An entry of a copybook is the words between two periods: a level, a name or FILLER, and clauses in any order, each at
//! most once. This crate says which words are reserved and what a name is, cuts a text's words into sentences, and reads
//! one sentence into its clauses. What a picture, a number, a constant or a name means isn't looked at here.
//!
//! What is promised: `read_entry` answers exactly the entry that the words of a sentence are (clause `found`), and `None` only
//! for words that are no entry (`only`); words are written as one entry at most (`one_entry`). `read_condition_name` does the same for an entry
//! of level 88, `is_condition` says which those are, and `left_out` names a word or a level that is left out by name
//! (`found`), and `None` says that there is none (`none`); its answer fits 20 characters of ASCII (`short`, `ascii`).
//! `sentence_at` cuts at the first Stop, and where it answers `None` there is no Stop (`none`); `sentences_cut` and
//! `sentences_end` say that so all sentences of a text are found. `is_name` is true of exactly the names.
//!
//! The definitions stand in `specs/`: `Terms` has the tables of reserved words, `Names` what a name is, `Written` an entry without where its texts lie in
//! memory, `Clauses` the words of each clause, `Entries` those of an entry, of level 88 and of what is left out, and the sentences of a text. `Reading` holds
//! what the readers of words, of statements too, say of the words that they leave.
//!
//! # Where it is proved
//!
//! The clauses `found`, `only` of `read_entry` and `read_condition_name`, `found`, `none` of `sentence_at` and `left_out`, that of `is_name`; its laws.
//! What its readers answer and leave is said in the words of specs/Reading.antt (`StandInFront`, `EachCut`, `Answers`).
#![tactic(auto)]

mod clause;
mod constant;
mod entry;
mod laws;
mod names;
mod parts;
mod qualifiers;
mod sentence;
mod table;
mod term;
mod words;

pub use constant::constant_at;
pub use entry::read_entry;
pub use laws::{one_entry, sentences_cut, sentences_end};
pub use names::is_name;
pub use parts::{Clauses, Count, OccursClause, ValueClause, Written};
pub use qualifiers::{front, qualifiers_at};
pub use sentence::{is_condition, left_out, read_condition_name, sentence_at};
pub use term::{WordClass, word_class};
pub use words::{behind, is_name_word, is_term};
