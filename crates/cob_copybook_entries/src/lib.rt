//! The entries of a copybook, each by itself (ANSI X3.23-1985, Nucleus: the data description entry).
//!
//! A copybook is a list of record description entries, each ended by a period. `entries` reads the words of a text into that list,
//! whose entries are those of `cob_copybook_entry`. The levels, names, pictures, numbers and literals in an entry's clauses are read here, and
//! a text that is none of these is refused by the rule that it breaks. Entries of level 88 name a value and aren't kept. How entries
//! make a tree, and which rules hold between them, is for the crates above.
//!
//! What is promised: `entries` answers `Ok` with the entries of the words (clause `found`), of which there is one at least
//! (`some`); words that are entries are read, memory aside, and as these entries (`only`); and a refusal names a rule that the
//! words break (`fault`). A VALUE's word that is a numeric literal by its parts breaks the rule on values where it has too many
//! digits, and any other word the grammar. No clause says which of several broken rules is named, nor on which line. Words are one
//! list of entries at most (`one_list_of_entries`), and words that are entries break no rule (`entries_break_no_rule`).
//! [`name_of_text`] answers a name exactly for a text that is one (`found`, `only`). [`value_of`] answers what a constant as it is
//! written means, or the rule that it breaks, the grammar of literals or the rule on values (`found`, `only`, `fault`).
//! [`whole`] answers the number of a text of digits, as many as are asked for (`found`, `only`).
//!
//! The definitions stand in `specs/`: `Meaning` says what an entry's texts mean, `Parts` what a numeric literal of any length is, and `Books` which entries
//! words are and which rules they break. `Breaks` says which rule a part of an entry breaks, a constant's among them; `Adds`, `Short` and `Signs` name the
//! steps on the way; no public clause names them. `Laws` has the laws.
//!
//! # Where it is proved
//!
//! The clauses `found`, `only`, `fault` of `entries`.
#![tactic(auto)]

mod laws;
mod meaning;
mod name;
mod number;
mod occurs;
mod reader;
mod sentence;
mod value;

pub use cob_copybook_clauses::ValueClause;
pub use laws::{entries_break_no_rule, one_list_of_entries};
pub use name::name_of_text;
pub use number::whole;
pub use reader::entries;
pub use value::{is_numeric_literal, value_of};
