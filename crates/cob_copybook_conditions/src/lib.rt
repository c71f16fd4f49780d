//! The condition-names of a copybook: the entries of level 88 with their values (ANSI X3.23-1985, Data Division: VALUE clause, format 2).
//!
//! A condition-name names values of the data entry before it: one value, or all from one to another, as often as they stand. [`condition_names`] reads them from
//! the text that `cob_copybook` makes a record of, in a second reading: a copybook is a record description without them, and an entry of level 88 that lists no
//! values is one there, but has no name here. Each is told with the number of its data entry, by which the record's tree counts them. Whether a value suits
//! its entry isn't looked at.
//!
//! What is promised of [`condition_names`]: `Ok` has the condition-names of the text (clause `found`; `AreConditionNamesOf` of specs/Names.antt); a text that is
//! made of entries is read, memory aside, and has no others (`only`); a refusal names a rule that the text or its words break (`fault`). A text has one
//! list of condition-names at most (`one_list_of_condition_names`).
//!
//! The definitions stand in `specs/`: `Written` has a condition-name as it is written, `Entries` its words, `Names` which a text has and what they mean, `Refusals`
//! why none are read, `Laws` the law. `Reading` names the steps on the way; no public clause names it. The crate stands on `cob_source` for the words of a text,
//! on `cob_copybook_clauses` for constants and sentences, and on `cob_copybook_entries` for entries and what a constant means.
//!
//! # Where it is proved
//!
//! The clauses `found`, `only`, `fault` of `condition_names`; the law `one_list_of_condition_names`.
#![tactic(auto)]

mod laws;
mod names;
mod reader;
mod spans;
mod words;

pub use laws::one_list_of_condition_names;
pub use names::ConditionName;
pub use reader::condition_names;
pub use spans::Span;
