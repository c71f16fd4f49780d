//! One record of a text that describes several (ANSI X3.23-1985, Data Division: record description entries; level-numbers 66 and 77).
//!
//! A text may describe several records, each from its level 01 to the next level 01 or 77. [`record_words`] finds the words of the one that has a name.
//! [`sole_words`] is for a text that describes one: what it answers has neither the description of a file in front, FD or SD, nor level 66 entries at the end.
//! These give entries another name, and take no bytes. [`with_record_name`] gives the words of one record another name.
//!
//! What is promised: [`record_words`] answers the words of the record of the name exactly where the text has one (`found`, `only`), and else says why it has
//! none (`fault`); a text that has one is not refused (`found_is_not_refused`). [`sole_words`] leaves out what it says and nothing else (`sole`, `others`), and
//! words in which no second record, level 66 or level 77 begins stay as they are (`sole_words_stay`). [`with_record_name`] answers the words with
//! that name and no other change but in qualifiers that are the record's old one (`with_record_name` of specs/RecordName.antt), and they bear it
//! (`given_name_is_borne`). What the entries say isn't looked at here, and of level 66
//! entries no more than their names and RENAMES.
//!
//! The definitions stand in `specs/`: `OneRecord` says which words a record has, `RecordName` which it has under another name, `Refusals` why a text has none of a name, `Laws` has the laws. The crate stands
//! on `cob_source` for the words of a text, and on `cob_copybook_clauses` for what a name is.
//!
//! # Where it is proved
//!
//! The clauses `found`, `only`, `fault` of `record_words`, `meant`, `sole`, `others` of `sole_words`, that of `with_record_name`; the laws
//! `sole_words_stay`, `found_is_not_refused`, `given_name_is_borne`.
#![tactic(auto)]

mod laws;
mod level;
mod record;
mod record_name;
mod renaming;
mod stretch;

pub use laws::{found_is_not_refused, given_name_is_borne, sole_words_stay};
pub use record::{NoRecord, record_words, sole_words};
pub use record_name::with_record_name;
