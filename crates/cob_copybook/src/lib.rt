//! Copybooks: the description of a record (ANSI X3.23-1985, Data Division: record description entries; IBM Enterprise COBOL for z/OS,
//! Language Reference, "Data division--data description entry").
//!
//! A copybook is a text in reference format: entries with levels, each with its clauses, that stand for the tree of a record.
//! [`Book::read`] reads one, or says which rule it breaks and on which line. A [`Book`] then answers the record with the entries beneath
//! it ([`Book::root`]) and its greatest length ([`Book::greatest`]).
//!
//! What is promised of [`Book::read`]: what it answers is the tree of the text (clause `found`); every text that is a well-formed record
//! description is read, but for want of memory (`only`); and a refusal names a rule that is broken (`fault`). That no text is both, a
//! record description and one that breaks a rule, is the law [`book_breaks_no_rule`] of specs/Laws.antt. The definitions: `IsBookOf`
//! and `IsBookRefusal` of specs/Books.antt say it of texts, `IsRecordOf` of specs/Records.antt of entries. Which line is named, no clause
//! says.
//!
//! The crate puts the stages of reading in order, and speaks of no word and no length itself: it stands on `cob_source` for the words of
//! a text, on `cob_copybook_entries` for its entries and on `cob_copybook_entry` for what they are, on `cob_copybook_tree` for the tree, and on
//! `cob_copybook_rules`, `cob_copybook_names` and `cob_copybook_rules` for the rules, by their public contracts and laws.
//!
//! # Where it is proved
//!
//! The clauses `found`, `only`, `fault` of `Book::read`, those of `root` and `greatest`; the law `records_take_bytes`.
#![tactic(auto)]

mod book;
mod laws;
mod role;
mod storage;
mod tree;
mod words;

pub use book::Book;
pub use cob_copybook_entries::{ValueClause, value_of};
pub use cob_copybook_tree::{
    BookFault, BookRule, Figurative, Item, Kind, Name, Node, ResolvedOccurs, Sign, Text, Usage,
    Value, element_length, is_number, whole_length,
};
pub use laws::{book_breaks_no_rule, records_take_bytes};
pub use role::Role;
