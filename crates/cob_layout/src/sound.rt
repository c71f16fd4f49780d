//! What holds of every record description: the premises that the crates above it ask of the tree of a record.
//!
//! `cob_copybook` says which trees are record descriptions, in the rules of copybooks (`IsRecordDescription` of its specs/Books.antt): levels,
//! clauses that agree with each other, counts, lengths and values. The crates that lay a record out in bytes ask for less, each in its own words:
//! `cob_layout_places` for lengths, numbers and counts of tables, `cob_copybook_tree` for items that can be stored. The law
//! [`records_are_sound`] says that every record description is so (`IsSound` of specs/Sound.antt), so that what reads a copybook can hand its
//! record on, and no caller has a premise left to show:
//!
//! - each entry may occur, groups and they alone have entries beneath them, each redefinition stays in its area, and the record has at most
//!   32,752 bytes;
//! - redefinitions stand where they may: neither an entry that redefines nor the one whose area it is varies;
//! - the entries are numbered from 0 in their order, a parent before its children;
//! - no more than 7 tables stand within one another;
//! - each table that varies is counted by an item of the record that is a number without a fraction, stands before the table, and in none;
//! - each item can be stored: a number has a picture that its USAGE and SIGN take, and another item one byte for each position of its
//!   picture that has one;
//! - each VALUE suits its entry, and stands where a value may;
//! - and one entry, the record, holds all others and redefines nothing.

ghost use Rattle.cob_layout.specs.Sound.{RecordsAreSound};

/// Every record description has what its places, counts, storage and values ask for.
pub fn records_are_sound()
    ensures { RecordsAreSound }
{}
