//! Two files of one layout, compared record by record by the values of their items or by their bytes: whether two records are equal, and which elements differ,
//! as lines of text.
//!
//! - [`compared_items`] are the items of a record that are compared: its named elementary items that stand in no redefinition and in no entry that is
//!   ignored, and all that count a table.
//! - [`compare_records`] compares two records of one layout. It looks at their bytes first, and at items only where these are not the same. It takes no
//!   memory.
//! - [`compare_bytes`] compares two records by their bytes.
//! - [`key_items`] are the items of a key. [`compare_files`] compares the records of two files, those of one key or, without a key, in the order in which they
//!   come, prints what differs, and counts them. It asks for memory before the first record alone.
//!
//! What is promised of [`compare_records`] (its clause `is`, by `IsComparison` of specs/Differences.antt):
//!
//! - it answers that two records are equal exactly where they are equal by value: each entry occurs as often in both, and each element of each item that is
//!   compared holds one value in both (`EqualByValue` of specs/Equal.antt);
//! - one value are the same bytes, and of a number also bytes that represent the same number, whatever their sign codes; minus zero is zero. Bytes that
//!   represent no number are one value with the same bytes alone (`SameValue`);
//! - else it hands out the elements that differ, each that both records have and that does not hold one value, in the order of the entries, the last
//!   subscript the fastest: the first [`MOST_TOLD`] of them, and how many there are (`AreFirstDifferences`).
//!
//! That records with the same bytes are equal by value is the law [`same_bytes_are_equal`]. Of [`compare_bytes`] it is promised that it answers that two records
//! are the same exactly where their bytes are, and else hands out the first bytes that differ (`IsBytesComparison`).
//!
//! What is promised of [`compare_files`] (its clause `compares`, by `Merges` of specs/Merging.antt):
//!
//! - each record that came is whole and legible as [`show`](cob_report_show::show) reads it, has its key, and does not stand below the one before it
//!   (`FileSoFar` of specs/Files.antt). It stands in one entry, in the order of its file: a pair, compared as above, or alone;
//! - the next records of both files are a pair where they have one key, and else the lesser stands alone (`AreMerged` of specs/Merged.antt). Keys are ordered by
//!   the first of their items that are not alike: numbers by their values, characters by their bytes (`key_order` of specs/Keys.antt). Without a key they are
//!   pairs in their order, and behind them records of one file stand alone: the law [`without_key_in_order`];
//! - the answer says how many pairs there are of each kind, and how many records stand alone (`counts_of`), and both files are at their end. Pairs and records
//!   alone are as many as the records of their file: the law [`each_record_stands_once`];
//! - what is printed are the lines of the pairs that differ and of the records that stand alone, in their order, of at most so many records
//!   (`AreEntryLines`), and behind them the line with the counts (`counts_line`). The lines of a pair are its numbers and its key, and each difference that is
//!   handed out with both values, as [`show`](cob_report_show::show) prints them (`AreComparedRecordLines` of specs/Lines.antt);
//! - or it names the first record that stops it, by its file, its number and the reason (`StopsFile`), and the definition says what was read of the other file
//!   (`StopsOn`). A key stops it exactly where an item of it is no number, or it stands below the one before it. Where it is the printing of a record's lines
//!   that failed, what the sink took is not told (`StopsPrinting`);
//! - a read or a write failed exactly where the answer says so (`left_reads`, `right_reads`, `writes`), and where memory is refused nothing was read or printed.
//!
//! # Where it is proved
//!
//! The clauses `compares`, `left_reads`, `right_reads`, `writes` of `compare_files`; the clauses `is` of `compare_records` and `compare_bytes`; the clause `items`
//! of `compared_items`; the clause `keys` of `key_items`; the laws `same_bytes_are_equal`, `each_record_stands_once`, `without_key_in_order`.
#![tactic(auto)]

mod bytes;
mod chosen;
mod counted;
mod differences;
mod elements;
mod files;
mod headings;
mod heads;
mod keys;
mod laws;
mod lines;
mod merging;
mod pairs;
mod records;
mod runs;
mod turns;
mod values;

pub use bytes::{ByteDifference, FirstBytes};
pub use chosen::compared_items;
pub use counted::PairCounts;
pub use differences::{Difference, FirstDifferences, MOST_TOLD};
pub use elements::ComparedRecord;
pub use files::{CompareStop, FileSide, StopReason};
pub use keys::{MOST_KEYS, key_items};
pub use laws::{each_record_stands_once, same_bytes_are_equal, without_key_in_order};
pub use records::{Comparison, compare_bytes, compare_records};
pub use runs::{CompareFault, CompareOptions, compare_files};
