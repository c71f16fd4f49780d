//! The command `compare` of `cobconv`: the records of two files of one layout, pair by pair.
//!
//! [`do_compare`] carries it out, prints what comes of it, and answers how the program ends. [`compare_records_of`] does so without the fault: it reads the
//! copybook, finds the items of the key and the entries that are ignored, opens both files, and hands all to
//! [`compare_files`](cob_report_compare::compare_files), which says what is compared and what is printed.
//!
//! What is promised: the program ends with 0 exactly where all records of both files are pairs that are equal, and with 1 where some are not
//! (`status_of_comparison` of specs/Ends.antt), or as where a device failed if its last line could not be printed; and what `compare_to_end` compared, over
//! the bytes that come of both files (`ComparesFiles` of `cob_report_compare`). Which entries the words of `--key` and `--ignore` name is shown by rows.
//!
//! # Where it is proved
//!
//! The clause of `do_compare`: with which status the command ends; inside, the clauses `compares` and `flushed` of `compare_to_end`.
#![tactic(auto)]

mod compare;
mod ends;
mod fault;
mod key;
mod names;

pub use compare::{compare_records_of, do_compare};
pub use fault::{ComparisonFault, NameRule};
