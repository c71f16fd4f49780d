//! Tests of records, texts and copybooks that have to be code. Nothing stands on this crate, so that no crate is proved again for a test.
//!
//! # Records
//!
//! Tests of `cob_records`: ends that fail in mid-stream, and readers and writers of several kinds. What records are read and refused in a run, the stored
//! jobs of `cob_test_jobs` show.
//!
//! # Texts
//!
//! Tests of the crates of texts, numbers and items that can't be rows of a table: requests for memory that are refused, and what
//! a fault prints that no text has. The rows are data of `cob_test_items` and `cob_test_copybooks`.
//!
//! # Copybooks
//!
//! Tests of the crates that read copybooks, of what tables of rows can't show: refused memory, copies of names and constants, what a
//! fault prints, and entries that no text has.
#![tactic(auto)]

#[cfg(test)]
mod blocks;
#[cfg(test)]
mod calls;
#[cfg(test)]
mod faults;
#[cfg(test)]
mod files;
#[cfg(test)]
mod frames;
#[cfg(test)]
mod limited;
#[cfg(test)]
mod memory;
#[cfg(test)]
mod progress;
#[cfg(test)]
mod source;
#[cfg(test)]
mod streams;
#[cfg(test)]
mod tables;
#[cfg(test)]
mod values;
