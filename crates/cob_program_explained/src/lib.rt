//! What the flag `--explain` adds to commands: behind a fault, what is wrong and why.
//!
//! - [`do_convert_explained`] and [`do_convert_aside_explained`] convert and print what comes of it as `convert` does, and behind the fault line of a record
//!   that stops the run what `explain` prints behind that line: which item it is, its picture, its place and its bytes, what is wrong with them, and the
//!   statement that asked. For that they read the texts and the record once more, in the same piece of the file, where none of them comes from standard
//!   input or a pipe, which can't be read again.
//! - [`do_show_explained`] and [`do_pieces_explained`] list as `show` and `pieces` do, and print behind the fault line of a record that ends the list what is
//!   wrong with its frame or its count, and what to do. For a count the copybook and the record are read once more, where both can be.
//! - [`files_of`] are the files that are opened for those that the options of a command line name, in their order, for a runtime that keeps the last error of
//!   one (`cob_program_runtime`), and [`tell_file_error`] prints that error: the option, its path and the system's words.
//! - [`can_be_read_again`] says whether a file has its bytes still when they were read.
//!
//! What is promised: that conversions and lists end as those without the flag do, with the status of what they came to (`EndsAmong` and `EndsAside` of
//! `cob_program_faults`, with the faults `MayEndConvert` and `MayEndAside`; of lists `MayEndListing`), or as where a device failed if the last line was not printed. Which words are printed is shown by the
//! stored command lines of `cob_test_jobs`, and that no pipe is waited for by `tools/try_files`.
//!
//! # Where it is proved
//!
//! Which faults `convert --explain` can have, with `--rejects` and without, `show --explain` and `pieces --explain`, and with which status they end: those of
//! the same command without the flag.
#![tactic(auto)]

mod conversions;
mod files;
mod lists;
mod stops;

pub use conversions::{do_convert_aside_explained, do_convert_explained, tell_explained};
pub use files::{files_of, tell_file_error};
pub use lists::{do_pieces_explained, do_show_explained};
pub use stops::can_be_read_again;
