//! What the program `cobconv` does: it reads the words that it is called with, does what they ask for, and answers its status.
//!
//! [`answer`] reads what the words after the program's name mean (`meant_words` of `cob_program_words`) and answers the number of the status: by [`perform`], which carries out a command line, or by
//! [`refuse`], where there is none. The commands stand in crates of their own, as `cob_program_convert`, `cob_program_texts` and `cob_program_list`, and the
//! job that no words ask for in `cob_program_job`. A command runs over a runtime that keeps the last error of some files, which is told behind a device that
//! failed: with the flag `--explain` of those that its options name, else of none. Behind a text that is refused it prints why, with that flag and where standard error is a terminal: copybooks are in memory
//! then, and the paragraph is read once more where its file can be. The number with which the program ends does not depend on it.
//!
//! What is promised, by specs/Commands.antt: words that mean a command line end with the status of what its command came to, which may have the
//! faults of that command (`IsEndOfLine`); words that mean none end as their refusal says: help and the version as all done, want of memory as
//! that, others as malformed (`IsEndOfRefusal`); and where the last line could not be printed, as where a device failed. With which status a job
//! ends is promised by `cob_program_job`. What is printed is shown by the stored command
//! lines of `cob_test_jobs`.
//!
//! # Where it is proved
//!
//! The clauses of `answer`, `perform` and `refuse`: with which number the program ends, by what its words are.
#![tactic(auto)]

mod commands;
mod handed;
mod refusals;
mod release;

pub use commands::{answer, perform, refuse};
