//! The command `explain` of `cobconv`: the single moves of one record, and why it does not convert, where it does not.
//!
//! [`do_explain`] carries it out, prints what is told of the record and answers how the program ends: by [`explain_record`], which only answers, and
//! [`explain_record_of`] does for a record of a piece of the file. The files for texts are opened and read in the order of the options, and then that of
//! the records.
//!
//! A record that converts is told by a line with its number, the two lines of each single move and `ok`; one that does not by these lines up to the stop,
//! and on standard error its fault line, as ever, and behind it what is wrong in words. The lines of a single move are printed as soon as it is done. A
//! record that is not there is told on standard error, and ends as a malformed command line.
//!
//! What is promised: which faults the command can have (`StopsAtRecord` of `cob_program_faults`), and that it ends with the status of what it came to
//! (`EndsTold` of specs/Ends.antt), or as where a device failed if something was not printed (`EndsAtRecord` of `cob_program_faults`).
//!
//! # Where it is proved
//!
//! Which faults `explain` can have (`StopsAtRecord`), and with which status it ends (`EndsTold`, `EndsAtRecord`); inside, that it ends as where a device
//! failed where its moves were not printed (`tell_converts`, `tell_stops`).
#![tactic(auto)]

mod command;
mod printing;

pub use cob_report_explain::Silent;
pub use command::{Stretch, do_explain, explain_record, explain_record_of};
