//! The command `map` of `cobconv`: the page of a mapping, and in it a record and what it becomes.
//!
//! [`do_map`] carries it out, prints the page on standard output, or what is at fault on standard error, and answers how the program ends: by
//! [`print_map`], which prints the page and only answers. The files for texts are opened and read in the order of the options, and then the file with the
//! record, where one is named. Records before it are read by their frames alone.
//!
//! What is promised:
//!
//! - the record that is shown is the one with its number, and what stands beside it is what a conversion makes of it (`shown_record` of
//!   `cob_program_map`);
//! - the bytes that are marked as covered are those of the output record that receivers cover (`IsByteCovered` of `cob_report_cover`);
//! - what is said that a single move may lose is what it may lose (`AreAllLosses` of `cob_report_cover`);
//! - a single move of bytes is said to lose their description exactly where it may lose it (`AreAllTold` of specs/Told.antt, by `KeepsIts` and
//!   `LosesFirst` of `cob_back_losses`);
//! - the condition-names that stand below the entries of a record are those of the text of its copybook (`HaveTheirNames` of specs/Books.antt), and
//!   `ConditionRows` of `cob_report_boxes` promises to the byte what is printed of them;
//! - which faults the command can have (`StopsAtRecord` of `cob_program_faults`, by `MayNotMap` of specs/Ends.antt), and that it ends with the status of
//!   what it came to, or as where a device failed if its last line was not printed; a record that the file has not ends it as a malformed command line
//!   (`EndsAtRecord`).
//!
//! Which words are printed is shown by `cob_test_jobs`.
//!
//! # A record by its number
//!
//! A record of a file by its number, and what it becomes.
//!
//! [`converted_record`] passes over the records before it by their frames alone, reads the record, judges it by its layout and converts it, in the buffers
//! of its caller. [`shown_record`] has the buffers, and answers it with where the entries of both records stand, as a [`Shown`]; or why not ([`NotShown`]).
//!
//! What is promised:
//!
//! - what is shown is a record of the layout, and what stands beside it is what a conversion makes of it (`ShowsRecord` of specs/Numbered.antt, by
//!   `IsConverted` of `cob_convert`; `IsShown` of specs/Showing.antt);
//! - where the source tells its bytes, it is the one with this number; or there are only so many, fewer than this number; or one up to it stops a run, and
//!   the fault says which, where and why (`FindsRecord`, `AreFewer`; `FindsShown`, `IsNotShown`);
//! - its places, and those of what it becomes, are those under its own counts where these are valid, and else those under the greatest counts
//!   (`ArePlacesShown`).
//!
//! # Where it is proved
//!
//! The clauses of `converted_record` and `shown_record`: the record that is shown is one of the layout, and what stands beside it is what it becomes
//! (`ShowsRecord`, `IsShown`); where the source tells its bytes, it is the one with its number, or there are only so many, or one up to it stops a run,
//! and the fault says which, where and why (`FindsRecord`, `AreFewer`; `FindsShown`, `IsNotShown`); the places of both are those under their own counts
//! where these are valid, and else those under the greatest counts (`ArePlacesShown`); that the bytes that are marked as covered are those that receivers
//! cover (`MarkCoveredBytes`, `IsByteCovered` of `cob_report_cover`), that what is said that a single move may lose is what it may lose (`AreAllLosses`
//! of `cob_report_cover`), and that a move of bytes is said to lose their description exactly where it may lose it, by the first byte (`AreAllTold`, by
//! `KeepsIts` and `LosesFirst` of `cob_back_losses`); that the condition-names that stand below entries are those of the texts of both copybooks
//! (`HaveTheirNames`, by `AreConditionNamesOf` of `cob_copybook_conditions`); which faults `map` can have (`MayNotMap`, by `StopsAtRecord` of
//! `cob_program_faults`), and with which status it ends (`EndsAtRecord`, as `explain` does).
#![tactic(auto)]

mod books;
mod command;
mod drawn;
mod ends;
mod mapping;
mod record;
mod shown;

pub use command::{do_map, print_map};
pub use ends::Unmapped;
pub use record::{FoundRecord, Lengths, converted_record};
pub use shown::{NotShown, Shown, shown_record};
