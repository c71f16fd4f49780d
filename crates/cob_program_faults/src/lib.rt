//! What commands of `cobconv` have in common: files and texts, faults, and how a command ends.
//!
//! # Files and texts
//!
//! Files of the commands of `cobconv`: texts that are read whole, which names lead to one file, and outputs that come into their place at once.
//!
//! - [`read_whole`] reads a source to its end, or past the greatest length that its reader takes: what was read is what the source gave (`bytes`),
//!   and its end was reached unless there is too much of it (`whole`). [`read_text`] reads the text in a file so.
//! - [`FileIdentity`] says which file of the system a name leads to. [`loses`] compares two: whether making or writing an output would lose what
//!   another file holds, under whatever name it was given (`Loses` of specs/Identity.antt). [`lead_to_one_file`] compares files of every kind.
//! - [`create_part`] makes the file that stands in for an output, of the name [`part_name`], and [`put_in_place`] gives it the output's name. So an
//!   output is as it was until all of the new one is on its device; and the folder with its new name, [`folder_of`], is brought there too.
//!
//! What a file holds before or after a call, and what the system tells of a name, is no part of a clause; the stored command lines of `cob_test_jobs` and
//! `tools/try_files` show it.
//!
//! # Faults and ends
//!
//! What may go wrong with a command of `cobconv`, and how a command ends.
//!
//! - [`CommandFault`] is why a command is not done: its words are those of the line that is told, and [`CommandFault::status`] is how the program
//!   ends then. What the refusals of lower crates become is said by specs/Faults.antt, one definition for each: want of memory is told as that
//!   alone.
//! - [`CommandDone`] is what a command came to that converts and is done, with the words of the line that is told and its status: that of a run which a
//!   record stopped, where some were rejected and set aside (`status_of_done` of specs/Done.antt).
//! - [`tell_fault`] prints such a line, and [`printed`] says how a command ends whose last line was printed or was not: as it came out, or as where a
//!   device failed (`EndsAs` of specs/Ends.antt).
//! - [`text_of`] reads the text in the file that an option names, and [`Texts`] the three texts of a conversion, in the order of the options; which
//!   faults they can have is said by specs/Texts.antt. [`opened`] names the option of a file that is not opened or not made. Which faults a command can
//!   have that shows a record of a conversion, and how it ends, say `StopsAtRecord` and `EndsAtRecord`, for the commands that do so.
//! - [`judge_lrecl`] asks of a copybook that its records fit the record length that their file is said to have (`FitsLrecl` of specs/Lengths.antt), and
//!   [`fitting`] does so of a converter; [`tell_uneven`] tells that the size of a file is no multiple of the length that each of its records has.
//! - [`telling`] says how a run tells how far it is, [`asks_a_person`] whether a person may be waiting at standard input, and [`tells_a_person`] whether one reads
//!   standard error.
//!
//! Which words tell a fault, and what a terminal is, is shown by `cob_test_jobs` and `tools/try_files`.
//!
//! # Where it is proved
//!
//! The clauses `bytes`, `whole`, `kind`, `cause` of `read_whole`, those of `loses`, `lead_to_one_file`, `is_same_file`, `part_name` and `folder_of`; the
//! clauses of `CommandFault::status` and `CommandDone::status`, what each fault of a lower crate becomes, and how a command ends whose last line was
//! printed or not (`printed`, `tell_fault`); which faults the reading of texts can have, and those of a command that shows a record of a conversion, with
//! how it ends (`StopsAtRecord`, `EndsAtRecord`); that records are refused exactly where they do not fit the record length that is said, and what is told
//! then (`judge_lrecl`, `fitting`, `Texts::prepared`; `FitsLrecl`, `IsOtherLength`).
#![tactic(auto)]

mod done;
mod ends;
mod fault;
mod identity;
mod lengths;
mod opening;
mod outputs;
mod terminals;
mod texts;
mod whole_text;

pub use done::CommandDone;
pub use ends::{printed, tell_fault};
pub use fault::{CommandFault, FileName};
pub use identity::{FileIdentity, lead_to_one_file, loses};
pub use lengths::{fitting, judge_lrecl, tell_uneven};
pub use opening::opened;
pub use outputs::{OutputFault, create_part, folder_of, part_name, put_in_place};
pub use terminals::{asks_a_person, telling, tells_a_person};
pub use texts::{Texts, text_of};
pub use whole_text::{TextFault, read_text, read_whole};
