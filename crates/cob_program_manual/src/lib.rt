//! What those need who install `cobconv`: the completion of command lines for bash, and the manual pages.
//!
//! Both are made from the definition of the command that reads the words of command lines ([`cob_program_options::program`]): its commands with what each
//! does, and their options, each with its name, its value, its default and its help. So what they name is what is read. Commands that are not told of in
//! help, as these two, stand in neither. The manual pages are one of the program, with an example of each command in front, and one of each command, one
//! behind another; each begins with a line `.TH`.
//!
//! [`do_completion`] and [`do_manual`] print them. What is promised is which faults they can have (`MayEndPrinting` of specs/Ends.antt), and that they end
//! with the status of what they came to (`EndsAmong` of `cob_program_faults`). What they print is shown by the stored command lines of `cob_test_jobs`.
//!
//! # Where it is proved
//!
//! Which faults `completion` and `manual` can have, and with which status they end.
#![tactic(auto)]

mod command;
mod completion;
mod notes;
mod page;
mod parts;
mod texts;
mod words;

pub use command::{do_completion, do_manual};
pub use texts::{completion_of, pages_of};
