//! The commands of `cobconv` that read texts alone: `check`, `draft` and `lossless`.
//!
//! # `check`
//!
//! The command `check` of `cobconv`, plain and with `--cover`: what the texts of a conversion come to, and what a paragraph leaves open between two
//! records.
//!
//! [`do_check`] and [`do_cover`] carry it out, print the line of what the texts come to, the second also the lists of `cob_report_cover` behind it, and answer
//! how the program ends: by [`check`] and [`cover`], which only answer. What is promised: which faults a check can have (`MayEndCheck` of
//! specs/CheckEnds.antt), and that it ends with the status of what it came to (`status_of_covered`), or as where a device failed if it was not printed: a
//! strict one, where something is open, as a run that a record stopped (`EndsCheck`). What the lists hold is promised by `cob_report_cover`, and how they read
//! is shown by the stored command lines of `cob_test_jobs`.
//!
//! # `draft`
//!
//! The command `draft` of `cobconv`: a paragraph to begin with.
//!
//! [`do_draft`] carries it out, prints the paragraph, and on standard error the one thing that it lacks to be legal, if it lacks one, and answers how the
//! program ends: by [`drafted`], which only answers. What is promised: which faults the command can have (`MayEndDraft` of specs/DraftEnds.antt), and that it
//! ends with the status of what it came to, or as where a device failed if it was not printed (`EndsAmong` of `cob_program_faults`). Which statements
//! stand in it is promised by `cob_report_draft`, and how it reads is shown by the stored command lines of `cob_test_jobs`.
//!
//! # `lossless`
//!
//! The command `lossless` of `cobconv`: whether a second paragraph brings back all that a first one takes.
//!
//! [`do_lossless`] carries it out, prints `yes`, or `no` and on standard error why, and answers how the program ends: by [`lose_nothing`], which only
//! answers. The files for texts are opened and read in the order of the options. One text of each copybook serves both conversions: the one there goes
//! from the record of `--in-book` to that of `--out-book`, by the paragraph that `--there` names, and the one back from the second record to the first,
//! by the paragraph that `--back` names. A text that names no record is the input's in the one, and the output's in the other.
//!
//! What is promised:
//!
//! - what texts come to (`answer`, by `IsAnswer` of specs/Answers.antt): they say two conversions, and the answer is whether these lose nothing
//!   (`AreLossless` of `cob_back_runs`); where they don't, the conversion back keeps what the other one converts (`Keeps`);
//! - that a text that is refused breaks a rule, and is told by the option that names it (`refused`, by `RefusesTexts`);
//! - which faults the command can have (`MayEndLossless` of specs/LosslessEnds.antt), and that it ends with the status of what it came to, or as where a
//!   device failed if its last line was not printed (`EndsAmong` of `cob_program_faults`).
//!
//! Why the answer is no is told in words that the stored command lines of `cob_test_jobs` show.
//!
//! # Where it is proved
//!
//! Which faults `check`, `cover`, `draft` and `lossless` can have, and with which status `do_check`, `do_cover`, `do_draft` and `do_lossless` end; a
//! strict check ends as a run that a record stopped exactly where something is open (`status_of_covered`); inside, what four texts come to (`answer_of`).
#![tactic(auto)]

mod answer;
mod checking;
mod covering;
mod draft;
mod lossless;
mod reading;
mod refusals;

pub use checking::{Checked, check, do_check};
pub use covering::{cover, do_cover};
pub use draft::{do_draft, drafted};
pub use lossless::{do_lossless, lose_nothing};
pub use refusals::paragraph_refusals;
