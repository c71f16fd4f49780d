//! Jobs: one text that holds two copybooks, a paragraph of MOVE statements and the input's bytes as digits, and what is printed of it.
//!
//! [`job_into`] reads a job, prepares its converter, runs it over the data, prints what comes of it and hands its sink back; [`job`] does
//! the same with a sink that is lent. What is promised:
//!
//! - A text is cut at its marks exactly where it is a job: its parts are the very bytes between the marks, and the data's first line has
//!   its number (`found`, `only`, `number` of `JobText::read`, by `IsJobOf` of specs/Marks.antt). What is no job is refused with the number
//!   of the first line that is not the next mark, or 0 where a mark lacks (`refused`).
//! - Data are read as just the bytes that their digits stand for, of either case, with spaces and line ends between them, or refused with
//!   the number of the first line that holds anything else, or of the last where a digit is odd (`decode`).
//! - A job that the source gave, whole or longer than a job may be, is answered as its parts mean: a refusal of its text, its data or one
//!   of its three texts, or the run of the conversion that they say over just the bytes of its data (`IsOutcome` of specs/JobAnswers.antt).
//! - What is printed is the line of the output's bytes, two capital hexadecimal digits for each, and the line of the answer; and the number
//!   for the system is that of the answer's status. Where the output fails, a beginning of this is printed, and the number is a device's
//!   (`IsDone`, by `IsJobPrinted`). A sink that is lent stands with its lender: `job` says all but what it has taken at the end.
//!
//! Which words tell a refused text or a stop is shown by tests.
//!
//! # The job on standard input
//!
//! The job that `cobconv` does where no words are said: one text on standard input with all that a run needs.
//!
//! What is promised: a job ends with the number of a status (`IsEndOfJob`), that with which [`job`] ends it, or that of a device that failed where
//! what it prints was not handed over (`code`, `EndsUntold` of specs/CommandEnds.antt). What is printed is shown by the stored jobs of `cob_test_jobs`.
//!
//! # Where it is proved
//!
//! The clauses of `job_into` and `job`; below them `found`, `only`, `number`, `refused` of `JobText::read`, `decode`, and those of the sink of digits.
//! The clause of `do_job`: a job ends with the number of a status. Inside: what the sink still holds behind `job_to_end`, and how a job ends whose output
//! was handed over or not.
#![tactic(auto)]

mod command;
mod end_line;
mod fault;
mod hex;
mod job_data;
mod job_text;
mod jobs;

pub use command::do_job;
pub use jobs::{job, job_into};
