ghost use Rattle.std.specs.Prelude.{IfErr};
ghost use Rattle.cob_convert.specs.declared.status.Status.TheVariants.{Done};
ghost use Rattle.cob_program_faults.specs.Ends.{EndsAmong, EndsAs, status_of_outcome};
ghost use Rattle.cob_program_texts.specs.LosslessEnds.{MayEndLossless};

use crate::answer::{Answer, answer_of};
use cob_convert::Status;
use cob_program_faults::{CommandFault, FileName, printed, tell_fault, text_of};
use cob_program_line::LosslessLine;
use std::io::{Eprint, Print};
use std::rt::Files;

/// Reads two copybooks and two paragraphs, and answers whether the second paragraph brings back all that the first one takes.
///
/// # Errors
///
/// A file that is not opened or not read, a text that is refused, want of memory.
pub fn lose_nothing<R: AllocGlobal + Files>(
    rt: &R,
    line: &LosslessLine<'_>,
) -> Result<Answer, CommandFault>
    ensures { IfErr result MayEndLossless }
{
    let in_book = text_of(rt, line.in_book, FileName::InBook)?;
    let out_book = text_of(rt, line.out_book, FileName::OutBook)?;
    let there = text_of(rt, line.there, FileName::There)?;
    let back = text_of(rt, line.back, FileName::Back)?;
    answer_of(rt.alloc(), &in_book, &out_book, &there, &back)
}

/// Prints `no`, and behind it on standard error why, and answers how the command ends.
fn tell_no<R: Print + Eprint>(rt: &R, loss: &str) -> Status
    ensures { EndsAs Done result }
{
    match println!(rt; "no") {
        Ok(()) => printed(eprintln!(rt; "{loss}"), Status::Done),
        Err(_) => Status::Device,
    }
}

/// Prints `yes` or `no` and why, or what is at fault, and answers how the command ends.
fn tell_answer<R: Print + Eprint>(rt: &R, outcome: Result<Answer, CommandFault>) -> Status
    ensures { EndsAs (status_of_outcome outcome) result }
{
    match outcome {
        Ok(Answer::Yes) => printed(println!(rt; "yes"), Status::Done),
        Ok(Answer::No(loss)) => tell_no(rt, &loss),
        Err(fault) => tell_fault(rt, fault),
    }
}

/// Says whether the second paragraph brings back all that the first one takes, prints what is at fault, and answers how the program ends.
pub fn do_lossless<R: AllocGlobal + Files + Print + Eprint>(
    rt: &R,
    line: &LosslessLine<'_>,
) -> Status
    ensures { EndsAmong MayEndLossless result }
{
    tell_answer(rt, lose_nothing(rt, line))
}
