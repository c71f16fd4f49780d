ghost use Rattle.std.specs.Prelude.{◌≡◌, IfErr};
ghost use Rattle.cob_program_faults.specs.Ends.{EndsAs};
ghost use Rattle.cob_program_texts.specs.CheckEnds.{EndsCheck, MayEndCheck, status_of_cover, status_of_covered};

use crate::reading::read_texts;
use cob_convert::Status;
use cob_program_faults::{CommandFault, printed, tell_fault};
use cob_program_line::CheckLine;
use cob_report_cover::CoverText;
use std::io::{Eprint, Print};
use std::rt::Files;

/// Reads the three texts of a conversion and prepares it, and answers what they come to and what they leave open, in lines, and whether anything is open.
///
/// # Errors
///
/// A file that is not opened or not read, a text that is refused, want of memory.
pub fn cover<R: AllocGlobal + Files>(
    rt: &R,
    line: &CheckLine<'_>,
) -> Result<CoverText, CommandFault>
    ensures { IfErr result MayEndCheck }
{
    let (checked, lists) = read_texts(rt, line, true)?;
    let CoverText { text, is_open } = lists;
    let text = format!(in rt.alloc(); "{checked}\n{text}")?;
    Ok(CoverText { text, is_open })
}

/// How a check ends that is done: a strict one, where something is open, as a run that a record stopped.
fn status_of_cover(strict: bool, is_open: bool) -> Status
    ensures { result ≡ status_of_cover strict is_open }
{
    if strict && is_open {
        Status::Stopped
    } else {
        Status::Done
    }
}

/// Prints lines, or what is at fault, and answers how the check ends.
fn tell_covered<R: Print + Eprint>(
    rt: &R,
    strict: bool,
    outcome: Result<CoverText, CommandFault>,
) -> Status
    ensures { EndsAs (status_of_covered strict outcome) result }
{
    match outcome {
        Ok(covered) => {
            let status = status_of_cover(strict, covered.is_open);
            printed(print!(rt; "{}", covered.text), status)
        }
        Err(fault) => tell_fault(rt, fault),
    }
}

/// Checks, prints what the texts come to and what they leave open, or what is at fault, and answers how the program ends.
pub fn do_cover<R: AllocGlobal + Files + Print + Eprint>(rt: &R, line: &CheckLine<'_>) -> Status
    ensures { EndsCheck line.now.strict result }
{
    tell_covered(rt, line.strict, cover(rt, line))
}
