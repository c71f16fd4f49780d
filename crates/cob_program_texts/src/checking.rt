ghost use Rattle.std.specs.Prelude.{IfErr};
ghost use Rattle.cob_program_faults.specs.Ends.{EndsAmong, EndsAs, status_of_outcome};
ghost use Rattle.cob_program_texts.specs.CheckEnds.{MayEndCheck};

use crate::reading::read_texts;
use cob_convert::Status;
use cob_program_faults::{CommandFault, printed, tell_fault};
use cob_program_line::CheckLine;
use std::fmt;
use std::io::{Eprint, Print};
use std::rt::Files;

/// What the three texts of a conversion come to.
#[derive(Clone, Copy, PartialEq, Eq)]
pub struct Checked {
    /// The greatest length of an input record.
    pub input: u16,
    /// The greatest length of an output record.
    pub output: u16,
    /// How many single moves the paragraph makes.
    pub moves: u32,
}

impl fmt::Display for Checked {
    fn fmt<W: fmt::Write>(&self, f: &mut fmt::Formatter<W>) -> fmt::Result {
        let Checked {
            input,
            output,
            moves,
        } = self;
        write!(f, "ok in {input} out {output} moves {moves}")
    }
}

/// Reads the three texts of a conversion and prepares it, and answers what they come to.
///
/// # Errors
///
/// A file that is not opened or not read, a text that is refused, want of memory.
pub fn check<R: AllocGlobal + Files>(rt: &R, line: &CheckLine<'_>) -> Result<Checked, CommandFault>
    ensures { IfErr result MayEndCheck }
{
    match read_texts(rt, line, false) {
        Ok(told) => Ok(told.0),
        Err(fault) => Err(fault),
    }
}

/// Prints what the texts of a conversion come to, and answers how the check ends.
fn tell_checked<R: Print + Eprint>(rt: &R, outcome: Result<Checked, CommandFault>) -> Status
    ensures { EndsAs (status_of_outcome outcome) result }
{
    match outcome {
        Ok(checked) => printed(println!(rt; "{checked}"), Status::Done),
        Err(fault) => tell_fault(rt, fault),
    }
}

/// Checks, prints what the texts come to or what is at fault, and answers how the program ends.
pub fn do_check<R: AllocGlobal + Files + Print + Eprint>(rt: &R, line: &CheckLine<'_>) -> Status
    ensures { EndsAmong MayEndCheck result }
{
    tell_checked(rt, check(rt, line))
}
