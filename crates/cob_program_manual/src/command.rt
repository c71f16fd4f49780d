ghost use Rattle.cob_program_faults.specs.Ends.{EndsAmong};
ghost use Rattle.cob_program_manual.specs.Ends.{MayEndPrinting};

use crate::texts::{completion_of, pages_of};
use cob_convert::Status;
use cob_program_faults::{CommandFault, printed, tell_fault};
use std::alloc::AllocError;
use std::io::{Eprint, Print};

/// Prints a text that is made in memory, or the fault that it is not made, and answers how the command ends.
fn tell_text<R: Print + Eprint>(rt: &R, made: Result<String, AllocError>) -> Status
    ensures { EndsAmong MayEndPrinting result }
{
    match made {
        Ok(text) => printed(print!(rt; "{text}"), Status::Done),
        Err(_) => tell_fault(rt, CommandFault::Memory),
    }
}

/// Prints what bash needs to complete command lines, and answers how the program ends.
pub fn do_completion<R: AllocGlobal + Print + Eprint>(rt: &R) -> Status
    ensures { EndsAmong MayEndPrinting result }
{
    tell_text(rt, completion_of(rt.alloc()))
}

/// Prints the manual pages, and answers how the program ends.
pub fn do_manual<R: AllocGlobal + Print + Eprint>(rt: &R) -> Status
    ensures { EndsAmong MayEndPrinting result }
{
    tell_text(rt, pages_of(rt.alloc()))
}
