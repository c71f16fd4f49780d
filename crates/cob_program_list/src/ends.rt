ghost use Rattle.cob_program_faults.specs.Ends.{EndsAs, status_of_outcome};

use cob_convert::Status;
use cob_program_faults::{CommandFault, tell_fault};
use std::io::Eprint;

/// Prints the fault of a list, whose lines are printed, and answers how it ends.
pub fn tell_listed<R: Eprint>(rt: &R, outcome: Result<(), CommandFault>) -> Status
    ensures { EndsAs (status_of_outcome outcome) result }
{
    match outcome {
        Ok(()) => Status::Done,
        Err(fault) => tell_fault(rt, fault),
    }
}
