//! How a comparison ends.

ghost use Rattle.std.specs.Prelude.{Err};
ghost use Rattle.cob_program_compare.specs.Ends.{status_of_comparison};
ghost use Rattle.cob_program_faults.specs.Ends.{EndsAs};

use crate::fault::ComparisonFault;
use cob_convert::Status;
use cob_program_faults::{CommandFault, printed};
use cob_report_compare::PairCounts;
use std::io::Eprint;

/// Prints a fault on standard error, but for the fault that a line cannot be printed, and answers how the command ends.
fn tell<R: Eprint>(rt: &R, fault: ComparisonFault) -> Status
    ensures { EndsAs (status_of_comparison (Err fault)) result }
{
    match fault {
        ComparisonFault::Command(CommandFault::Unprinted) => fault.status(),
        fault => printed(eprintln!(rt; "{fault}"), fault.status()),
    }
}

/// How a comparison ends that came to these counts, or to a fault, which it prints.
pub(crate) fn end_of<R: Eprint>(rt: &R, outcome: Result<PairCounts, ComparisonFault>) -> Status
    ensures { EndsAs (status_of_comparison outcome) result }
{
    match outcome {
        Ok(counts) if counts.are_equal() => Status::Done,
        Ok(_) => Status::Stopped,
        Err(fault) => tell(rt, fault),
    }
}
