ghost use Rattle.std.specs.Prelude.{◌≡◌};
ghost use Rattle.cob_convert.specs.Statuses.{printed_status};
ghost use Rattle.cob_program_faults.specs.Faults.{status_of};
ghost use Rattle.cob_program_faults.specs.Ends.{EndsAs};

use crate::fault::CommandFault;
use cob_convert::Status;
use std::io;
use std::io::Eprint;

/// The status of a command whose last line was printed, or was not.
pub fn printed(line: io::Result<()>, status: Status) -> Status
    ensures status { result ≡ printed_status line status }
    ensures ends { EndsAs status result }
{
    match line {
        Ok(()) => status,
        Err(_) => Status::Device,
    }
}

/// Prints the fault of a command on standard error, but for the fault that a line cannot be printed, and answers how the command ends.
pub fn tell_fault<R: Eprint>(rt: &R, fault: CommandFault) -> Status
    ensures { EndsAs (status_of fault) result }
{
    match fault {
        CommandFault::Unprinted => fault.status(),
        fault => printed(eprintln!(rt; "{fault}"), fault.status()),
    }
}
