//! How the command ends.

ghost use Rattle.std.specs.Prelude.{◌≡◌};
ghost use Rattle.cob_program_faults.specs.Ends.{EndsAs};
ghost use Rattle.cob_program_map.specs.Ends.{status_of_map};

use cob_convert::Status;
use cob_program_faults::{CommandFault, printed, tell_fault};
use std::alloc::AllocError;
use std::io::Eprint;

/// Why there is no page.
#[derive(Drop)]
pub enum Unmapped {
    /// The fault of a text, of the file with the record, of the record or of the device.
    Fault(CommandFault),
    /// The file has fewer records than the number that is named.
    NoRecord { number: u64, there: u64 },
}

impl From<CommandFault> for Unmapped {
    ghost use Rattle.std.specs.Prelude.{◌≡◌};
    ghost use Rattle.cob_program_map.specs.declared.ends.Unmapped.TheVariants.{Fault};

    ghost from_gives = { λ fault told. told ≡ Fault fault };

    fn from(fault: CommandFault) -> Unmapped {
        Unmapped::Fault(fault)
    }
}

impl From<AllocError> for Unmapped {
    ghost use Rattle.std.specs.Prelude.{◌≡◌};
    ghost use Rattle.cob_program_faults.specs.declared.fault.CommandFault.TheVariants.{Memory};
    ghost use Rattle.cob_program_map.specs.declared.ends.Unmapped.TheVariants.{Fault};

    ghost from_gives = { λ _ told. told ≡ Fault Memory };

    fn from(_: AllocError) -> Unmapped {
        Unmapped::Fault(CommandFault::Memory)
    }
}

/// Prints why there is no page, where there is none, and answers how the command ends.
pub fn tell_mapped<R: Eprint>(rt: &R, outcome: Result<(), Unmapped>) -> Status
    ensures { EndsAs (status_of_map outcome) result }
{
    match outcome {
        Ok(()) => Status::Done,
        Err(Unmapped::Fault(fault)) => tell_fault(rt, fault),
        Err(Unmapped::NoRecord { number, there }) => printed(
            eprintln!(rt; "no record {number}: in has {there}"),
            Status::Malformed,
        ),
    }
}
