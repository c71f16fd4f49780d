ghost use Rattle.std.specs.Prelude.{IfErr};
ghost use Rattle.cob_program_faults.specs.Texts.{LacksFile};

use crate::fault::{CommandFault, FileName};
use cob_records::OpenFault;

/// An end over the file that an option names.
///
/// # Errors
///
/// The fault that it is not there, by that option.
pub fn opened<E>(end: Result<E, OpenFault>, option: FileName) -> Result<E, CommandFault>
    ensures { IfErr result (LacksFile option) }
{
    match end {
        Ok(end) => Ok(end),
        Err(fault) => Err(CommandFault::of_file(fault, option)),
    }
}
