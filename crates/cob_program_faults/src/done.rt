ghost use Rattle.std.specs.Prelude.{◌≡◌};
ghost use Rattle.cob_program_faults.specs.Done.{status_of_done};

use cob_convert::Status;
use std::fmt;

/// What a command that converts came to, where it is done. Its words are those of the line that is told.
#[derive(Clone, Copy, Debug, PartialEq, Eq)]
pub enum CommandDone {
    /// So many records came, and all were converted.
    Converted(u64),
    /// So many records were converted, and so many others were rejected and set aside.
    SetAside { converted: u64, rejected: u64 },
}

impl fmt::Display for CommandDone {
    fn fmt<W: fmt::Write>(&self, f: &mut fmt::Formatter<W>) -> fmt::Result {
        match self {
            CommandDone::Converted(records) => write!(f, "done {records}"),
            CommandDone::SetAside {
                converted,
                rejected,
            } => write!(f, "done {converted} rejected {rejected}"),
        }
    }
}

impl CommandDone {
    /// How the program ends: where records were rejected, as where one stopped the run.
    pub fn status(self) -> Status
        ensures { result ≡ status_of_done self }
    {
        match self {
            CommandDone::Converted(_) => Status::Done,
            CommandDone::SetAside { rejected, .. } if rejected == 0 => Status::Done,
            CommandDone::SetAside { .. } => Status::Stopped,
        }
    }
}
