ghost use Rattle.std.specs.Prelude.{◌≡◌};
ghost use Rattle.cob_convert.specs.Statuses.{code_of, status_of_prepare_fault, status_of_stop};

use crate::fault::PrepareFault;
use cob_convert_stream::Cause;
use cob_records::RecordFault;

/// How a program ends.
#[derive(Clone, Copy, PartialEq, Eq)]
pub enum Status {
    /// All records were converted.
    Done,
    /// A record stopped the run.
    Stopped,
    /// The command line or the job is malformed, or the blocks of the output are too short.
    Malformed,
    /// A text was refused.
    Refused,
    /// A device failed.
    Device,
    /// Memory was refused.
    Memory,
}

impl Status {
    /// The status of a run that stopped for this cause: whether a record stopped it, or a device failed.
    pub fn of_stop(cause: Cause) -> Status
        ensures { result ≡ status_of_stop cause }
    {
        match cause {
            Cause::Record(
                RecordFault::ReadFailed
                | RecordFault::WriteFailed { .. }
                | RecordFault::TookNothing { .. },
            ) => Status::Device,
            _ => Status::Stopped,
        }
    }

    /// The status of a conversion that is not prepared: a text is refused, or the blocks of the output are too short.
    pub fn of_prepare_fault(refused: PrepareFault) -> Status
        ensures { result ≡ status_of_prepare_fault refused }
    {
        match refused {
            PrepareFault::Block { .. } => Status::Malformed,
            PrepareFault::InBook(_)
            | PrepareFault::OutBook(_)
            | PrepareFault::Moves(_)
            | PrepareFault::Memory => Status::Refused,
        }
    }

    /// The number that the system gets.
    pub fn code(self) -> u8
        ensures { result ≡ code_of self }
    {
        match self {
            Status::Done => 0,
            Status::Stopped => 1,
            Status::Malformed => 2,
            Status::Refused => 3,
            Status::Device => 4,
            Status::Memory => 5,
        }
    }
}
