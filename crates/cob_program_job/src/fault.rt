ghost use Rattle.std.specs.Prelude.{◌≡◌, Err};
ghost use Rattle.cob_program_job.specs.Jobs.{data_refusal, is_output_stop, read_refusal, status_of_fault, text_refusal};
ghost use Rattle.cob_program_job.specs.declared.fault.JobFault.TheVariants.{Memory, Stopped};

use crate::job_data::DataFault;
use cob_convert::{PrepareFault, Status};
use cob_convert_stream::{Cause, RunFault};
use cob_program_faults::TextFault;
use cob_records::RecordFault;
use std::alloc::AllocError;
use thiserror::Error;

/// Why a job is not done.
#[derive(Clone, Copy, Debug, PartialEq, Eq, Error)]
pub enum JobFault {
    /// A read failed.
    #[error("cannot read job")]
    CannotRead,
    /// The line of this number is not what must stand there; 0 where a mark lacks or the job is too long.
    #[error("job line {line}")]
    Malformed { line: u32 },
    /// A text is refused, or the blocks of the output.
    #[error("{0}")]
    Refused(PrepareFault),
    /// A record stopped the run, or the output did.
    #[error("{0}")]
    Stopped(RunFault),
    /// Memory was refused.
    #[error("memory")]
    Memory,
}

impl From<AllocError> for JobFault {
    ghost from_gives = { λ _ fault. fault ≡ Memory };

    fn from(_: AllocError) -> JobFault {
        JobFault::Memory
    }
}

impl From<TextFault> for JobFault {
    ghost from_gives = { λ refused fault. fault ≡ read_refusal refused };

    fn from(fault: TextFault) -> JobFault {
        match fault {
            TextFault::NotOpened | TextFault::NotRead => JobFault::CannotRead,
            TextFault::Memory => JobFault::Memory,
        }
    }
}

impl From<PrepareFault> for JobFault {
    ghost from_gives = { λ refused fault. fault ≡ text_refusal refused };

    fn from(fault: PrepareFault) -> JobFault {
        match fault {
            PrepareFault::Memory => JobFault::Memory,
            refused => JobFault::Refused(refused),
        }
    }
}

impl From<DataFault> for JobFault {
    ghost from_gives = { λ refused fault. fault ≡ data_refusal refused };

    fn from(fault: DataFault) -> JobFault {
        match fault {
            DataFault::Line(line) => JobFault::Malformed { line },
            DataFault::Memory => JobFault::Memory,
        }
    }
}

impl From<RunFault> for JobFault {
    ghost from_gives = { λ stopped fault. fault ≡ Stopped stopped };

    fn from(fault: RunFault) -> JobFault {
        JobFault::Stopped(fault)
    }
}

impl JobFault {
    /// How the program ends.
    pub fn status(self) -> Status
        ensures { result ≡ status_of_fault self }
    {
        match self {
            JobFault::CannotRead => Status::Device,
            JobFault::Malformed { .. } => Status::Malformed,
            JobFault::Refused(refused) => Status::of_prepare_fault(refused),
            JobFault::Stopped(fault) => Status::of_stop(fault.cause),
            JobFault::Memory => Status::Memory,
        }
    }

    /// Whether the output itself failed, so that no line can be written.
    pub fn is_of_output(self) -> bool
        ensures { result ≡ is_output_stop (Err self) }
    {
        matches!(
            self,
            JobFault::Stopped(RunFault {
                cause: Cause::Record(
                    RecordFault::WriteFailed { .. } | RecordFault::TookNothing { .. }
                ),
                ..
            })
        )
    }
}
