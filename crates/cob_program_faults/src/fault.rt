ghost use Rattle.std.specs.Prelude.{◌≡◌};
ghost use Rattle.cob_program_faults.specs.Faults.{aside_fault, refused_book, show_fault, refused_text, status_of, unopened_file, unread_text};
ghost use Rattle.cob_program_faults.specs.Texts.{LacksConverter, LacksFile, LacksLayout, LacksText, StopsListing};
ghost use Rattle.cob_program_faults.specs.declared.fault.CommandFault.TheVariants.{Memory, Stopped};

use crate::whole_text::TextFault;
use cob_convert::{
    AsideFault, BookFault, BookRule, Cause, MoveFault, PrepareFault, RunFault, Status,
};
use cob_records::{OpenFault, RecordFault};
use cob_report_show::ShowFault;
use std::alloc::AllocError;
use std::fmt;
use thiserror::Error;

/// A file by the option that names it.
#[derive(Clone, Copy, Debug, PartialEq, Eq)]
pub enum FileName {
    /// The copybook of the input record.
    InBook,
    /// The copybook of the output record.
    OutBook,
    /// The paragraph.
    Moves,
    /// The copybook of `layout` and `show`.
    Book,
    /// The records that are read.
    In,
    /// The records that are written.
    Out,
    /// The rejected records that are set aside.
    Rejects,
    /// The paragraph of `lossless` that converts.
    There,
    /// The paragraph of `lossless` that converts back.
    Back,
}

impl fmt::Display for FileName {
    fn fmt<W: fmt::Write>(&self, f: &mut fmt::Formatter<W>) -> fmt::Result {
        let name = match self {
            FileName::InBook => "in-book",
            FileName::OutBook => "out-book",
            FileName::Moves => "moves",
            FileName::Book => "book",
            FileName::In => "in",
            FileName::Out => "out",
            FileName::Rejects => "rejects",
            FileName::There => "there",
            FileName::Back => "back",
        };
        write!(f, "{name}")
    }
}

/// Why a command is not done.
#[derive(Clone, Copy, Debug, PartialEq, Eq, Error)]
pub enum CommandFault {
    /// The system does not open the file, or does not make it.
    #[error("cannot open {0}")]
    CannotOpen(FileName),
    /// A read of a text failed.
    #[error("cannot read {0}")]
    CannotRead(FileName),
    /// A text of a conversion breaks a rule.
    #[error("{0}")]
    Refused(PrepareFault),
    /// One of two paragraphs breaks a rule, by the option that names it.
    #[error("{0} {1}")]
    Paragraph(FileName, MoveFault),
    /// The copybook of a listing breaks a rule.
    #[error("book {0}")]
    Book(BookFault),
    /// The records of this copybook need this record length, of their file, and another one is said.
    #[error("{option} lrecl {least}, not {lrecl}")]
    OtherLength {
        option: FileName,
        least: u32,
        lrecl: u64,
    },
    /// A file that is read and the output of a conversion are one file, whose bytes making the output would lose.
    #[error("{0} and out are one file")]
    OneFile(FileName),
    /// A file of a conversion and the one that its rejected records are set aside in are one file.
    #[error("{0} and rejects are one file")]
    OneFileAside(FileName),
    /// A record stopped the run, or a device failed at it.
    #[error("{0}")]
    Stopped(RunFault),
    /// The last bytes of the output could not be handed to the device, so that this record, the last one that was put, is not written whole.
    #[error("record {last} out offset 0 F6")]
    Unflushed {
        last: u64,
    },
    /// The record of this number is rejected, and it could not be set aside.
    #[error("record {number} rejects offset 0 {cause}")]
    NotSetAside {
        number: u64,
        cause: RecordFault,
    },
    /// The last bytes that were set aside could not be handed to the device, so that this record, the last rejected one, is not set aside whole.
    #[error("record {last} rejects offset 0 F6")]
    UnflushedAside {
        last: u64,
    },
    /// The system did not give the output, which is written whole under the name of its part, its own name.
    #[error("cannot rename out")]
    NotRenamed,
    /// The system did not give the file of rejected records, which is written whole under the name of its part, its own name.
    #[error("cannot rename rejects")]
    NotRenamedAside,
    /// What is printed could not be, or the device of an output without records failed, so that no fault line is printed either.
    #[error("cannot print")]
    Unprinted,
    /// Memory was refused.
    #[error("memory")]
    Memory,
}

impl From<AllocError> for CommandFault {
    ghost from_gives = { λ _ fault. fault ≡ Memory };

    fn from(_: AllocError) -> CommandFault {
        CommandFault::Memory
    }
}

impl From<PrepareFault> for CommandFault {
    ghost from_gives = { λ refused fault. (fault ≡ refused_text refused) × LacksConverter fault };

    fn from(fault: PrepareFault) -> CommandFault {
        match fault {
            PrepareFault::Memory => CommandFault::Memory,
            refused => CommandFault::Refused(refused),
        }
    }
}

impl From<RunFault> for CommandFault {
    ghost from_gives = { λ stopped fault. fault ≡ Stopped stopped };

    fn from(fault: RunFault) -> CommandFault {
        CommandFault::Stopped(fault)
    }
}

impl From<AsideFault> for CommandFault {
    ghost from_gives = { λ stopped fault. fault ≡ aside_fault stopped };

    fn from(fault: AsideFault) -> CommandFault {
        match fault {
            AsideFault::Stopped(stopped) => CommandFault::Stopped(stopped),
            AsideFault::NotSetAside { number, cause, .. } => {
                CommandFault::NotSetAside { number, cause }
            }
        }
    }
}

impl From<BookFault> for CommandFault {
    ghost from_gives = { λ refused fault. (fault ≡ refused_book refused) × LacksLayout fault };

    fn from(fault: BookFault) -> CommandFault {
        match fault.rule {
            BookRule::Memory => CommandFault::Memory,
            _ => CommandFault::Book(fault),
        }
    }
}

impl From<ShowFault> for CommandFault {
    ghost from_gives = { λ stopped fault. (fault ≡ show_fault stopped) × StopsListing fault };

    fn from(fault: ShowFault) -> CommandFault {
        match fault {
            ShowFault::Memory => CommandFault::Memory,
            ShowFault::Run(
                RunFault {
                    cause: Cause::Record(
                        RecordFault::WriteFailed { .. } | RecordFault::TookNothing { .. },
                    ),
                    ..
                },
            ) => CommandFault::Unprinted,
            ShowFault::Run(stop) => CommandFault::Stopped(stop),
        }
    }
}

impl CommandFault {
    /// How the program ends.
    pub fn status(self) -> Status
        ensures status { result ≡ status_of self }
    {
        match self {
            CommandFault::CannotOpen(_)
            | CommandFault::CannotRead(_)
            | CommandFault::Unflushed { .. }
            | CommandFault::NotSetAside { .. }
            | CommandFault::UnflushedAside { .. }
            | CommandFault::NotRenamed
            | CommandFault::NotRenamedAside
            | CommandFault::Unprinted => Status::Device,
            CommandFault::Refused(refused) => Status::of_prepare_fault(refused),
            CommandFault::Paragraph(_, _)
            | CommandFault::Book(_)
            | CommandFault::OtherLength { .. } => Status::Refused,
            CommandFault::OneFile(_) | CommandFault::OneFileAside(_) => Status::Malformed,
            CommandFault::Stopped(fault) => Status::of_stop(fault.cause),
            CommandFault::Memory => Status::Memory,
        }
    }

    /// The fault of a text that was to be read.
    pub fn of_text(fault: TextFault, name: FileName) -> CommandFault
        ensures told { result ≡ unread_text fault name }
        ensures lacks { LacksText name result }
    {
        match fault {
            TextFault::NotOpened => CommandFault::CannotOpen(name),
            TextFault::NotRead => CommandFault::CannotRead(name),
            TextFault::Memory => CommandFault::Memory,
        }
    }

    /// The fault of a file that was to be opened or made.
    pub fn of_file(fault: OpenFault, name: FileName) -> CommandFault
        ensures told { result ≡ unopened_file fault name }
        ensures lacks { LacksFile name result }
    {
        match fault {
            OpenFault::NotOpened => CommandFault::CannotOpen(name),
            OpenFault::Memory => CommandFault::Memory,
        }
    }
}
