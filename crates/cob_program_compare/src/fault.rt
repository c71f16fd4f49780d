//! Why a comparison is not done.

ghost use Rattle.std.specs.Prelude.{◌≡◌};
ghost use Rattle.cob_program_compare.specs.Ends.{status_of_comparison_fault, status_of_reason};
ghost use Rattle.cob_program_faults.specs.declared.fault.CommandFault.TheVariants.{Memory};
ghost use Rattle.cob_program_compare.specs.declared.fault.ComparisonFault.TheVariants.{Command};

use cob_convert::Status;
use cob_convert_stream::Cause;
use cob_program_faults::CommandFault;
use cob_report_compare::{CompareStop, FileSide, StopReason};
use std::alloc::AllocError;
use std::fmt;

/// A rule that the names of a key, or of what is ignored, break.
#[derive(Clone, Copy, Debug, PartialEq, Eq)]
pub enum NameRule {
    /// They are no names with qualifiers, with commas between them; or those of a key are too many.
    Grammar,
    /// No entry has a name with its qualifiers.
    Unknown,
    /// Several entries have it.
    Ambiguous,
    /// An item of a key stands in a table.
    Table,
    /// What a key names is a group.
    Group,
}

impl fmt::Display for NameRule {
    fn fmt<W: fmt::Write>(&self, f: &mut fmt::Formatter<W>) -> fmt::Result {
        let rule = match self {
            NameRule::Grammar => "M1",
            NameRule::Unknown => "M2",
            NameRule::Ambiguous => "M3",
            NameRule::Table => "M4",
            NameRule::Group => "M6",
        };
        write!(f, "{rule}")
    }
}

/// Why a comparison is not done.
#[derive(Clone, Copy)]
pub enum ComparisonFault {
    /// What other commands have too: of the copybook, that a line is not printed, or want of memory.
    Command(CommandFault),
    /// Both files are standard input.
    OneStream,
    /// The system does not open the file on this side.
    CannotOpen(FileSide),
    /// The names of the key break a rule.
    Key(NameRule),
    /// The names of what is ignored break a rule.
    Ignore(NameRule),
    /// A record stopped it, or a device failed at it.
    Stopped(CompareStop),
}

impl From<CommandFault> for ComparisonFault {
    ghost from_gives = { λ fault told. told ≡ Command fault };

    fn from(fault: CommandFault) -> ComparisonFault {
        ComparisonFault::Command(fault)
    }
}

impl From<AllocError> for ComparisonFault {
    ghost from_gives = { λ _ told. told ≡ Command Memory };

    fn from(_: AllocError) -> ComparisonFault {
        ComparisonFault::Command(CommandFault::Memory)
    }
}

/// The word of a side.
fn side_word(side: FileSide) -> &'static str {
    match side {
        FileSide::Left => "left",
        FileSide::Right => "right",
    }
}

/// Writes which record stops a comparison, and why.
fn write_stop<W: fmt::Write>(f: &mut fmt::Formatter<W>, stop: &CompareStop) -> fmt::Result {
    write!(f, "record {} {} offset ", stop.number, side_word(stop.side))?;
    match stop.reason {
        StopReason::Record(reason) => write!(f, "{} {}", reason.offset, reason.cause),
        StopReason::NoNumber { offset } => write!(f, "{offset} {}", Cause::NoValue),
        StopReason::Order { offset } => write!(f, "{offset} Order"),
    }
}

/// How the program ends where a record stops a comparison for this reason.
fn status_of_reason(reason: StopReason) -> Status
    ensures { result ≡ status_of_reason reason }
{
    match reason {
        StopReason::Record(reason) => Status::of_stop(reason.cause),
        StopReason::NoNumber { .. } => Status::Stopped,
        StopReason::Order { .. } => Status::Stopped,
    }
}

impl fmt::Display for ComparisonFault {
    fn fmt<W: fmt::Write>(&self, f: &mut fmt::Formatter<W>) -> fmt::Result {
        match self {
            ComparisonFault::Command(fault) => write!(f, "{fault}"),
            ComparisonFault::OneStream => write!(f, "left and right are one stream"),
            ComparisonFault::CannotOpen(side) => write!(f, "cannot open {}", side_word(*side)),
            ComparisonFault::Key(rule) => write!(f, "key {rule}"),
            ComparisonFault::Ignore(rule) => write!(f, "ignore {rule}"),
            ComparisonFault::Stopped(stop) => write_stop(f, stop),
        }
    }
}

impl ComparisonFault {
    /// How the program ends.
    pub fn status(self) -> Status
        ensures { result ≡ status_of_comparison_fault self }
    {
        match self {
            ComparisonFault::Command(fault) => fault.status(),
            ComparisonFault::OneStream => Status::Malformed,
            ComparisonFault::CannotOpen(_) => Status::Device,
            ComparisonFault::Key(_) => Status::Refused,
            ComparisonFault::Ignore(_) => Status::Refused,
            ComparisonFault::Stopped(stop) => status_of_reason(stop.reason),
        }
    }
}
