//! Where and why a record stops a run.

ghost use Rattle.std.specs.Prelude.{◌≡◌, false};
ghost use Rattle.cob_convert_stream.specs.Reasons.{fault_at, frame_reason, is_write_cause, misfit_reason, write_reason};

use crate::misfit::MeasureFault;
use cob_move_data::Side;
use cob_records::RecordFault;
use std::fmt;

/// Why a run stopped.
#[derive(Clone, Copy, Debug, PartialEq, Eq)]
pub enum Cause {
    /// The sender's bytes represent no value.
    NoValue,
    /// The bytes of a count represent no number within its table's bounds.
    Count,
    /// A subscript is past its table's count.
    Subscript,
    /// The greatest number of records was converted.
    Limit,
    /// A record could not be read, or its frame not be written.
    Record(RecordFault),
}

/// Where in a record a run stops: on which side, and at which byte of the record, its descriptor apart (0 where a frame
/// is at fault); and why.
#[derive(Clone, Copy, PartialEq, Eq)]
pub struct Reason {
    pub side: Side,
    pub offset: u32,
    pub cause: Cause,
}

/// A run that stopped: at which record, counted from 1; on which side, and at which byte of the record, its
/// descriptor apart (0 where a frame is at fault); why; and how many bytes the sink took in this run, up to
/// the greatest `u64`.
#[derive(Clone, Copy, Debug, PartialEq, Eq)]
pub struct RunFault {
    pub number: u64,
    pub side: Side,
    pub offset: u32,
    pub cause: Cause,
    pub written: u64,
}

impl Reason {
    /// The reason of a frame that can't be read.
    pub fn of_frame(fault: RecordFault) -> Reason
        ensures { result ≡ frame_reason fault }
    {
        let cause = Cause::Record(fault);
        Reason {
            side: Side::In,
            offset: 0,
            cause,
        }
    }

    /// The reason of a write that failed.
    pub fn of_write(fault: RecordFault) -> Reason
        ensures { result ≡ write_reason fault }
    {
        Reason {
            side: Side::Out,
            offset: 0,
            cause: Cause::Record(fault),
        }
    }

    /// The reason of a record that isn't one of its layout.
    pub fn of_misfit(why: MeasureFault) -> Reason
        ensures reason { result ≡ misfit_reason why }
        ensures kind { is_write_cause result.cause ≡ false }
    {
        let (offset, cause) = match why {
            MeasureFault::Count { offset } => (offset, Cause::Count),
            MeasureFault::Length => (0, Cause::Record(RecordFault::Length)),
        };
        Reason {
            side: Side::In,
            offset,
            cause,
        }
    }

    /// The fault of a run that stops for this reason at the record of this number, where the sink took so many bytes.
    pub fn at(self, number: u64, written: u64) -> RunFault
        ensures { result ≡ fault_at number self written }
    {
        RunFault {
            number,
            side: self.side,
            offset: self.offset,
            cause: self.cause,
            written,
        }
    }
}

impl fmt::Display for Cause {
    fn fmt<W: fmt::Write>(&self, f: &mut fmt::Formatter<W>) -> fmt::Result {
        match self {
            Cause::NoValue => write!(f, "NoValue"),
            Cause::Count => write!(f, "Count"),
            Cause::Subscript => write!(f, "Subscript"),
            Cause::Limit => write!(f, "Limit"),
            Cause::Record(fault) => write!(f, "{fault}"),
        }
    }
}

/// A side as a fault line names it.
fn side_name(side: Side) -> &'static str {
    match side {
        Side::In => "in",
        Side::Out => "out",
    }
}

impl fmt::Display for RunFault {
    fn fmt<W: fmt::Write>(&self, f: &mut fmt::Formatter<W>) -> fmt::Result {
        let side = side_name(self.side);
        let RunFault {
            number,
            offset,
            cause,
            ..
        } = self;
        write!(f, "record {number} {side} offset {offset} {cause}")
    }
}
