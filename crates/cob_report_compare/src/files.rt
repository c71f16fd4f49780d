//! The files that are compared, and what stops them.

ghost use Rattle.std.specs.Prelude.{◌≡◌};

use cob_convert_stream::Reason;

/// One of two files that are compared.
#[derive(Clone, Copy, PartialEq, Eq)]
pub enum FileSide {
    Left,
    Right,
}

/// Why a record stops a comparison.
#[derive(Clone, Copy, PartialEq, Eq)]
pub enum StopReason {
    /// It can't be read, or its counts are not all valid, or it is not as long as they say; or its lines can't be printed.
    Record(Reason),
    /// An item of its key, which stands there, is no number.
    NoNumber { offset: u32 },
    /// Its key, which begins there, stands below that of the record before it.
    Order { offset: u32 },
}

/// A record that stops a comparison: of which file, its number there, counted from 1, and why.
#[derive(Clone, Copy, PartialEq, Eq)]
pub struct CompareStop {
    pub side: FileSide,
    pub number: u64,
    pub reason: StopReason,
}

/// The stop at the record of a file with this number, for this reason.
pub(crate) fn stop_on(side: FileSide, number: u64, reason: StopReason) -> CompareStop
    ensures { result ≡ record {
      side = side;
      number = number;
      reason = reason;
    } }
{
    CompareStop {
        side,
        number,
        reason,
    }
}
