//! Pieces of a stream of records.

ghost use Rattle.std.specs.Prelude.{◌≡◌};
ghost use Rattle.cob_records_parts.specs.declared.piece.PiecesFault.TheVariants.{Memory};

use cob_records::RecordFault;
use std::alloc::AllocError;
use std::fmt;

/// A piece of a stream of records.
#[derive(Clone, Copy, PartialEq, Eq)]
pub struct Piece {
    /// How many bytes of the stream stand before it.
    pub offset: u64,
    /// How many bytes it has.
    pub bytes: u64,
    /// The number of its first record in the whole stream, counted from 1.
    pub first: u64,
}

impl fmt::Display for Piece {
    fn fmt<W: fmt::Write>(&self, f: &mut fmt::Formatter<W>) -> fmt::Result {
        let Piece {
            offset,
            bytes,
            first,
        } = self;
        write!(f, "{offset} {bytes} {first}")
    }
}

/// Where a piece begins: behind so many bytes, with the record of this number.
#[derive(Clone, Copy)]
pub(crate) struct Start {
    pub(crate) offset: u64,
    pub(crate) first: u64,
}

/// Why a stream is not cut in pieces.
#[derive(Clone, Copy, PartialEq, Eq)]
pub enum PiecesFault {
    /// The frame of the record with this number can't be read.
    Frame { number: u64, fault: RecordFault },
    /// It has more records than a stream may have that is cut.
    Limit,
    /// Memory was refused.
    Memory,
}

impl From<AllocError> for PiecesFault {
    ghost from_gives = { λ _ fault. fault ≡ Memory };

    fn from(_: AllocError) -> PiecesFault {
        PiecesFault::Memory
    }
}
