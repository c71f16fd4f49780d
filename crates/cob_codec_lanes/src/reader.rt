//! What reads numbers of items.

ghost use Rattle.std.specs.Prelude.{◌≡◌, ◌<◌, ◌≤◌};
ghost use Rattle.cob_codec_lanes.specs.Signs.{table_start};

use crate::lanes::{Bounds, Picks};
use crate::signs::SignByte;

/// What reads the number of items of one kind, each at the end of sixteen bytes, and keeps the digits that are wanted.
#[derive(Clone, Copy)]
pub struct LaneReader {
    pub bounds: Bounds,
    /// The high halves of bytes that are digits, for the lanes of the digits that are kept.
    pub high: Picks,
    /// The low halves likewise.
    pub low: Picks,
    /// Where in its byte the sign is.
    pub sign: SignByte,
    /// Whether the item is signed.
    pub signed: bool,
    /// Which of the sixteen bytes has the sign.
    pub place: u8,
    /// Where the table begins that says what the byte of the sign means.
    pub table: usize,
    pub ghost within: { place < 16 },
    pub ghost tabled: { table ≡ table_start sign signed },
    pub ghost last: { table ≤ 1024 },
}
