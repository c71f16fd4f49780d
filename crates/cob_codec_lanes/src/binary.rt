ghost use Rattle.std.specs.Prelude.{◌≡◌, ◌≤◌, ◌^◌};
ghost use Rattle.cob_codec_lanes.specs.Widths.{greatest_plain};

use crate::lanes::Picks;
use crate::width::Width;

/// What reads the number of binary items, each at the end of bytes, and keeps the digits that are wanted.
#[derive(Clone, Copy)]
pub struct BinaryReader {
    pub width: Width,
    /// Whether the item is signed.
    pub signed: bool,
    /// The least magnitude that the item's digits don't hold.
    pub limit: u64,
    /// The digits that are kept, of sixteen.
    pub picks: Picks,
    /// The greatest word that is not below zero.
    pub plain: u64,
    pub ghost most: { limit ≤ 10 ^ 16 },
    pub ghost signs: { plain ≡ greatest_plain signed width },
}

/// What writes binary items, from digits in lanes.
#[derive(Clone, Copy)]
pub struct BinaryWriter {
    pub width: Width,
    /// Whether the item is signed.
    pub signed: bool,
    /// The digits at the end of sixteen lanes.
    pub picks: Picks,
}
