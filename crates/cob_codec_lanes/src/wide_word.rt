ghost use Rattle.std.specs.Prelude.{◌≡◌, ◌≤◌, ◌^◌};
ghost use Rattle.cob_codec_lanes.specs.Widths.{greatest_plain};

use crate::lanes::Picks;
use crate::width::Width;

/// What reads the number of binary items, as one in two vectors.
#[derive(Clone, Copy)]
pub struct WideWordReader {
    pub width: Width,
    /// Whether the item is signed.
    pub signed: bool,
    /// The least magnitude that the item's digits don't hold.
    pub limit: u64,
    /// The greatest word that is not below zero.
    pub plain: u64,
    pub ghost most: { limit ≤ 10 ^ 18 },
    pub ghost signs: { plain ≡ greatest_plain signed width },
}

/// What writes binary items of more than sixteen digits.
#[derive(Clone, Copy)]
pub struct WideWordWriter {
    /// Whether the item is signed.
    pub signed: bool,
    /// The digits in front at the end of sixteen lanes.
    pub picks: Picks,
}
