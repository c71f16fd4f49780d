ghost use Rattle.std.specs.Prelude.{◌≡◌, ◌≤◌, ◌<◌, ℕ, slice_index};
ghost use Rattle.cob_codec_lanes.specs.DigitLanes.{AreDigitBounds, digit_lane};
ghost use Rattle.cob_codec_lanes.specs.Signs.{table_start};

use crate::digit_item::DigitItem;
use crate::lanes::{Bounds, Picks};
use crate::signs::SignByte;

/// What reads the number of items of one kind of sixteen digits and more, each of which has a byte of its own.
#[derive(Clone, Copy)]
pub struct DigitReader {
    pub digits: DigitItem,
    /// Which byte may have any zone: that of a sign in a digit's zone.
    pub free: usize,
    /// Where in its byte the sign is.
    pub sign: SignByte,
    /// Whether the item is signed.
    pub signed: bool,
    /// Where the table begins that says what the byte of the sign means.
    pub table: usize,
    /// What the bytes in front of those of the last sixteen digits may be.
    pub front: Bounds,
    /// What those of the last sixteen digits may be.
    pub back: Bounds,
    /// The lanes of the digits in front.
    pub picks: Picks,
    pub ghost tabled: { table ≡ table_start sign signed },
    pub ghost last: { table ≤ 1024 },
    pub ghost in_front: { AreDigitBounds digits.first digits.count free 0 front },
    pub ghost behind: { AreDigitBounds digits.first digits.count free 16 back },
    pub ghost picked: { (i : ℕ) → i < 16
        → slice_index picks.lanes i ≡ digit_lane digits.count i },
}
