//! Readers made ready for kinds of items.

ghost use Rattle.std.specs.Prelude.{◌≡◌, ◌+◌, ◌/◌, ◌<◌, ◌≤◌, ℕ};
ghost use Rattle.cob_codec.specs.Packed.{IsPacked};
ghost use Rattle.cob_codec.specs.Separate.{IsSignedSeparately};
ghost use Rattle.cob_codec.specs.Zoned.{IsZoned};
ghost use Rattle.cob_codec_lanes.specs.Readers.{AreNumeralsOf, IsReaderOf};
ghost use Rattle.cob_codec_lanes.specs.Windows.{first_lane, pad_bound, sign_lane};

use crate::bounds::ANY;
use crate::filling::{lanes_between, with_lane};
use crate::lanes::Bounds;
use crate::picks::{Spread, power_picks};
use crate::reader::LaneReader;
use crate::signs::{SignByte, table_start};
use crate::wanted::Wanted;
use cob_codec::{Shape, sign_place};

/// The greatest half byte that is a digit.
pub(crate) const NINE: u8 = 9;

/// Where the first digit stands in a window that ends with an item of so many digits with a separate sign.
fn first_lane(leading: bool, count: usize) -> usize
    requires { count ≤ 15 }
    ensures lane { result ≡ first_lane leading count }
    ensures within { result + count ≤ 16 }
{
    if leading { 16 - count } else { 15 - count }
}

/// Where the sign stands in it.
fn sign_lane(leading: bool, count: usize) -> usize
    requires { count ≤ 15 }
    ensures lane { result ≡ sign_lane leading count }
    ensures within { result < 16 }
{
    if leading { 15 - count } else { 15 }
}

/// The greatest high half of the first byte of a packed item of so many digits: a pad, or a digit.
fn pad_bound(count: usize) -> u8
    ensures { result ≡ pad_bound count }
{
    if count % 2 == 0 { 0 } else { NINE }
}

impl LaneReader {
    /// What reads zoned items of a shape of at most 16 digits.
    pub fn zoned(shape: &Shape, wanted: Wanted) -> LaneReader
        requires { shape.now.digits ≤ 16 }
        ensures { IsReaderOf
            (IsZoned shape.now.digits shape.now.signed shape.now.leading)
            shape.now.digits wanted.digits wanted.shift result }
    {
        let count = usize::from(shape.digits);
        let front = 16 - count;
        let place = front + sign_place(shape.signed, shape.leading, count);
        let zones = lanes_between(front, 16, ANY, 0);
        let least_high = with_lane(zones, place, 0);
        let bounds = Bounds::above(least_high, lanes_between(front, 16, NINE, ANY));
        let spread = Spread {
            start: 2 * front + 1,
            apart: 2,
            count,
        };
        LaneReader {
            bounds,
            high: power_picks(true, &spread, wanted),
            low: power_picks(false, &spread, wanted),
            sign: SignByte::Zone,
            signed: shape.signed,
            table: table_start(SignByte::Zone, shape.signed),
            place: place as u8,
        }
    }

    /// What reads items of so many characters, each a digit, as whole numbers that aren't negative.
    pub fn numerals(count: u8, wanted: Wanted) -> LaneReader
        requires some { 0 < count }
        requires most { count ≤ 16 }
        ensures { IsReaderOf (AreNumeralsOf count) count wanted.digits wanted.shift result }
    {
        let count = usize::from(count);
        let front = 16 - count;
        let least_high = lanes_between(front, 16, ANY, 0);
        let bounds = Bounds::above(least_high, lanes_between(front, 16, NINE, ANY));
        let spread = Spread {
            start: 2 * front + 1,
            apart: 2,
            count,
        };
        LaneReader {
            bounds,
            high: power_picks(true, &spread, wanted),
            low: power_picks(false, &spread, wanted),
            sign: SignByte::Zone,
            signed: false,
            table: table_start(SignByte::Zone, false),
            place: 15,
        }
    }

    /// What reads items of a shape of at most 15 digits with a separate sign.
    pub fn separate(shape: &Shape, wanted: Wanted) -> LaneReader
        requires { shape.now.digits ≤ 15 }
        ensures { IsReaderOf (IsSignedSeparately shape.now.digits shape.now.leading)
            (shape.now.digits + 1) wanted.digits wanted.shift result }
    {
        let count = usize::from(shape.digits);
        let first = first_lane(shape.leading, count);
        let place = sign_lane(shape.leading, count);
        let least_high = lanes_between(first, first + count, ANY, 0);
        let most_low = lanes_between(first, first + count, NINE, ANY);
        let bounds = Bounds::above(least_high, most_low);
        let spread = Spread {
            start: 2 * first + 1,
            apart: 2,
            count,
        };
        LaneReader {
            bounds,
            high: power_picks(true, &spread, wanted),
            low: power_picks(false, &spread, wanted),
            sign: SignByte::Own,
            signed: true,
            table: table_start(SignByte::Own, true),
            place: place as u8,
        }
    }

    /// What reads packed items of a shape.
    pub fn packed(shape: &Shape, wanted: Wanted) -> LaneReader
        ensures { IsReaderOf (IsPacked shape.now.digits shape.now.signed)
            (shape.now.digits / 2 + 1) wanted.digits wanted.shift result }
    {
        let count = usize::from(shape.digits);
        let front = 15 - count / 2;
        let digits = lanes_between(front, 16, NINE, ANY);
        let most_high = with_lane(digits, front, pad_bound(count));
        let bounds = Bounds::below(most_high, lanes_between(front, 15, NINE, ANY));
        let spread = Spread {
            start: 31 - count,
            apart: 1,
            count,
        };
        LaneReader {
            bounds,
            high: power_picks(true, &spread, wanted),
            low: power_picks(false, &spread, wanted),
            sign: SignByte::LowHalf,
            signed: shape.signed,
            table: table_start(SignByte::LowHalf, shape.signed),
            place: 15,
        }
    }
}
