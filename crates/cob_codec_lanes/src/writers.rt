//! Writers made ready for kinds of items.

ghost use Rattle.std.specs.Prelude.{◌≡◌, ◌+◌, ◌*◌, ◌/◌, ◌%◌, ◌<◌, ◌≤◌, ℕ};
ghost use Rattle.cob_codec.specs.Packed.{packed_form, pad_count};
ghost use Rattle.cob_codec.specs.Separate.{separate_form, sign_byte};
ghost use Rattle.cob_codec.specs.Sign.{sign_code};
ghost use Rattle.cob_codec.specs.Zoned.{zoned_form};
ghost use Rattle.cob_codec_lanes.specs.Windows.{first_byte, own_sign_byte};
ghost use Rattle.cob_codec_lanes.specs.Writers.{IsWriterOf};

use crate::filling::{lanes_between, with_lane};
use crate::picks::{Spread, digit_picks};
use crate::writer::LaneWriter;
use cob_codec::{Shape, sign_place};

/// The zone of a digit, in its byte.
pub(crate) const ZONE: u8 = 0xF0;

/// The code of the sign that is written.
pub(crate) fn sign_code(signed: bool, minus: bool) -> u8
    ensures { result ≡ sign_code signed minus }
{
    match (signed, minus) {
        (false, _) => 0xF,
        (true, false) => 0xC,
        (true, true) => 0xD,
    }
}

/// The byte of a sign that is written.
pub(crate) fn sign_byte(minus: bool) -> u8
    ensures { result ≡ sign_byte minus }
{
    if minus { 0x60 } else { 0x4E }
}

/// Which byte of an item with a separate sign has the first digit.
pub(crate) fn first_byte(leading: bool) -> usize
    ensures byte { result ≡ first_byte leading }
    ensures within { result ≤ 1 }
{
    if leading { 1 } else { 0 }
}

/// Which byte of an item of so many digits with a separate sign has the sign.
pub(crate) fn own_sign_byte(leading: bool, count: usize) -> usize
    ensures byte { result ≡ own_sign_byte leading count }
    ensures within { result ≤ count }
{
    if leading { 0 } else { count }
}

impl LaneWriter {
    /// What writes zoned items of a shape of at most 16 digits.
    pub fn zoned(shape: &Shape) -> LaneWriter
        requires { shape.now.digits ≤ 16 }
        ensures { IsWriterOf (zoned_form shape.now.signed shape.now.leading)
            shape.now.digits shape.now.digits result }
    {
        let count = usize::from(shape.digits);
        let place = sign_place(shape.signed, shape.leading, count);
        let zones = lanes_between(0, count, ZONE, 0);
        let spread = Spread {
            start: 1,
            apart: 2,
            count,
        };
        LaneWriter {
            high: digit_picks(true, &spread),
            low: digit_picks(false, &spread),
            plus: with_lane(zones, place, sign_code(shape.signed, false) * 16),
            minus: with_lane(zones, place, sign_code(shape.signed, true) * 16),
        }
    }

    /// What writes items of a shape of at most 15 digits with a separate sign.
    pub fn separate(shape: &Shape) -> LaneWriter
        requires { shape.now.digits ≤ 15 }
        ensures { IsWriterOf (separate_form shape.now.leading)
            shape.now.digits (shape.now.digits + 1) result }
    {
        let count = usize::from(shape.digits);
        let first = first_byte(shape.leading);
        let place = own_sign_byte(shape.leading, count);
        let zones = lanes_between(first, first + count, ZONE, 0);
        let spread = Spread {
            start: 2 * first + 1,
            apart: 2,
            count,
        };
        LaneWriter {
            high: digit_picks(true, &spread),
            low: digit_picks(false, &spread),
            plus: with_lane(zones, place, sign_byte(false)),
            minus: with_lane(zones, place, sign_byte(true)),
        }
    }

    /// What writes packed items of a shape of at most 16 digits.
    pub fn packed(shape: &Shape) -> LaneWriter
        requires { shape.now.digits ≤ 16 }
        ensures { IsWriterOf (packed_form shape.now.signed)
            shape.now.digits (shape.now.digits / 2 + 1) result }
    {
        let count = usize::from(shape.digits);
        let spread = Spread {
            start: (count + 1) % 2,
            apart: 1,
            count,
        };
        LaneWriter {
            high: digit_picks(true, &spread),
            low: digit_picks(false, &spread),
            plus: with_lane([0; 16], count / 2, sign_code(shape.signed, false)),
            minus: with_lane([0; 16], count / 2, sign_code(shape.signed, true)),
        }
    }
}
