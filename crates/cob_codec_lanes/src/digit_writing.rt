//! Items of sixteen digits and more that have a byte for each digit, written.

ghost use Rattle.std.specs.Prelude.{◌≡◌, ◌+◌, ◌-◌, ◌%◌, ◌≤◌, ◌<◌, ◌++◌, if◌then◌else◌, length, slice_index, take};
ghost use Rattle.cob_codec.specs.Separate.{separate_form};
ghost use Rattle.cob_codec.specs.Zoned.{digit_bytes, zoned_form};
ghost use Rattle.cob_codec_lanes.specs.DigitItems.{AreDigitsMade, IsDigitWriterOf, sign_written};
ghost use Rattle.cob_codec_lanes.specs.Lanes.{AreTens};

use crate::digit_item::DigitItem;
use crate::digit_writer::DigitWriter;
use crate::lanes::sums;
use crate::writers::{ZONE, first_byte, own_sign_byte, sign_byte, sign_code};
use cob_codec::{Shape, sign_place};
use std::simd::prelude::*;

/// The characters of sixteen digits.
#[inline(always)]
fn characters(digits: u8x16) -> [u8; 16]
    ensures { AreTens digits → result ≡ digit_bytes digits }
{
    sums(digits, u8x16::splat(ZONE)).to_array()
}

/// Writes the characters of a number's digits into all bytes: those of the last sixteen digits, behind those in front of them.
#[inline(always)]
pub fn put_characters(front: u8x16, back: u8x16, out: &mut [u8])
    requires many { 16 ≤ length out.old }
    requires room { length out.old ≤ 32 }
    ensures { AreTens front → AreTens back
        → out.new ≡ digit_bytes (take (length out.old - 16) front ++ back) }
{
    let before = out.len() - 16;
    out[..16].copy_from_slice(&characters(front));
    out[before..].copy_from_slice(&characters(back));
}

impl DigitWriter {
    /// What writes zoned items of a shape of at least 16 digits.
    pub fn zoned(shape: &Shape) -> DigitWriter
        requires { 16 ≤ shape.now.digits }
        ensures { IsDigitWriterOf (zoned_form shape.now.signed shape.now.leading)
            shape.now.digits shape.now.digits result }
    {
        let count = usize::from(shape.digits);
        DigitWriter {
            digits: DigitItem {
                size: count,
                first: 0,
                count,
                place: sign_place(shape.signed, shape.leading, count),
            },
            own: false,
            plus: sign_code(shape.signed, false) * 16,
            minus: sign_code(shape.signed, true) * 16,
        }
    }

    /// What writes items of a shape of at least 16 digits with a separate sign.
    pub fn separate(shape: &Shape) -> DigitWriter
        requires { 16 ≤ shape.now.digits }
        ensures { IsDigitWriterOf (separate_form shape.now.leading)
            shape.now.digits (shape.now.digits + 1) result }
    {
        let count = usize::from(shape.digits);
        DigitWriter {
            digits: DigitItem {
                size: count + 1,
                first: first_byte(shape.leading),
                count,
                place: own_sign_byte(shape.leading, count),
            },
            own: true,
            plus: sign_byte(false),
            minus: sign_byte(true),
        }
    }

    /// The sign of a number that is negative or not, as it is written.
    #[inline(always)]
    fn sign_of(&self, minus: bool) -> u8
        ensures sign { result ≡ sign_written self.now minus }
        ensures fits { result ≤ 240 }
    {
        if minus { self.minus } else { self.plus }
    }

    /// The digit in whose byte the sign stands, or 0 where its byte is its own.
    #[inline(always)]
    fn digit_under(&self, bytes: &[u8]) -> u8
        requires { self.now.digits.place < length bytes.now }
        ensures digit { result ≡ (if self.now.own then 0
            else slice_index bytes.now self.now.digits.place % 16) }
        ensures fits { result ≤ 15 }
    {
        if self.own {
            0
        } else {
            bytes[self.digits.place] % 16
        }
    }

    /// Writes the digits of a number, those in front and the last sixteen, with its sign into all bytes of an item.
    #[inline(always)]
    pub fn write(&self, front: u8x16, back: u8x16, minus: bool, out: &mut [u8])
        requires { length out.old ≡ self.now.digits.size }
        ensures made { AreTens front → AreTens back → AreDigitsMade self.now minus
            (take (self.now.digits.count - 16) front ++ back) out.new }
    {
        let first = self.digits.first;
        put_characters(front, back, &mut out[first..first + self.digits.count]);
        out[self.digits.place] = self.sign_of(minus) + self.digit_under(out);
    }
}
