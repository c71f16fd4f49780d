//! Digits in lanes, written as binary items.

ghost use Rattle.std.specs.Prelude.{◌≡◌, ◌%◌, ◌^◌, ◌<◌, ◌≤◌, ℕ, Bool, ◌&&◌, IsTrue, length, take};
ghost use Rattle.byteorder.specs.Endian.{big_bytes};
ghost use Rattle.cob_decimal.specs.Decimal.{number_of};
ghost use Rattle.cob_codec.specs.Binary.{binary_form, binary_length};
ghost use Rattle.cob_codec_lanes.specs.Lanes.{AreTens};
ghost use Rattle.cob_codec_lanes.specs.Words.{IsBinaryWriterOf, IsWordWritten, turned, width_bytes};

use crate::binary::BinaryWriter;
use crate::lanes::picked;
use crate::picks::{Spread, digit_picks};
use crate::width::{Width, width_of};
use crate::words::number_in;
use byteorder::{BigEndian, ByteOrder};
use cob_codec::Shape;
use std::simd::prelude::*;

/// Whether a minus is written: in a signed item.
#[inline(always)]
pub(crate) fn is_below(signed: bool, minus: bool) -> bool
    ensures { result ≡ (signed && minus) }
{
    signed && minus
}

/// The word of a number that is negative or not: below zero what is left of all words.
#[inline(always)]
pub(crate) fn turned(minus: bool, magnitude: u64) -> u64
    ensures { result ≡ turned minus magnitude }
{
    if minus {
        0u64.wrapping_sub(magnitude)
    } else {
        magnitude
    }
}

/// Writes the last bytes of a word.
#[inline(always)]
pub(crate) fn put_word(width: Width, word: u64, out: &mut [u8])
    requires { length out.old ≡ width_bytes width }
    ensures { out.new ≡ big_bytes (width_bytes width) (word % 256 ^ width_bytes width) }
{
    match width {
        Width::Two => BigEndian::write_u16(out, (word % 0x1_0000) as u16),
        Width::Four => BigEndian::write_u32(out, (word % 0x1_0000_0000) as u32),
        Width::Eight => BigEndian::write_u64(out, word),
    }
}

impl BinaryWriter {
    /// What writes binary items of a shape of at most 16 digits.
    pub fn of(shape: &Shape) -> BinaryWriter
        requires { shape.now.digits ≤ 16 }
        ensures { IsBinaryWriterOf shape.now.digits shape.now.signed result }
    {
        let count = usize::from(shape.digits);
        let spread = Spread {
            start: 2 * (16 - count),
            apart: 2,
            count,
        };
        BinaryWriter {
            width: width_of(shape),
            signed: shape.signed,
            picks: digit_picks(true, &spread),
        }
    }

    /// Writes the digits of a number with its sign into all bytes of an item.
    #[inline(always)]
    pub fn write(&self, digits: u8x16, minus: bool, out: &mut [u8])
        requires long { length out.old ≡ width_bytes self.now.width }
        ensures { IsWordWritten self.now digits minus (length out.old) out.new }
    {
        let magnitude = number_in(picked(digits, &self.picks));
        let below = is_below(self.signed, minus);
        put_word(self.width, turned(below, magnitude), out);
    }
}
