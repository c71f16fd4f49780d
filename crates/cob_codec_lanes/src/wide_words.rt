//! Binary items as numbers in two vectors.

ghost use Rattle.std.specs.Prelude.{◌≡◌, ◌+◌, ◌*◌, ◌%◌, ◌^◌, ◌<◌, ◌≤◌, ◌++◌, ℕ, Bool, length};
ghost use Rattle.cob_decimal.specs.Decimal.{number_of};
ghost use Rattle.cob_codec_lanes.specs.Lanes.{AreTens};
ghost use Rattle.cob_codec_lanes.specs.Wide.{AreHeldWide};
ghost use Rattle.cob_codec_lanes.specs.Words.{width_bytes};
ghost use Rattle.cob_codec_lanes.specs.WideWords.{IsWideWordRead, IsWideWordReaderOf, IsWideWordWriterOf, IsWideWordWritten};

use crate::binary_reading::{greatest_plain, signed_in};
use crate::binary_writing::{is_below, put_word, turned};
use crate::lanes::picked;
use crate::picks::{Spread, digit_picks};
use crate::wide_read::WideRead;
use crate::wide_word::{WideWordReader, WideWordWriter};
use crate::width::{Width, width_of};
use crate::words::{lanes_of, number_in};
use cob_codec::Shape;
use std::simd::prelude::*;

/// Sixteen digits of a number.
const SIXTEEN_DIGITS: u64 = 10_000_000_000_000_000;

/// A power of ten.
fn power_of_ten(exponent: u8) -> u64
    requires { exponent ≤ 18 }
    ensures power { result ≡ 10 ^ exponent }
    ensures small { result ≤ 10 ^ 18 }
{
    10u64.pow(u32::from(exponent))
}

/// A number in two vectors.
#[inline(always)]
fn both_lanes_of(number: u64) -> (u8x16, u8x16)
    ensures { AreHeldWide number result.0 result.1 }
{
    let front = lanes_of(number / SIXTEEN_DIGITS);
    let back = lanes_of(number % SIXTEEN_DIGITS);
    (front, back)
}

/// The number of two vectors, where a word holds it.
#[inline(always)]
fn number_in_both(front: u8x16, back: u8x16) -> u64
    ensures { AreTens front → AreTens back → number_of (front ++ back) < 2 ^ 64
        → result ≡ number_of (front ++ back) }
{
    let high = number_in(front).wrapping_mul(SIXTEEN_DIGITS);
    high.wrapping_add(number_in(back))
}

impl WideWordReader {
    /// What reads binary items of a shape of at most 18 digits.
    pub fn of(shape: &Shape) -> WideWordReader
        requires few { shape.now.digits ≤ 18 }
        ensures { IsWideWordReaderOf shape.now.digits shape.now.signed result }
    {
        let width = width_of(shape);
        WideWordReader {
            width,
            signed: shape.signed,
            limit: power_of_ten(shape.digits),
            plain: greatest_plain(shape.signed, width),
        }
    }

    /// The number of the item at the end of bytes.
    #[inline(always)]
    pub fn read(&self, bytes: &[u8]) -> WideRead
        requires { width_bytes self.now.width ≤ length bytes.now }
        ensures { IsWideWordRead self.now bytes.now
            result.is_number result.minus result.front result.back }
    {
        let (minus, magnitude) = signed_in(self.width, self.plain, bytes);
        let (front, back) = both_lanes_of(magnitude);
        WideRead {
            is_number: magnitude < self.limit,
            minus,
            front,
            back,
        }
    }
}

impl WideWordWriter {
    /// What writes binary items of a shape of 17 or 18 digits.
    pub fn of(shape: &Shape) -> WideWordWriter
        requires many { 16 < shape.now.digits }
        requires few { shape.now.digits ≤ 18 }
        ensures { IsWideWordWriterOf shape.now.digits shape.now.signed result }
    {
        let count = usize::from(shape.digits) - 16;
        let spread = Spread {
            start: 2 * (16 - count),
            apart: 2,
            count,
        };
        WideWordWriter {
            signed: shape.signed,
            picks: digit_picks(true, &spread),
        }
    }

    /// Writes the digits of a number, those in front and the last sixteen, with its sign into all bytes of an item.
    #[inline(always)]
    pub fn write(&self, front: u8x16, back: u8x16, minus: bool, out: &mut [u8])
        requires long { length out.old ≡ 8 }
        ensures { IsWideWordWritten self.now front back minus out.new }
    {
        let magnitude = number_in_both(picked(front, &self.picks), back);
        let below = is_below(self.signed, minus);
        put_word(Width::Eight, turned(below, magnitude), out);
    }
}
