//! Items of sixteen digits and more that have a byte for each digit, read.

ghost use Rattle.std.specs.Prelude.{◌≡◌, ◌+◌, ◌≤◌, ◌↔◌, IsTrue, length};
ghost use Rattle.cob_codec.specs.Separate.{IsSignedSeparately};
ghost use Rattle.cob_codec.specs.Zoned.{IsZoned};
ghost use Rattle.cob_codec_lanes.specs.DigitItems.{AreDigitsRead, IsDigitReaderOf};
ghost use Rattle.cob_codec_lanes.specs.Lanes.{AreBounded};
ghost use Rattle.cob_codec_lanes.specs.Readers.{AreNumeralsOf};

use crate::digit_bounds::{digit_bounds, digit_lanes};
use crate::digit_item::DigitItem;
use crate::digit_reader::DigitReader;
use crate::lanes::{are_bounded, lows, picked};
use crate::reading::window_of;
use crate::signs::{SignByte, is_minus, is_sign, meaning_by, table_start};
use crate::wide_read::WideRead;
use crate::writers::{first_byte, own_sign_byte};
use cob_codec::{Shape, sign_place};
use std::simd::prelude::*;

/// Whether bytes are digits, sixteen and sixteen behind them, and there is a sign.
#[inline(always)]
fn are_digits(signed: bool, front: u8x16, back: u8x16, by: &DigitReader) -> bool
    ensures { IsTrue result ↔ (IsTrue signed
        × AreBounded by.now.front.least_high by.now.front.most_high by.now.front.most_low front
        × AreBounded by.now.back.least_high by.now.back.most_high by.now.back.most_low back) }
{
    signed && are_bounded(front, &by.front) && are_bounded(back, &by.back)
}

impl DigitReader {
    /// What reads items whose digits and sign stand so.
    fn with(digits: DigitItem, free: usize, sign: SignByte, signed: bool) -> DigitReader
        ensures digits { result.digits ≡ digits }
        ensures free { result.free ≡ free }
        ensures sign { result.sign ≡ sign }
        ensures signed { result.signed ≡ signed }
    {
        DigitReader {
            digits,
            free,
            sign,
            signed,
            table: table_start(sign, signed),
            front: digit_bounds(digits, free, 0),
            back: digit_bounds(digits, free, 16),
            picks: digit_lanes(digits.count),
        }
    }

    /// What reads zoned items of a shape of at least 16 digits.
    pub fn zoned(shape: &Shape) -> DigitReader
        requires { 16 ≤ shape.now.digits }
        ensures { IsDigitReaderOf
            (IsZoned shape.now.digits shape.now.signed shape.now.leading) shape.now.digits result }
    {
        let count = usize::from(shape.digits);
        let place = sign_place(shape.signed, shape.leading, count);
        let digits = DigitItem {
            size: count,
            first: 0,
            count,
            place,
        };
        DigitReader::with(digits, place, SignByte::Zone, shape.signed)
    }

    /// What reads items of a shape of at least 16 digits with a separate sign.
    pub fn separate(shape: &Shape) -> DigitReader
        requires { 16 ≤ shape.now.digits }
        ensures { IsDigitReaderOf (IsSignedSeparately shape.now.digits shape.now.leading)
            (shape.now.digits + 1) result }
    {
        let count = usize::from(shape.digits);
        let digits = DigitItem {
            size: count + 1,
            first: first_byte(shape.leading),
            count,
            place: own_sign_byte(shape.leading, count),
        };
        DigitReader::with(digits, count + 1, SignByte::Own, true)
    }

    /// What reads items of so many characters, each a digit, as whole numbers that aren't negative.
    pub fn numerals(count: u8) -> DigitReader
        requires many { 16 ≤ count }
        requires most { count ≤ 32 }
        ensures { IsDigitReaderOf (AreNumeralsOf count) count result }
    {
        let count = usize::from(count);
        let digits = DigitItem {
            size: count,
            first: 0,
            count,
            place: count - 1,
        };
        DigitReader::with(digits, count, SignByte::Zone, false)
    }

    /// The number of the item at the end of bytes.
    #[inline(always)]
    pub fn read(&self, bytes: &[u8]) -> WideRead
        requires { self.now.digits.size ≤ length bytes.now }
        ensures { AreDigitsRead self.now bytes.now
            result.is_number result.minus result.front result.back }
    {
        let item = bytes.len() - self.digits.size;
        let end = item + self.digits.first + self.digits.count;
        let front = window_of(&bytes[..end - 16]);
        let back = window_of(&bytes[..end]);
        let meaning = meaning_by(self.table, bytes[item + self.digits.place]);
        WideRead {
            is_number: are_digits(is_sign(meaning), front, back, self),
            minus: is_minus(meaning),
            front: picked(lows(front), &self.picks),
            back: lows(back),
        }
    }
}
