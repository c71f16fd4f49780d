//! Numbers of binary items, read as digits in lanes.

ghost use Rattle.std.specs.Prelude.{◌≡◌, ◌+◌, ◌^◌, ◌<◌, ◌≤◌, ℕ, ℤ, IsTrue, length};
ghost use Rattle.byteorder.specs.Endian.{big_number};
ghost use Rattle.cob_codec_lanes.specs.Windows.{last_bytes};
ghost use Rattle.cob_codec_lanes.specs.Widths.{greatest_plain};
ghost use Rattle.cob_codec_lanes.specs.Words.{IsBinaryReaderOf, IsSignedIn, IsWordRead, width_bytes};

use crate::binary::BinaryReader;
use crate::lanes::picked;
use crate::picks::{Spread, power_picks};
use crate::reading::LanesRead;
use crate::wanted::Wanted;
use crate::width::{Width, width_of};
use crate::words::lanes_of;
use byteorder::{BigEndian, ByteOrder};
use cob_codec::Shape;
use std::simd::prelude::*;

/// A power of ten.
fn power_of_ten(exponent: u8) -> u64
    requires { exponent ≤ 16 }
    ensures power { result ≡ 10 ^ exponent }
    ensures small { result ≤ 10 ^ 16 }
{
    10u64.pow(u32::from(exponent))
}

/// The unsigned number of the last bytes.
#[inline(always)]
fn word_in(width: Width, bytes: &[u8]) -> u64
    requires { width_bytes width ≤ length bytes.now }
    ensures value { result ≡ big_number (width_bytes width)
        (last_bytes (width_bytes width) bytes.now) }
    ensures fits { result < 256 ^ width_bytes width }
{
    match width {
        Width::Two => u64::from(BigEndian::read_u16(&bytes[bytes.len() - 2..])),
        Width::Four => u64::from(BigEndian::read_u32(&bytes[bytes.len() - 4..])),
        Width::Eight => BigEndian::read_u64(&bytes[bytes.len() - 8..]),
    }
}

/// The greatest unsigned number of so many bytes.
#[inline(always)]
fn greatest(width: Width) -> u64
    ensures { result + 1 ≡ 256 ^ width_bytes width }
{
    match width {
        Width::Two => u64::from(u16::MAX),
        Width::Four => u64::from(u32::MAX),
        Width::Eight => u64::MAX,
    }
}

/// The greatest word of an item that is not below zero.
pub(crate) fn greatest_plain(signed: bool, width: Width) -> u64
    ensures { result ≡ greatest_plain signed width }
{
    match (signed, width) {
        (false, _) => u64::MAX,
        (true, Width::Two) => 0x7FFF,
        (true, Width::Four) => 0x7FFF_FFFF,
        (true, Width::Eight) => 0x7FFF_FFFF_FFFF_FFFF,
    }
}

/// The number of the last bytes: whether it is below zero, and its magnitude. Words up to a plain one are not below zero.
#[inline(always)]
pub(crate) fn signed_in(width: Width, plain: u64, bytes: &[u8]) -> (bool, u64)
    requires { width_bytes width ≤ length bytes.now }
    ensures value { IsSignedIn width plain bytes.now result.0 result.1 }
    ensures nonzero { IsTrue result.0 → 0 < result.1 }
{
    let number = word_in(width, bytes);
    let greatest = greatest(width);
    if number > plain {
        (true, greatest - number + 1)
    } else {
        (false, number)
    }
}

impl BinaryReader {
    /// What reads binary items of a shape of at most 16 digits.
    pub fn of(shape: &Shape, wanted: Wanted) -> BinaryReader
        requires { shape.now.digits ≤ 16 }
        ensures { IsBinaryReaderOf
            shape.now.digits shape.now.signed wanted.digits wanted.shift result }
    {
        let spread = Spread {
            start: 0,
            apart: 2,
            count: 16,
        };
        let width = width_of(shape);
        BinaryReader {
            width,
            signed: shape.signed,
            limit: power_of_ten(shape.digits),
            picks: power_picks(true, &spread, wanted),
            plain: greatest_plain(shape.signed, width),
        }
    }

    /// The number of the item at the end of bytes.
    #[inline(always)]
    pub fn read(&self, bytes: &[u8]) -> LanesRead
        requires { width_bytes self.now.width ≤ length bytes.now }
        ensures { IsWordRead
            self.now bytes.now result.is_number result.minus result.digits }
    {
        let (minus, magnitude) = signed_in(self.width, self.plain, bytes);
        if magnitude >= self.limit {
            return LanesRead {
                is_number: false,
                minus,
                digits: u8x16::splat(0),
            };
        }
        LanesRead {
            is_number: true,
            minus,
            digits: picked(lanes_of(magnitude), &self.picks),
        }
    }
}
