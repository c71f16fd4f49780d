//! Digits in lanes, written as numbers of items.

ghost use Rattle.std.specs.Prelude.{◌≡◌, ◌≤◌, ◌<◌, ◌+◌, ◌*◌, ℕ, List, Bool, if◌then◌else◌, length, take};
ghost use Rattle.cob_codec_lanes.specs.Writers.{AreMade};

use crate::lanes::{Picks, picked, raised, sums};
use std::simd::prelude::*;

/// What writes numbers of items of one kind, from digits in lanes.
#[derive(Clone, Copy)]
pub struct LaneWriter {
    /// For each byte the digit that is its high half, if one is.
    pub high: Picks,
    /// For each byte the digit that is its low half, if one is.
    pub low: Picks,
    /// What is added to the digits of a number that isn't negative.
    pub plus: [u8; 16],
    /// What is added to the digits of a negative number.
    pub minus: [u8; 16],
}

/// One of two.
#[inline(always)]
pub(crate) fn chosen(is_first: bool, first: [u8; 16], second: [u8; 16]) -> u8x16
    ensures { result ≡ (if is_first then first else second) }
{
    if is_first {
        u8x16::from_array(first)
    } else {
        u8x16::from_array(second)
    }
}

/// Writes the first bytes that there is room for: so many, and the last so many again, since a copy of a known length costs no call.
#[inline(always)]
fn put_ends<const N: usize>(bytes: &[u8], out: &mut [u8])
    requires least { N ≤ length out.old }
    requires most { length out.old ≤ 2 * N }
    requires enough { length out.old ≤ length bytes.now }
    ensures { out.new ≡ take (length out.old) bytes.now }
{
    let count = out.len();
    out[..N].copy_from_slice(&bytes[..N]);
    out[count - N..].copy_from_slice(&bytes[count - N..count]);
}

/// Writes the first byte, where there is room for one and no more.
#[inline(always)]
fn put_one(bytes: &[u8], out: &mut [u8])
    requires few { length out.old < 2 }
    requires enough { length out.old ≤ length bytes.now }
    ensures { out.new ≡ take (length out.old) bytes.now }
{
    if out.len() == 1 {
        out[0] = bytes[0];
    }
}

/// Writes the first bytes, as many as there are to be written, at most sixteen.
#[inline(always)]
pub(crate) fn put_front(bytes: &[u8], out: &mut [u8])
    requires room { length out.old ≤ 16 }
    requires enough { length out.old ≤ length bytes.now }
    ensures { out.new ≡ take (length out.old) bytes.now }
{
    let count = out.len();
    if count >= 8 {
        put_ends::<8>(bytes, out);
    } else if count >= 4 {
        put_ends::<4>(bytes, out);
    } else if count >= 2 {
        put_ends::<2>(bytes, out);
    } else {
        put_one(bytes, out);
    }
}

impl LaneWriter {
    /// The bytes of the digits of a number with its sign.
    #[inline(always)]
    pub(crate) fn made(&self, digits: u8x16, minus: bool) -> u8x16
        ensures { AreMade self.now minus digits result }
    {
        let base = chosen(minus, self.minus, self.plus);
        let halves = sums(
            raised(picked(digits, &self.high)),
            picked(digits, &self.low),
        );
        sums(halves, base)
    }

    /// Writes the digits of a number with its sign into all bytes of an item.
    #[inline(always)]
    pub fn write(&self, digits: u8x16, minus: bool, out: &mut [u8])
        requires { length out.old ≤ 16 }
        ensures made { (bytes : List ℕ) × AreMade self.now minus digits bytes
            × (out.new ≡ take (length out.old) bytes) }
    {
        let bytes = self.made(digits, minus).to_array();
        put_front(&bytes, out);
    }
}
