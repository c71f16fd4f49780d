//! Digits in two vectors, written among other characters.

ghost use Rattle.std.specs.Prelude.{◌≡◌, ◌≤◌, ◌++◌, List, ℕ, length, take};
ghost use Rattle.cob_codec_lanes.specs.LongTexts.{AreLonglyShown, AreShownOfBoth};

use crate::lanes::{picked, sums};
use crate::long_text::{LongText, PairText};
use crate::text::put_both;
use crate::writer::{chosen, put_front};
use std::simd::prelude::*;

/// Writes the first bytes of forty-eight, as many as there is room for: thirty-two, and sixteen behind them.
#[inline(always)]
fn put_all(front: &[u8], middle: &[u8], back: &[u8], out: &mut [u8])
    requires room { length out.old ≤ 48 }
    requires first { length front.now ≡ 16 }
    requires second { length middle.now ≡ 16 }
    requires last { length back.now ≡ 16 }
    ensures { out.new ≡ take (length out.old) ((front.now ++ middle.now) ++ back.now) }
{
    if out.len() <= 32 {
        put_both(front, middle, out);
    } else {
        put_both(front, middle, &mut out[..32]);
        put_front(back, &mut out[32..]);
    }
}

impl PairText {
    /// Sixteen bytes of the text of the digits of a number and its sign.
    #[inline(always)]
    pub(crate) fn made(&self, front: u8x16, back: u8x16, minus: bool) -> u8x16
        ensures { AreShownOfBoth self.now minus front back result }
    {
        let digits = sums(picked(front, &self.front), picked(back, &self.back));
        sums(digits, chosen(minus, self.minus, self.plus))
    }
}

impl LongText {
    /// Writes a text of the digits of a number, those in front and the last sixteen, and its sign into all bytes.
    #[inline(always)]
    pub fn write(&self, front: u8x16, back: u8x16, minus: bool, out: &mut [u8])
        requires { length out.old ≤ 48 }
        ensures made { (bytes : List ℕ) × AreLonglyShown self.now minus front back bytes
            × (out.new ≡ take (length out.old) bytes) }
    {
        let first = self.first.made(front, back, minus).to_array();
        let second = self.second.made(front, back, minus).to_array();
        let third = self.third.made(front, back, minus).to_array();
        put_all(&first, &second, &third, out);
    }
}
