//! Digits in two vectors, read where they stand among other characters.

ghost use Rattle.std.specs.Prelude.{◌≡◌, ◌<◌, ◌≤◌, ◌↔◌, ◌++◌, List, ℕ, IsTrue, length, slice_index};
ghost use Rattle.cob_codec_lanes.specs.LongPlaces.{AreLongPlacesAt, all_long_lanes, padded_long_text};
ghost use Rattle.cob_codec_lanes.specs.LongTexts.{AreLonglyShown};
ghost use Rattle.cob_codec_lanes.specs.Texts.{AreDigitsAt};

use crate::lanes::{are_same, picked, sums};
use crate::long_places::LongPlaces;
use crate::long_text::LongText;
use crate::long_text_lanes::LongTextLanes;
use crate::text::{are_both_same, digits_shown, front_lanes, places_from};
use crate::text_lanes::TextLanes;
use std::simd::prelude::*;

impl LongTextLanes {
    /// The lanes of a text.
    #[inline(always)]
    pub fn of(bytes: &[u8]) -> LongTextLanes
        requires { length bytes.now ≤ 48 }
        ensures { all_long_lanes result ≡ padded_long_text bytes.now }
    {
        if bytes.len() <= 32 {
            return LongTextLanes {
                lead: TextLanes::of(bytes),
                last: u8x16::splat(0),
            };
        }
        let (lead, behind) = bytes.split_at(32);
        LongTextLanes {
            lead: TextLanes::of(lead),
            last: front_lanes(behind),
        }
    }
}

/// The bytes at these places of a text, and 0 behind them.
#[inline(always)]
fn long_bytes_at(first: u8x16, second: u8x16, third: u8x16, places: &LongPlaces) -> u8x16
    ensures each { (at : List ℕ) → AreLongPlacesAt at places.now → (k : ℕ) → k < length at
        → slice_index result k ≡ slice_index ((first ++ second) ++ third) (slice_index at k) }
    ensures rest { (at : List ℕ) → AreLongPlacesAt at places.now → (k : ℕ) → length at ≤ k
        → k < 16 → slice_index result k ≡ 0 }
{
    let lead = sums(picked(first, &places.first), picked(second, &places.second));
    sums(lead, picked(third, &places.third))
}

impl LongPlaces {
    /// Where digits are looked for: the first at the byte of the first number, and so on.
    pub fn at(bytes: &[u8]) -> LongPlaces
        requires few { length bytes.now ≤ 16 }
        requires within { (k : ℕ) → k < length bytes.now → slice_index bytes.now k < 48 }
        ensures { AreLongPlacesAt bytes.now result }
    {
        LongPlaces {
            first: places_from(0, bytes),
            second: places_from(16, bytes),
            third: places_from(32, bytes),
        }
    }

    /// The digits that stand at these places of a text; a byte that shows none is 0.
    #[inline(always)]
    pub fn digits(&self, text: &LongTextLanes) -> u8x16
        ensures { (at : List ℕ) → AreLongPlacesAt at self.now
            → AreDigitsAt at (all_long_lanes text.now) result }
    {
        let lead = &text.lead;
        digits_shown(long_bytes_at(lead.front, lead.back, text.last, self))
    }
}

/// Whether forty-eight bytes are those of a text.
#[inline(always)]
fn are_all_same(first: u8x16, second: u8x16, third: u8x16, text: &LongTextLanes) -> bool
    ensures { IsTrue result ↔ ((first ++ second) ++ third ≡ all_long_lanes text.now) }
{
    are_both_same(first, second, &text.lead) && are_same(third, text.last)
}

impl LongText {
    /// Whether the text of the digits of a number, those in front and the last sixteen, and its sign is this one.
    #[inline(always)]
    pub fn is(&self, front: u8x16, back: u8x16, minus: bool, text: &LongTextLanes) -> bool
        ensures { (bytes : List ℕ) × AreLonglyShown self.now minus front back bytes
            × (IsTrue result ↔ (bytes ≡ all_long_lanes text.now)) }
    {
        let first = self.first.made(front, back, minus);
        let second = self.second.made(front, back, minus);
        let third = self.third.made(front, back, minus);
        are_all_same(first, second, third, text)
    }
}
