//! Digits in lanes, written among other characters, and read where they stand among them.

ghost use Rattle.std.specs.Prelude.{◌≡◌, ◌<◌, ◌≤◌, ◌↔◌, ◌-◌, ◌++◌, List, ℕ, ℤ, IsTrue, length, replicate, slice_index, take, true};
ghost use Rattle.cob_decimal.specs.Decimal.{number_of};
ghost use Rattle.cob_codec_lanes.specs.Lanes.{AreTens, is_pick};
ghost use Rattle.cob_codec_lanes.specs.Readers.{AreWanted};
ghost use Rattle.cob_codec_lanes.specs.Texts.{all_lanes, AreDigitsAt, ArePlacesAt, AreShown, AreWidelyShown, digit_shown, IsKeeperOf, padded_text, place_from};

use crate::lanes::{NO_LANE, Picks, are_same, picked, sums};
use crate::picks::{Spread, power_picks};
use crate::text_lanes::TextLanes;
use crate::wanted::Wanted;
use crate::writer::{chosen, put_front};
use std::simd::prelude::*;

/// The digit of each half byte, and 0 for those that are none.
const DIGITS: [u8; 16] = [0, 1, 2, 3, 4, 5, 6, 7, 8, 9, 0, 0, 0, 0, 0, 0];

/// What makes a text of digits in lanes.
#[derive(Clone, Copy)]
pub struct LaneText {
    /// For each byte the digit that it shows, if it shows one.
    pub picks: Picks,
    /// What is added to the digits of a number that isn't negative.
    pub plus: [u8; 16],
    /// What is added to the digits of a negative number.
    pub minus: [u8; 16],
}

/// What makes a text of more than sixteen bytes of digits in lanes.
#[derive(Clone, Copy)]
pub struct WideText {
    /// What makes the first sixteen bytes.
    pub front: LaneText,
    /// What makes those behind them.
    pub back: LaneText,
}

/// Where the digits stand in texts of at most thirty-two bytes.
#[derive(Clone, Copy)]
pub struct DigitPlaces {
    /// For each digit its byte, where it is one of the first sixteen.
    pub front: Picks,
    /// For each digit its byte, where it is one of those behind them.
    pub back: Picks,
}

/// Which digits of a number in the first lanes are kept.
#[derive(Clone, Copy)]
pub struct KeptDigits {
    pub picks: Picks,
}

/// Writes the first bytes of thirty-two, as many as there is room for: sixteen, and sixteen behind them.
#[inline(always)]
pub(crate) fn put_both(front: &[u8], back: &[u8], out: &mut [u8])
    requires room { length out.old ≤ 32 }
    requires first { length front.now ≡ 16 }
    requires last { length back.now ≡ 16 }
    ensures { out.new ≡ take (length out.old) (front.now ++ back.now) }
{
    if out.len() <= 16 {
        put_front(front, out);
    } else {
        out[..16].copy_from_slice(&front[..16]);
        put_front(back, &mut out[16..]);
    }
}

/// Whether thirty-two bytes are those of a text.
#[inline(always)]
pub(crate) fn are_both_same(front: u8x16, back: u8x16, text: &TextLanes) -> bool
    ensures { IsTrue result ↔ (front ++ back ≡ all_lanes text.now) }
{
    are_same(front, text.front) && are_same(back, text.back)
}

/// At most sixteen bytes, with zeros behind them.
#[inline(always)]
pub(crate) fn front_lanes(bytes: &[u8]) -> u8x16
    requires { length bytes.now ≤ 16 }
    ensures { result ≡ bytes.now ++ replicate (16 - length bytes.now) 0 }
{
    let mut lanes = [0u8; 16];
    put_front(bytes, &mut lanes[..bytes.len()]);
    u8x16::from_array(lanes)
}

/// The lane of a byte in sixteen that start at one, if it is one of them; else none.
fn place_from(start: u8, byte: u8) -> u8
    ensures lane { result ≡ place_from start byte }
    ensures valid { is_pick result ≡ true }
{
    if start <= byte && byte - start < 16 {
        byte - start
    } else {
        NO_LANE
    }
}

/// For each of these bytes its lane in sixteen that start at one, if it is one of them.
pub(crate) fn places_from(start: u8, bytes: &[u8]) -> Picks
    requires { length bytes.now ≤ 16 }
    ensures each { (k : ℕ) → k < length bytes.now
        → slice_index result.lanes k ≡ place_from start (slice_index bytes.now k) }
    ensures rest { (k : ℕ) → length bytes.now ≤ k → k < 16 → slice_index result.lanes k ≡ 128 }
{
    let mut lanes = [NO_LANE; 16];
    for index in 0..bytes.len() {
        lanes[index] = place_from(start, bytes[index]);
    }
    Picks { lanes }
}

/// The bytes at these places of thirty-two, and 0 behind them.
#[inline(always)]
fn bytes_at(front: u8x16, back: u8x16, places: &DigitPlaces) -> u8x16
    ensures each { (at : List ℕ) → ArePlacesAt at places.now → (k : ℕ) → k < length at
        → slice_index result k ≡ slice_index (front ++ back) (slice_index at k) }
    ensures rest { (at : List ℕ) → ArePlacesAt at places.now → (k : ℕ) → length at ≤ k → k < 16
        → slice_index result k ≡ 0 }
{
    sums(picked(front, &places.front), picked(back, &places.back))
}

/// How far each byte is above the character of the digit 0; 0 for those that are not above it.
#[inline(always)]
fn above_zero(v: u8x16) -> u8x16
    ensures long { length result ≡ 16 }
    ensures lanes { (i : ℕ) → i < 16 → slice_index result i ≡ slice_index v i - 240 }
{
    v.saturating_sub(u8x16::splat(0xF0))
}

/// The digit that each byte shows, and 0 for a byte that shows none.
#[inline(always)]
pub(crate) fn digits_shown(v: u8x16) -> u8x16
    ensures long { length result ≡ 16 }
    ensures lanes { (i : ℕ) → i < 16 → slice_index result i ≡ digit_shown (slice_index v i) }
{
    u8x16::from_array(DIGITS).swizzle_dyn(above_zero(v))
}

impl LaneText {
    /// The text of the digits of a number and its sign.
    #[inline(always)]
    fn made(&self, digits: u8x16, minus: bool) -> u8x16
        ensures { AreShown self.now minus digits result }
    {
        let added = chosen(minus, self.minus, self.plus);
        sums(picked(digits, &self.picks), added)
    }

    /// Writes a text of the digits of a number and its sign into all bytes.
    #[inline(always)]
    pub fn write(&self, digits: u8x16, minus: bool, out: &mut [u8])
        requires { length out.old ≤ 16 }
        ensures made { (bytes : List ℕ) × AreShown self.now minus digits bytes
            × (out.new ≡ take (length out.old) bytes) }
    {
        let bytes = self.made(digits, minus).to_array();
        put_front(&bytes, out);
    }
}

impl WideText {
    /// Writes a text of the digits of a number and its sign into all bytes.
    #[inline(always)]
    pub fn write(&self, digits: u8x16, minus: bool, out: &mut [u8])
        requires { length out.old ≤ 32 }
        ensures made { (bytes : List ℕ) × AreWidelyShown self.now minus digits bytes
            × (out.new ≡ take (length out.old) bytes) }
    {
        let front = self.front.made(digits, minus).to_array();
        let back = self.back.made(digits, minus).to_array();
        put_both(&front, &back, out);
    }

    /// Whether the text of the digits of a number and its sign is this one.
    #[inline(always)]
    pub fn is(&self, digits: u8x16, minus: bool, text: &TextLanes) -> bool
        ensures { (bytes : List ℕ) × AreWidelyShown self.now minus digits bytes
            × (IsTrue result ↔ (bytes ≡ all_lanes text.now)) }
    {
        let front = self.front.made(digits, minus);
        let back = self.back.made(digits, minus);
        are_both_same(front, back, text)
    }
}

impl TextLanes {
    /// The lanes of a text.
    #[inline(always)]
    pub fn of(bytes: &[u8]) -> TextLanes
        requires { length bytes.now ≤ 32 }
        ensures { all_lanes result ≡ padded_text bytes.now }
    {
        if bytes.len() <= 16 {
            TextLanes {
                front: front_lanes(bytes),
                back: u8x16::splat(0),
            }
        } else {
            TextLanes {
                front: u8x16::from_slice(&bytes[..16]),
                back: front_lanes(&bytes[16..]),
            }
        }
    }
}

impl DigitPlaces {
    /// Where digits are looked for: the first at the byte of the first number, and so on.
    pub fn at(bytes: &[u8]) -> DigitPlaces
        requires few { length bytes.now ≤ 16 }
        requires within { (k : ℕ) → k < length bytes.now → slice_index bytes.now k < 32 }
        ensures { ArePlacesAt bytes.now result }
    {
        DigitPlaces {
            front: places_from(0, bytes),
            back: places_from(16, bytes),
        }
    }

    /// The digits that stand at these places of a text; a byte that shows none is 0.
    #[inline(always)]
    pub fn digits(&self, text: &TextLanes) -> u8x16
        ensures { (at : List ℕ) → ArePlacesAt at self.now
            → AreDigitsAt at (all_lanes text.now) result }
    {
        digits_shown(bytes_at(text.front, text.back, self))
    }
}

impl KeptDigits {
    /// What keeps the digits that are wanted of so many.
    pub fn of(count: u8, wanted: Wanted) -> KeptDigits
        requires { count ≤ 16 }
        ensures { IsKeeperOf count wanted.digits wanted.shift result }
    {
        let spread = Spread {
            start: 0,
            apart: 2,
            count: usize::from(count),
        };
        KeptDigits {
            picks: power_picks(true, &spread, wanted),
        }
    }

    /// The digits that are kept.
    #[inline(always)]
    pub fn keep(&self, digits: u8x16) -> u8x16
        ensures { (count wanted : ℕ) (shift : ℤ) → IsKeeperOf count wanted shift self.now
            → AreTens digits
            → AreWanted wanted shift (number_of (take count digits)) result }
    {
        picked(digits, &self.picks)
    }
}
