//! Bounds of bytes that are digits, made ready.

ghost use Rattle.std.specs.Prelude.{◌≡◌, ◌+◌, ◌<◌, ◌≤◌, ℕ, true, slice_index};
ghost use Rattle.cob_codec_lanes.specs.Lanes.{is_pick};
ghost use Rattle.cob_codec_lanes.specs.DigitLanes.{AreDigitBounds, digit_lane, has_digit, least_zone, most_digit};

use crate::bounds::ANY;
use crate::digit_item::DigitItem;
use crate::lanes::{Bounds, NO_LANE, Picks};
use crate::readers::NINE;

/// Whether a digit stands in one of thirty-two lanes.
fn has_digit(count: usize, lane: usize) -> bool
    requires few { count ≤ 32 }
    requires within { lane < 32 }
    ensures { result ≡ has_digit count lane }
{
    32 <= count + lane
}

/// The least zone of the byte in a lane.
fn least_zone(digits: &DigitItem, free: usize, lane: usize) -> u8
    requires { lane < 32 }
    ensures { result ≡ least_zone digits.now.first digits.now.count free lane }
{
    if has_digit(digits.count, lane) && digits.first + digits.count + lane - 32 != free {
        ANY
    } else {
        0
    }
}

/// The greatest low half of it.
fn most_digit(count: usize, lane: usize) -> u8
    requires few { count ≤ 32 }
    requires within { lane < 32 }
    ensures { result ≡ most_digit count lane }
{
    if has_digit(count, lane) { NINE } else { ANY }
}

/// The least zones of sixteen lanes from this one on.
fn least_zones(digits: &DigitItem, free: usize, start: usize) -> [u8; 16]
    requires { start ≤ 16 }
    ensures { (i : ℕ) → i < 16 → slice_index result i
        ≡ least_zone digits.now.first digits.now.count free (start + i) }
{
    let mut zones = [0; 16];
    for lane in 0..16 {
        zones[lane] = least_zone(digits, free, start + lane);
    }
    zones
}

/// The greatest low halves of sixteen lanes from this one on.
fn most_digits(count: usize, start: usize) -> [u8; 16]
    requires few { count ≤ 32 }
    requires within { start ≤ 16 }
    ensures { (i : ℕ) → i < 16 → slice_index result i ≡ most_digit count (start + i) }
{
    let mut most = [0; 16];
    for lane in 0..16 {
        most[lane] = most_digit(count, start + lane);
    }
    most
}

/// The bounds of sixteen lanes from this one on.
pub(crate) fn digit_bounds(digits: DigitItem, free: usize, start: usize) -> Bounds
    requires { start ≤ 16 }
    ensures { AreDigitBounds digits.first digits.count free start result }
{
    let least = least_zones(&digits, free, start);
    Bounds::above(least, most_digits(digits.count, start))
}

/// The lane itself where a digit stands in it, else none.
fn digit_lane(count: usize, lane: usize) -> u8
    requires few { count ≤ 32 }
    requires within { lane < 16 }
    ensures lane { result ≡ digit_lane count lane }
    ensures valid { is_pick result ≡ true }
{
    if has_digit(count, lane) {
        lane as u8
    } else {
        NO_LANE
    }
}

/// The lanes of the digits that stand in the first sixteen of thirty-two lanes.
pub(crate) fn digit_lanes(count: usize) -> Picks
    requires { count ≤ 32 }
    ensures { (i : ℕ) → i < 16 → slice_index result.lanes i ≡ digit_lane count i }
{
    let mut lanes = [NO_LANE; 16];
    for lane in 0..16 {
        lanes[lane] = digit_lane(count, lane);
    }
    Picks { lanes }
}
