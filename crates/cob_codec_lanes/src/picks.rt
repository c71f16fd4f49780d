//! Which lanes the digits of items are taken from, and put into.

ghost use Rattle.std.specs.Prelude.{◌≡◌, ℕ, ◌+◌, ◌-◌, ◌*◌, ◌/◌, ◌%◌, ◌<◌, ◌≤◌, ℤ, pos, ◌-ℤ◌, Bool, true, ◌==◌, if◌then◌else◌, length, slice_index};
ghost use Rattle.cob_codec_lanes.specs.Lanes.{is_pick};
ghost use Rattle.cob_codec_lanes.specs.Windows.{half_lane, half_of_byte, power_pick, digit_pick, ArePowerPicks, AreDigitPicks};

use crate::lanes::{NO_LANE, Picks};
use crate::wanted::Wanted;

/// How digits stand in half bytes.
#[derive(Clone, Copy)]
pub(crate) struct Spread {
    /// The half byte of the first digit.
    pub(crate) start: usize,
    /// How far each of the others stands behind the one before it.
    pub(crate) apart: usize,
    /// How many there are.
    pub(crate) count: usize,
    pub(crate) ghost some: { 0 < apart },
    pub(crate) ghost within: { (k : ℕ) → k < count → start + apart * k < 32 },
}

/// The byte of a half byte, if it is a high half, or a low one; else none.
fn half_lane(high: bool, half: usize) -> u8
    requires { half < 32 }
    ensures lane { result ≡ half_lane high half }
    ensures valid { is_pick result ≡ true }
{
    if (half % 2 == 0) == high {
        (half / 2) as u8
    } else {
        NO_LANE
    }
}

/// The byte that has the digit of a power of ten as its high half, or as its low one; none where it isn't there.
fn power_pick(high: bool, by: &Spread, power: i32) -> u8
    ensures lane { result
        ≡ power_pick high by.now.start by.now.apart by.now.count power }
    ensures valid { is_pick result ≡ true }
{
    if power < 0 {
        return NO_LANE;
    }
    let power = power as usize;
    if power < by.count {
        half_lane(high, by.start + by.apart * (by.count - 1 - power))
    } else {
        NO_LANE
    }
}

/// The power of ten in a number of what becomes one of the digits that are wanted.
fn power_of(wanted: Wanted, lane: usize) -> i32
    requires { lane < wanted.digits }
    ensures { result ≡ pos (wanted.digits - 1 - lane) -ℤ wanted.shift }
{
    i32::from(wanted.digits) - 1 - lane as i32 - i32::from(wanted.shift)
}

/// The bytes that have the digits that are wanted as their high halves, or as their low ones.
pub(crate) fn power_picks(high: bool, by: &Spread, wanted: Wanted) -> Picks
    ensures { ArePowerPicks high by.now.start by.now.apart by.now.count
        wanted.digits wanted.shift result.lanes }
{
    let mut lanes = [NO_LANE; 16];
    for lane in 0..usize::from(wanted.digits) {
        lanes[lane] = power_pick(high, by, power_of(wanted, lane));
    }
    Picks { lanes }
}

/// The number of the digit that stands in a half byte, or none.
fn digit_pick(by: &Spread, half: usize) -> u8
    requires { by.now.count ≤ 16 }
    ensures lane { result ≡ digit_pick by.now.start by.now.apart by.now.count half }
    ensures valid { is_pick result ≡ true }
{
    if half < by.start {
        return NO_LANE;
    }
    let behind = half - by.start;
    if behind % by.apart == 0 && behind / by.apart < by.count {
        (behind / by.apart) as u8
    } else {
        NO_LANE
    }
}

/// The high half of a byte, or its low half.
fn half_of_byte(high: bool, byte: usize) -> usize
    requires { byte < 16 }
    ensures { result ≡ half_of_byte high byte }
{
    if high { 2 * byte } else { 2 * byte + 1 }
}

/// The digits that are the high halves of bytes, or the low ones.
pub(crate) fn digit_picks(high: bool, by: &Spread) -> Picks
    requires { by.now.count ≤ 16 }
    ensures { AreDigitPicks high by.now.start by.now.apart by.now.count result.lanes }
{
    let mut lanes = [NO_LANE; 16];
    for byte in 0..16 {
        lanes[byte] = digit_pick(by, half_of_byte(high, byte));
    }
    Picks { lanes }
}
