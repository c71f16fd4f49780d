//! Bounds of half bytes, made ready.

ghost use Rattle.std.specs.Prelude.{◌≡◌, ℕ, ◌+◌, ◌/◌, ◌%◌, ◌<◌, ◌≤◌, ◌↔◌, replicate, slice_index};

use crate::lanes::Bounds;

/// The greatest half byte.
pub(crate) const ANY: u8 = 0xF;

/// What is added to half bytes that may be this one and greater ones.
fn added_from(least: u8) -> u8
    ensures { (x : ℕ) → x < 16 → ((x + result) % 256 / 128 ≡ 0) ↔ (least ≤ x) }
{
    if least == 0 {
        0
    } else if least < 16 {
        255 - (least - 1)
    } else {
        240
    }
}

/// What is added to half bytes that may be this one and smaller ones.
fn added_up_to(most: u8) -> u8
    ensures { (x : ℕ) → x < 16 → ((x + result) % 256 / 128 ≡ 0) ↔ (x ≤ most) }
{
    if most < 127 { 127 - most } else { 0 }
}

/// What is added to each of sixteen half bytes that may be these and greater ones.
fn each_from(least: &[u8; 16]) -> [u8; 16]
    ensures { (i x : ℕ) → i < 16 → x < 16
        → ((x + slice_index result i) % 256 / 128 ≡ 0) ↔ (slice_index least.now i ≤ x) }
{
    let mut added = [0; 16];
    for lane in 0..16 {
        added[lane] = added_from(least[lane]);
    }
    added
}

/// What is added to each of sixteen half bytes that may be these and smaller ones.
fn each_up_to(most: &[u8; 16]) -> [u8; 16]
    ensures { (i x : ℕ) → i < 16 → x < 16
        → ((x + slice_index result i) % 256 / 128 ≡ 0) ↔ (x ≤ slice_index most.now i) }
{
    let mut added = [0; 16];
    for lane in 0..16 {
        added[lane] = added_up_to(most[lane]);
    }
    added
}

impl Bounds {
    /// High halves that may be these and greater ones, and low halves that may be these and smaller ones.
    pub(crate) fn above(least_high: [u8; 16], most_low: [u8; 16]) -> Bounds
        ensures least_high { result.least_high ≡ least_high }
        ensures most_high { result.most_high ≡ replicate 16 15 }
        ensures most_low { result.most_low ≡ most_low }
    {
        Bounds {
            least_high,
            most_high: [ANY; 16],
            most_low,
            high: each_from(&least_high),
            low: each_up_to(&most_low),
        }
    }

    /// High halves and low halves that may be these and smaller ones.
    pub(crate) fn below(most_high: [u8; 16], most_low: [u8; 16]) -> Bounds
        ensures least_high { result.least_high ≡ replicate 16 0 }
        ensures most_high { result.most_high ≡ most_high }
        ensures most_low { result.most_low ≡ most_low }
    {
        Bounds {
            least_high: [0; 16],
            most_high,
            most_low,
            high: each_up_to(&most_high),
            low: each_up_to(&most_low),
        }
    }
}
