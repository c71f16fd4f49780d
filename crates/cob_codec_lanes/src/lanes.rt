//! Sixteen lanes at once.

ghost use Rattle.std.specs.Prelude.{◌≡◌, ◌==◌, ℕ, ◌+◌, ◌-◌, ◌*◌, ◌/◌, ◌%◌, ◌<◌, ◌↔◌, Bool, ◌&&◌, not, true, length, slice_index, IsTrue};
ghost use Rattle.std.specs.List.{prefix_len};
ghost use Rattle.cob_codec_lanes.specs.Lanes.{first_set, is_pick, picked_at, halves_at, AreZero, AreBounded, MarksBounds};

use std::simd::prelude::*;

/// The lane that is none.
pub const NO_LANE: u8 = 128;

/// For each lane the number of the lane that it is taken from, or none.
#[derive(Clone, Copy)]
pub struct Picks {
    pub lanes: [u8; 16],
    pub ghost long: { length lanes ≡ 16 },
    pub ghost valid: { (i : ℕ) → i < 16 → is_pick (slice_index lanes i) ≡ true },
}

/// The lanes of these numbers, and 0 for none.
#[inline(always)]
pub(crate) fn picked(v: u8x16, at: &Picks) -> u8x16
    ensures long { length result ≡ 16 }
    ensures lanes { (i : ℕ) → i < 16
        → slice_index result i ≡ picked_at v (slice_index at.now.lanes i) }
{
    v.swizzle_dyn(u8x16::from_array(at.lanes))
}

/// The high half of each byte.
#[inline(always)]
fn highs(v: u8x16) -> u8x16
    ensures long { length result ≡ 16 }
    ensures lanes { (i : ℕ) → i < 16 → slice_index result i ≡ slice_index v i / 16 }
{
    v >> u8x16::splat(4)
}

/// The low half of each byte.
#[inline(always)]
pub(crate) fn lows(v: u8x16) -> u8x16
    ensures long { length result ≡ 16 }
    ensures lanes { (i : ℕ) → i < 16 → slice_index result i ≡ slice_index v i % 16 }
{
    v & u8x16::splat(15)
}

/// The highest bit of each lane.
#[inline(always)]
fn tops(v: u8x16) -> u8x16
    ensures long { length result ≡ 16 }
    ensures lanes { (i : ℕ) → i < 16 → slice_index result i ≡ slice_index v i / 128 }
{
    v >> u8x16::splat(7)
}

/// What is 0 where both are.
#[inline(always)]
fn either(a: u8x16, b: u8x16) -> u8x16
    ensures { AreZero result ↔ (AreZero a × AreZero b) }
{
    a | b
}

/// Whether all lanes are 0.
#[inline(always)]
pub(crate) fn are_zero(v: u8x16) -> bool
    ensures { IsTrue result ↔ AreZero v }
{
    v.simd_ne(u8x16::splat(0)).to_bitmask() == 0
}

/// Whether two vectors hold the same lanes.
#[inline(always)]
pub(crate) fn are_same(a: u8x16, b: u8x16) -> bool
    ensures { IsTrue result ↔ (a ≡ b) }
{
    a.simd_ne(b).to_bitmask() == 0
}

/// Whether a minus stays with a number that is zero or not.
#[inline(always)]
fn stays(minus: bool, zero: bool) -> bool
    ensures { result ≡ (minus && not zero) }
{
    minus && !zero
}

/// Whether a minus stays with digits: one of them is not 0.
#[inline(always)]
pub fn keeps_minus(minus: bool, digits: u8x16) -> bool
    ensures { (zero : Bool) × (IsTrue zero ↔ AreZero digits) × (result ≡ (minus && not zero)) }
{
    let zero = are_zero(digits);
    stays(minus, zero)
}

/// Whether a minus stays with digits in front and digits behind them: one of all is not 0.
#[inline(always)]
pub fn keeps_minus_of_both(minus: bool, front: u8x16, back: u8x16) -> bool
    ensures { (zero : Bool) × (IsTrue zero ↔ (AreZero front × AreZero back))
        × (result ≡ (minus && not zero)) }
{
    let zero = are_zero(either(front, back));
    stays(minus, zero)
}

/// The number of the lowest bit of a mask that is set, and 16 where none is.
#[inline(always)]
fn first_set(mask: u64) -> usize
    ensures { result ≡ first_set mask }
{
    if mask == 0 {
        16
    } else {
        mask.trailing_zeros() as usize
    }
}

/// How many lanes stand before the first that is not 0.
#[inline(always)]
pub fn zeros_before(digits: u8x16) -> usize
    ensures { result ≡ prefix_len (λ d. d == 0) digits }
{
    first_set(digits.simd_ne(u8x16::splat(0)).to_bitmask())
}

/// The sum of each two lanes, which is cut to a byte.
#[inline(always)]
pub(crate) fn sums(a: u8x16, b: u8x16) -> u8x16
    ensures long { length result ≡ 16 }
    ensures lanes { (i : ℕ) → i < 16
        → slice_index result i ≡ (slice_index a i + slice_index b i) % 256 }
{
    a + b
}

/// Each lane in the high half of its byte.
#[inline(always)]
pub(crate) fn raised(v: u8x16) -> u8x16
    ensures long { length result ≡ 16 }
    ensures lanes { (i : ℕ) → i < 16 → slice_index result i ≡ slice_index v i * 16 % 256 }
{
    v << u8x16::splat(4)
}

/// The least and the greatest that the half bytes of sixteen bytes may be.
#[derive(Clone, Copy)]
pub struct Bounds {
    pub least_high: [u8; 16],
    pub most_high: [u8; 16],
    pub most_low: [u8; 16],
    /// What is added to the high halves: the sum has its highest bit where the half is out of its bounds.
    pub high: [u8; 16],
    /// What is added to the low halves likewise.
    pub low: [u8; 16],
    pub ghost highs: { MarksBounds (slice_index least_high) (slice_index most_high) high },
    pub ghost lows: { MarksBounds (λ _. 0) (slice_index most_low) low },
}

/// Whether these high halves and low halves of sixteen bytes are within their bounds.
#[inline(always)]
fn are_within(v: u8x16, high: u8x16, low: u8x16, by: &Bounds) -> bool
    requires small { (i : ℕ) → i < 16 → slice_index v i < 256 }
    requires high { (i : ℕ) → i < 16 → slice_index high i ≡ slice_index v i / 16 }
    requires low { (i : ℕ) → i < 16 → slice_index low i ≡ slice_index v i % 16 }
    ensures { IsTrue result
        ↔ AreBounded by.now.least_high by.now.most_high by.now.most_low v }
{
    let above = tops(sums(high, u8x16::from_array(by.high)));
    let below = tops(sums(low, u8x16::from_array(by.low)));
    are_zero(either(above, below))
}

/// Whether the half bytes of sixteen bytes are within their bounds.
#[inline(always)]
pub(crate) fn are_bounded(v: u8x16, by: &Bounds) -> bool
    ensures { IsTrue result
        ↔ AreBounded by.now.least_high by.now.most_high by.now.most_low v }
{
    are_within(v, highs(v), lows(v), by)
}

/// The half bytes of sixteen bytes at the lanes of these numbers.
#[inline(always)]
pub(crate) fn take_halves(v: u8x16, high: &Picks, low: &Picks) -> u8x16
    ensures long { length result ≡ 16 }
    ensures lanes { (i : ℕ) → i < 16 → slice_index result i
        ≡ halves_at v (slice_index high.now.lanes i) (slice_index low.now.lanes i) }
{
    let upper = highs(v);
    let lower = lows(v);
    sums(picked(upper, high), picked(lower, low))
}
