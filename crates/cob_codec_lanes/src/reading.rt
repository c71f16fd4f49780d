//! Numbers of items, read as digits in lanes.

ghost use Rattle.std.specs.Prelude.{◌≡◌, ◌<◌, ◌≤◌, Bool, true, false, length};
ghost use Rattle.cob_codec_lanes.specs.Readers.{AreLanesTaken, AreTaken, IsLanesRead, LanesPass};
ghost use Rattle.cob_codec_lanes.specs.Windows.{last_bytes, padded_window};

use crate::lanes::{are_bounded, take_halves};
use crate::reader::LaneReader;
use crate::signs::{is_minus, is_sign, meaning_by};
use crate::writer::put_front;
use std::simd::prelude::*;

/// What was read of an item.
#[derive(Clone, Copy)]
pub struct LanesRead {
    /// Whether the bytes represent a number.
    pub is_number: bool,
    /// Whether the sign is minus.
    pub minus: bool,
    /// The digits that are kept, the highest first.
    pub digits: u8x16,
}

/// Fewer than sixteen bytes, behind zeros.
#[inline(always)]
fn padded_window(bytes: &[u8]) -> [u8; 16]
    requires { length bytes.now < 16 }
    ensures { result ≡ padded_window bytes.now }
{
    let mut window = [0u8; 16];
    put_front(bytes, &mut window[16 - bytes.len()..]);
    window
}

/// Sixteen bytes that end with the last of these: behind zeros where there are fewer.
#[inline(always)]
pub(crate) fn window_of(bytes: &[u8]) -> u8x16
    ensures few { length bytes.now < 16 → result ≡ padded_window bytes.now }
    ensures many { 16 ≤ length bytes.now → result ≡ last_bytes 16 bytes.now }
{
    if bytes.len() < 16 {
        u8x16::from_array(padded_window(bytes))
    } else {
        u8x16::from_slice(&bytes[bytes.len() - 16..])
    }
}

impl LaneReader {
    /// The number of the item at the end of bytes, and of as many before it as there are.
    #[inline(always)]
    pub fn read(&self, bytes: &[u8]) -> LanesRead
        ensures { IsLanesRead self.now bytes.now result.is_number result.minus result.digits }
    {
        self.read_window(window_of(bytes))
    }

    /// The digits that are kept of the item at the end of bytes, and of as many before it as there are: those of its number, where another reader
    /// of such items found one.
    #[inline(always)]
    pub fn take(&self, bytes: &[u8]) -> u8x16
        ensures { AreLanesTaken self.now bytes.now result }
    {
        self.take_window(window_of(bytes))
    }

    /// The digits that are kept of sixteen bytes.
    #[inline(always)]
    fn take_window(&self, window: u8x16) -> u8x16
        ensures { AreTaken self.now window result }
    {
        take_halves(window, &self.high, &self.low)
    }

    /// The number of the item at the end of sixteen bytes.
    #[inline(always)]
    fn read_window(&self, window: u8x16) -> LanesRead
        ensures number { result.is_number ≡ true → LanesPass self.now window result.minus }
        ensures nothing { result.is_number ≡ false → (minus : Bool)
            → ¬ LanesPass self.now window minus }
        ensures digits { AreTaken self.now window result.digits }
    {
        let digits = self.take_window(window);
        let byte = window.to_array()[usize::from(self.place)];
        let meaning = meaning_by(self.table, byte);
        if !is_sign(meaning) {
            return LanesRead {
                is_number: false,
                minus: false,
                digits,
            };
        }
        LanesRead {
            is_number: are_bounded(window, &self.bounds),
            minus: is_minus(meaning),
            digits,
        }
    }
}
