//! Digits in two vectors of lanes, written as numbers of items.

ghost use Rattle.std.specs.Prelude.{◌≡◌, ◌≤◌, ◌<◌, ◌+◌, ◌-◌, ◌*◌, ◌/◌, ◌%◌, ℕ, List, length, take};
ghost use Rattle.cob_codec.specs.Packed.{packed_form};
ghost use Rattle.cob_codec_lanes.specs.Writers.{AreMadeOfBoth, IsWideWriterOf};

use crate::filling::with_lane;
use crate::lanes::sums;
use crate::picks::{Spread, digit_picks};
use crate::writer::{LaneWriter, put_front};
use crate::writers::sign_code;
use cob_codec::Shape;
use std::simd::prelude::*;

/// What writes numbers of items of one kind that have more than sixteen digits: the last sixteen, and those in front of them.
#[derive(Clone, Copy)]
pub struct WideWriter {
    /// What makes the bytes of the digits in front.
    pub front: LaneWriter,
    /// What makes those of the last sixteen digits and the sign.
    pub back: LaneWriter,
}

impl WideWriter {
    /// What writes packed items of a shape of more than 16 digits.
    pub fn packed(shape: &Shape) -> WideWriter
        requires { 16 < shape.now.digits }
        ensures { IsWideWriterOf (packed_form shape.now.signed)
            shape.now.digits (shape.now.digits / 2 + 1) result }
    {
        let count = usize::from(shape.digits);
        let pad = (count + 1) % 2;
        let front = Spread {
            start: pad,
            apart: 1,
            count: count - 16,
        };
        let back = Spread {
            start: pad + (count - 16),
            apart: 1,
            count: 16,
        };
        WideWriter {
            front: LaneWriter {
                high: digit_picks(true, &front),
                low: digit_picks(false, &front),
                plus: [0; 16],
                minus: [0; 16],
            },
            back: LaneWriter {
                high: digit_picks(true, &back),
                low: digit_picks(false, &back),
                plus: with_lane([0; 16], count / 2, sign_code(shape.signed, false)),
                minus: with_lane([0; 16], count / 2, sign_code(shape.signed, true)),
            },
        }
    }

    /// Writes the digits of a number, those in front and the last sixteen, with its sign into all bytes of an item.
    #[inline(always)]
    pub fn write(&self, front: u8x16, back: u8x16, minus: bool, out: &mut [u8])
        requires { length out.old ≤ 16 }
        ensures made { (bytes : List ℕ) × AreMadeOfBoth self.now minus front back bytes
            × (out.new ≡ take (length out.old) bytes) }
    {
        let first = self.front.made(front, minus);
        let last = self.back.made(back, minus);
        let bytes = sums(first, last).to_array();
        put_front(&bytes, out);
    }
}
