ghost use Rattle.std.specs.Prelude.{◌≡◌, length};

use std::simd::prelude::*;

/// A text of at most thirty-two bytes in two vectors, with zeros behind it.
#[derive(Clone, Copy)]
pub struct TextLanes {
    pub front: u8x16,
    pub back: u8x16,
    pub ghost first: { length front ≡ 16 },
    pub ghost last: { length back ≡ 16 },
}
