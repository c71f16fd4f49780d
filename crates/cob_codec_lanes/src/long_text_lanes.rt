ghost use Rattle.std.specs.Prelude.{◌≡◌, length};

use crate::text_lanes::TextLanes;
use std::simd::prelude::*;

/// A text of at most forty-eight bytes in three vectors, with zeros behind it.
#[derive(Clone, Copy)]
pub struct LongTextLanes {
    /// The first thirty-two bytes.
    pub lead: TextLanes,
    /// Those behind them.
    pub last: u8x16,
    pub ghost long: { length last ≡ 16 },
}
