//! How many bytes binary items have.

ghost use Rattle.std.specs.Prelude.{◌≡◌};
ghost use Rattle.cob_codec.specs.Binary.{binary_length};
ghost use Rattle.cob_codec_lanes.specs.Words.{width_bytes};

use cob_codec::Shape;

/// How many bytes a binary item has: 2, 4 or 8.
#[derive(Clone, Copy)]
pub enum Width {
    Two,
    Four,
    Eight,
}

/// The width of a binary item of a shape.
pub(crate) fn width_of(shape: &Shape) -> Width
    ensures { width_bytes result ≡ binary_length shape.now.digits }
{
    match shape.digits {
        0..=4 => Width::Two,
        5..=9 => Width::Four,
        _ => Width::Eight,
    }
}

impl Width {
    /// How many bytes it is.
    #[inline(always)]
    pub fn bytes(self) -> usize
        ensures { result ≡ width_bytes self }
    {
        match self {
            Width::Two => 2,
            Width::Four => 4,
            Width::Eight => 8,
        }
    }
}
