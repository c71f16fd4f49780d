ghost use Rattle.std.specs.Prelude.{◌≡◌, ◌+◌, vec_len};

use cob_codec_lanes::WideText;

/// What writes the texts of edited items of one picture.
#[derive(Drop)]
pub struct TextWriter {
    /// How many digits an item shows.
    pub digits: u8,
    /// What makes its text, by how many of the digits are zeros in front.
    pub texts: Vec<WideText>,
    pub ghost each: { vec_len texts ≡ digits + 1 },
}
