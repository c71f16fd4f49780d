ghost use Rattle.std.specs.Prelude.{◌≡◌, ◌≤◌, ◌+◌, vec_len};

use cob_codec_lanes::LongText;

/// What writes the texts of edited items of one picture, of any number of digits.
#[derive(Drop)]
pub struct LongTextWriter {
    /// How many digits an item shows.
    pub digits: u8,
    /// What makes its text, by how many of the digits are zeros in front.
    pub texts: Vec<LongText>,
    pub ghost few: { digits ≤ 31 },
    pub ghost each: { vec_len texts ≡ digits + 1 },
}
