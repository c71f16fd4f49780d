ghost use Rattle.std.specs.Prelude.{◌≡◌, ◌+◌, ◌≤◌, vec_len};

use cob_codec_lanes::{DigitPlaces, KeptDigits, WideText};

/// What reads the number of edited items of one picture: it takes the digits out, writes them again, and compares.
#[derive(Drop)]
pub struct TextReader {
    /// How many bytes an item has.
    pub size: usize,
    /// How many digits it shows.
    pub digits: u8,
    /// Where they stand in its text.
    pub places: DigitPlaces,
    /// Which of them are kept.
    pub kept: KeptDigits,
    /// What makes its text, by how many of the digits are zeros in front.
    pub texts: Vec<WideText>,
    pub ghost fits: { size ≤ 32 },
    pub ghost each: { vec_len texts ≡ digits + 1 },
}
