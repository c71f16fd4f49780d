ghost use Rattle.std.specs.Prelude.{◌≡◌, ◌+◌, ◌≤◌, vec_len};

use cob_codec_lanes::{KeptDigits, LongPlaces, LongText};

/// Where the digits of two vectors stand in a text.
#[derive(Clone, Copy)]
pub struct PairPlaces {
    /// Those in front of the last sixteen.
    pub front: LongPlaces,
    /// The last sixteen.
    pub back: LongPlaces,
}

/// What reads the number of edited items of one picture, of any number of digits: it takes the digits out, writes them again, and compares.
#[derive(Drop)]
pub struct LongTextReader {
    /// How many bytes an item has.
    pub size: usize,
    /// How many digits it shows.
    pub digits: u8,
    /// Where they stand in its text.
    pub places: PairPlaces,
    /// What moves those in front of the last sixteen behind zeros.
    pub front: KeptDigits,
    /// What moves the last sixteen there, where they are fewer.
    pub back: KeptDigits,
    /// What makes its text, by how many of the digits are zeros in front.
    pub texts: Vec<LongText>,
    pub ghost fits: { size ≤ 48 },
    pub ghost few: { digits ≤ 31 },
    pub ghost each: { vec_len texts ≡ digits + 1 },
}
