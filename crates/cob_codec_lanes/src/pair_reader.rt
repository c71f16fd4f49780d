use crate::reader::LaneReader;

/// What reads the number of items of at most sixteen bytes, as one in two vectors.
#[derive(Clone, Copy)]
pub struct PairReader {
    /// What takes the digits in front of the last sixteen.
    pub front: LaneReader,
    /// What reads, and takes the last sixteen digits.
    pub back: LaneReader,
}
