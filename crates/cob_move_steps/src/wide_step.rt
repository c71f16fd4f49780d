use cob_codec_lanes::{LaneReader, WideWriter};

/// The single move of a number from one item to another of more than sixteen digits, made ready: it moves the number of any bytes of the first.
#[derive(Clone, Copy)]
pub struct WideStep {
    /// What keeps the digits in front of the last sixteen.
    pub front: LaneReader,
    /// What keeps the last sixteen digits.
    pub back: LaneReader,
    pub writer: WideWriter,
}
