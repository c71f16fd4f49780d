use cob_codec_lanes::{LaneReader, LaneWriter};

/// The single move of a number from one item to another, made ready: it moves the number of any bytes of the first.
#[derive(Clone, Copy)]
pub struct NumberStep {
    pub reader: LaneReader,
    pub writer: LaneWriter,
}
