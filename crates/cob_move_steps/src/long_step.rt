use crate::long_ends::{LongReader, LongReceiver};
use cob_codec_lanes::WideKeeper;

/// The single move of a number of any number of digits to another, to an edited item or to characters, made ready.
#[derive(Drop)]
pub struct LongStep {
    pub reader: LongReader,
    /// What keeps the digits in front of the last sixteen that the receiver has, or shows.
    pub front: WideKeeper,
    /// What keeps the last sixteen.
    pub back: WideKeeper,
    pub writer: LongReceiver,
}
