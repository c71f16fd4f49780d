use crate::text_writer::TextWriter;
use cob_codec_lanes::{BinaryReader, BinaryWriter, LaneReader, LaneWriter};

/// What reads the number that items of one kind give.
#[derive(Clone, Copy)]
pub enum NumberReader {
    /// Zoned, separate or packed ones, or characters, each a digit.
    Lanes(LaneReader),
    /// Binary ones.
    Binary(BinaryReader),
}

/// What writes the number of items of one kind of storage.
#[derive(Clone, Copy)]
pub enum NumberWriter {
    /// Zoned, separate or packed ones.
    Lanes(LaneWriter),
    /// Binary ones.
    Binary(BinaryWriter),
}

/// What writes the number that items of one kind receive.
#[derive(Drop)]
pub enum ReceiverWriter {
    /// Those that are stored as numbers.
    Number(NumberWriter),
    /// Edited ones.
    Text(TextWriter),
}
