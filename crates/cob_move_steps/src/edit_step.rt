ghost use Rattle.std.specs.Prelude.{◌≡◌, ◌+◌, vec_len};

use crate::number_ends::NumberReader;
use cob_codec_lanes::LaneText;

/// The single move of a number to an edited item, made ready: it moves the number of any bytes of the sender.
#[derive(Drop)]
pub struct EditStep {
    pub reader: NumberReader,
    /// How many digits the receiver shows.
    pub digits: u8,
    /// What makes the receiver's text, by how many of the digits are zeros in front.
    pub texts: Vec<LaneText>,
    pub ghost each: { vec_len texts ≡ digits + 1 },
}
