ghost use Rattle.std.specs.Prelude.{◌≤◌};

use crate::number_ends::NumberReader;
use cob_codec_lanes::LaneText;

/// The single move of a number to characters, made ready: its digits are written as characters, without its sign.
#[derive(Drop)]
pub struct NumeralsStep {
    pub reader: NumberReader,
    /// What makes the characters of the digits.
    pub text: LaneText,
    /// How many characters they are: a zero stands for each P at the right.
    pub count: u8,
    /// Whether they stand from the right: the receiver is JUSTIFIED.
    pub right: bool,
    pub ghost most: { count ≤ 16 },
}
