ghost use Rattle.std.specs.Prelude.{◌≤◌};

use cob_codec_lanes::LongText;

/// What writes the digits of a number, of any number of digits, as characters, without its sign.
#[derive(Clone, Copy)]
pub struct LongNumerals {
    /// What makes the characters of the digits.
    pub text: LongText,
    /// How many characters they are: a zero stands for each P at the right.
    pub count: u8,
    /// Whether they stand from the right: the receiver is JUSTIFIED.
    pub right: bool,
    pub ghost most: { count ≤ 48 },
}
