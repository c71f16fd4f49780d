ghost use Rattle.std.specs.Prelude.{◌≡◌, ◌+◌, ◌<◌, ◌≤◌, false};

use crate::digit_item::DigitItem;

/// What writes numbers of items of one kind of sixteen digits and more, each of which has a byte of its own.
#[derive(Clone, Copy)]
pub struct DigitWriter {
    pub digits: DigitItem,
    /// Whether the sign's byte is its own; else the sign is the zone of a digit.
    pub own: bool,
    /// What stands there of a number that isn't negative: beside the digit, if one is there.
    pub plus: u8,
    /// What stands there of a negative number.
    pub minus: u8,
    pub ghost plus_fits: { plus ≤ 240 },
    pub ghost minus_fits: { minus ≤ 240 },
    pub ghost among: { own ≡ false → (digits.first ≤ digits.place)
        × (digits.place < digits.first + digits.count) },
}
