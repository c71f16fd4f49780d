ghost use Rattle.std.specs.Prelude.{◌≡◌, ◌+◌, ◌<◌, ◌≤◌};

/// Where the digits of an item of sixteen digits and more stand, each in a byte of its own, and its sign.
#[derive(Clone, Copy)]
pub struct DigitItem {
    /// How many bytes the item has.
    pub size: usize,
    /// Which of them has the first digit.
    pub first: usize,
    /// How many digits there are: the others stand in the bytes behind.
    pub count: usize,
    /// Which byte has the sign.
    pub place: usize,
    pub ghost many: { 16 ≤ count },
    pub ghost room: { count ≤ 32 },
    pub ghost within: { first + count ≤ size },
    pub ghost most: { size ≤ 33 },
    pub ghost signed: { place < size },
}
