ghost use Rattle.std.specs.Prelude.{◌≤◌};

/// Which digits of a number are kept: its last ones, when it is moved left by so many places.
#[derive(Clone, Copy)]
pub struct Wanted {
    /// How many, in the first lanes.
    pub digits: u8,
    /// By how many places the number is moved left; below zero, right, where the digits behind the units are cut.
    pub shift: i8,
    pub ghost most: { digits ≤ 16 },
}
