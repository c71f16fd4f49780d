use std::simd::prelude::*;

/// What was read of an item whose number has at most thirty-two digits.
#[derive(Clone, Copy)]
pub struct WideRead {
    /// Whether the bytes represent a number.
    pub is_number: bool,
    /// Whether the sign is minus.
    pub minus: bool,
    /// The digits in front of the last sixteen, behind zeros.
    pub front: u8x16,
    /// The last sixteen digits.
    pub back: u8x16,
}
