use crate::lanes::Picks;

/// What makes sixteen bytes of a text of digits in two vectors.
#[derive(Clone, Copy)]
pub struct PairText {
    /// For each byte the digit that it shows, if that is one of those in front of the last sixteen.
    pub front: Picks,
    /// For each byte the digit that it shows, if that is one of the last sixteen.
    pub back: Picks,
    /// What is added to the digits of a number that isn't negative.
    pub plus: [u8; 16],
    /// What is added to the digits of a negative number.
    pub minus: [u8; 16],
}

/// What makes a text of at most forty-eight bytes of digits in two vectors.
#[derive(Clone, Copy)]
pub struct LongText {
    /// What makes the first sixteen bytes.
    pub first: PairText,
    /// What makes those behind them.
    pub second: PairText,
    /// What makes the last ones.
    pub third: PairText,
}
