use crate::lanes::Picks;

/// Where at most sixteen digits stand in texts of at most forty-eight bytes.
#[derive(Clone, Copy)]
pub struct LongPlaces {
    /// For each digit its byte, where it is one of the first sixteen.
    pub first: Picks,
    /// For each digit its byte, where it is one of the sixteen behind them.
    pub second: Picks,
    /// For each digit its byte, where it is one of the last.
    pub third: Picks,
}
