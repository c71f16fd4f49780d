/// A class of entries.
#[derive(Clone, Copy, Debug, PartialEq, Eq)]
pub enum Class {
    /// NUMERIC: digits, or a number.
    Numeric,
    /// ALPHABETIC: letters and spaces.
    Alphabetic,
    /// ALPHABETIC-LOWER: small letters and spaces.
    AlphabeticLower,
    /// ALPHABETIC-UPPER: capitals and spaces.
    AlphabeticUpper,
}
