//! The bytes of texts that are made ready.

/// What a byte of a text is, whatever the number's other digits are.
#[derive(Clone, Copy, PartialEq, Eq)]
pub enum TextCell {
    /// This byte.
    Same(u8),
    /// One byte, and another where the number is negative.
    Signed { plus: u8, minus: u8 },
    /// The digit of this number, the highest having 0.
    Taken(u8),
}

impl Default for TextCell {
    fn default() -> TextCell {
        TextCell::Same(0)
    }
}
