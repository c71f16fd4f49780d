//! The words that tell a flaw.

use cob_codec::{ExpectedPart, Flaw};
use std::fmt;

/// A flaw of so many bytes, in words, as `the last half byte is 0, no sign`.
#[derive(Clone, Copy)]
pub struct FlawText {
    pub flaw: Flaw,
    /// How many bytes the number has.
    pub bytes: usize,
}

/// What a part isn't.
fn missing_words(wanted: ExpectedPart) -> &'static str {
    match wanted {
        ExpectedPart::Zero => "not 0",
        ExpectedPart::Digit => "no digit",
        ExpectedPart::Sign => "no sign",
        ExpectedPart::Zone => "not F",
        ExpectedPart::DigitByte => "no digit",
        ExpectedPart::SignByte => "no sign",
    }
}

/// Whether the part that is wanted is a whole byte.
fn is_byte(wanted: ExpectedPart) -> bool {
    matches!(wanted, ExpectedPart::DigitByte | ExpectedPart::SignByte)
}

impl fmt::Display for FlawText {
    fn fmt<W: fmt::Write>(&self, f: &mut fmt::Formatter<W>) -> fmt::Result {
        let flaw = self.flaw;
        let missing = missing_words(flaw.wanted);
        let number = flaw.at.saturating_add(1);
        if is_byte(flaw.wanted) {
            if number == self.bytes {
                return write!(f, "the last byte is {:02X}, {missing}", flaw.found);
            }
            return write!(f, "byte {number} is {:02X}, {missing}", flaw.found);
        }
        if number == self.bytes.saturating_mul(2) {
            return write!(f, "the last half byte is {:X}, {missing}", flaw.found);
        }
        write!(f, "half byte {number} is {:X}, {missing}", flaw.found)
    }
}
