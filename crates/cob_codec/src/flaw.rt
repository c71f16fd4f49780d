//! Parts that aren't as their places ask.

ghost use Rattle.std.specs.Prelude.{◌≡◌, Some, None};
ghost use Rattle.cob_codec.specs.Sign.{sign_meaning};
ghost use Rattle.cob_codec.specs.Flaws.{is_either, suits};

use cob_cp037::{MINUS, NINE, PLUS, ZERO};

/// What a part of a number's bytes has to be.
#[derive(Clone, Copy, PartialEq, Eq)]
pub enum ExpectedPart {
    /// A half byte 0, in front of an even number of packed digits.
    Zero,
    /// A half byte that is a digit, 0 to 9.
    Digit,
    /// A half byte that is a sign: A, C, E or F, and in a signed item B or D.
    Sign,
    /// A half byte F.
    Zone,
    /// The byte of a digit, F0 to F9.
    DigitByte,
    /// The byte of a plus or a minus, 4E or 60.
    SignByte,
}

/// The first part of bytes that isn't as its place asks.
#[derive(Clone, Copy, PartialEq, Eq)]
pub struct Flaw {
    /// The number of the part, from 0: of half bytes, the high one of each byte first; or of bytes, where these are wanted.
    pub at: usize,
    pub found: u8,
    pub wanted: ExpectedPart,
}

/// Why the bytes of a number represent none.
#[derive(Clone, Copy, PartialEq, Eq)]
pub enum NumberFlaw {
    /// The first part that isn't as its place asks.
    Part(Flaw),
    /// They are a binary number of more digits than the picture has.
    Range,
}

/// Whether a half byte is a sign.
fn is_sign(signed: bool, half: u8) -> bool
    ensures { result ≡ is_either (sign_meaning signed half) }
{
    match half {
        0xA | 0xC | 0xE | 0xF => true,
        0xB | 0xD => signed,
        _ => false,
    }
}

/// Whether a part is as its place asks.
pub(crate) fn suits(signed: bool, wanted: ExpectedPart, part: u8) -> bool
    ensures { result ≡ suits signed wanted part }
{
    match wanted {
        ExpectedPart::Zero => part == 0,
        ExpectedPart::Digit => part < 10,
        ExpectedPart::Sign => is_sign(signed, part),
        ExpectedPart::Zone => part == 0xF,
        ExpectedPart::DigitByte => ZERO <= part && part <= NINE,
        ExpectedPart::SignByte => part == PLUS || part == MINUS,
    }
}
