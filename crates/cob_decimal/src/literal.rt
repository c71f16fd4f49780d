//! The parts of a numeric literal.

ghost use Rattle.std.specs.Prelude.{◌≡◌, ◌↔◌, [], ◌++◌, IsTrue, IfNone, unwrap_or};
ghost use Rattle.std.specs.Option.{option_copied};
ghost use Rattle.cob_decimal.specs.Literals.{sign_text, AreDigits};
ghost use Rattle.cob_decimal.specs.Parts.{point_text, HasNoSign, HasNoPoint, IsReadable};

use crate::MAX_DIGITS;

/// The sign of a text, if there is one (true for a minus), and what follows it.
pub(crate) fn split_sign(text: &[u8]) -> (Option<bool>, &[u8])
    ensures parts { text.now ≡ sign_text result.0 ++ result.1.now }
    ensures none { IfNone result.0 (HasNoSign result.1.now) }
{
    match text {
        [b'+', rest @ ..] => (Some(false), rest),
        [b'-', rest @ ..] => (Some(true), rest),
        _ => (None, text),
    }
}

/// What stands before the first point, and what behind it, if there is one.
pub(crate) fn split_point(text: &[u8]) -> (&[u8], Option<&[u8]>)
    ensures parts { text.now ≡ result.0.now ++ point_text (option_copied result.1) }
    ensures first { HasNoPoint result.0.now }
{
    for (at, character) in text.iter().enumerate() {
        if *character == b'.' {
            return (&text[..at], Some(&text[at + 1..]));
        }
    }
    (text, None)
}

/// Whether the parts of a text, without its sign, are those of a literal: digits in front of the point, or behind it, or both, and
/// not too many.
pub(crate) fn is_literal(whole: &[u8], fraction: Option<&[u8]>) -> bool
    ensures { IsTrue result ↔ IsReadable whole.now (option_copied fraction.entry) }
{
    match fraction {
        None => !whole.is_empty() && whole.len() <= MAX_DIGITS && are_digits(whole),
        Some(fraction) => {
            !fraction.is_empty()
                && fraction.len() <= MAX_DIGITS
                && whole.len() <= MAX_DIGITS - fraction.len()
                && are_digits(whole)
                && are_digits(fraction)
        }
    }
}

/// The text, or an empty one.
pub(crate) fn or_empty(text: Option<&[u8]>) -> &[u8]
    ensures { result.now ≡ unwrap_or (option_copied text.entry) [] }
{
    match text {
        Some(text) => text,
        None => &[],
    }
}

/// Whether each character is a digit of ASCII.
pub fn are_digits(text: &[u8]) -> bool
    ensures { IsTrue result ↔ AreDigits text.now }
{
    for character in text {
        if !character.is_ascii_digit() {
            return false;
        }
    }
    true
}
