ghost use Rattle.std.specs.Prelude.{◌≡◌, ◌≢◌, ◌+◌, ◌<◌, ℕ, List, [], ◌∷◌, ◌++◌, Bool, IsTrue, if◌then◌else◌, length, IfSome, IfNone};
ghost use Rattle.cob_codec.specs.Separate.{IsSignedSeparately, separate_form, sign_byte};

use crate::shape::Shape;
use crate::storage::Storage;
use crate::zoned::{put_digits, read_digits};
use cob_cp037::{MINUS, PLUS};
use cob_decimal::Number;

/// Zoned decimal with a separate sign (SIGN SEPARATE): a byte for each digit, and one for the sign.
///
/// The digits are their characters, F0 to F9. The sign is a plus, 4E, or a minus, 60, behind them or with SIGN LEADING before them. Signed
/// shapes alone are taken.
pub struct Separate;

impl Storage for Separate {
    ghost takes = { λ shape. IsTrue shape.signed };

    ghost size = { λ shape. shape.digits + 1 };

    ghost represents = { λ shape bytes negative digits.
        IsSignedSeparately shape.digits shape.leading bytes negative digits };

    ghost stored = { λ shape negative digits. separate_form shape.leading negative digits };

    fn length(shape: &Shape) -> u16 {
        u16::from(shape.digits) + 1
    }

    fn read(shape: &Shape, bytes: &[u8]) -> Option<Number> {
        read_separate(shape, bytes)
    }

    fn store(shape: &Shape, number: &Number, bytes: &mut [u8]) {
        let digits = number.digits().as_slice();
        let sign = sign_written(number.negative());
        if shape.leading {
            bytes[0] = sign;
            put_digits(&mut bytes[1..], digits);
        } else {
            put_digits(&mut bytes[..digits.len()], digits);
            bytes[digits.len()] = sign;
        }
    }

    fn laws() {}
}

/// The byte of a sign.
fn sign_written(negative: bool) -> u8
    ensures { result ≡ sign_byte negative }
{
    if negative { MINUS } else { PLUS }
}

/// Whether a sign's byte is a minus, if it is a sign.
fn sign_read(byte: u8) -> Option<bool>
    ensures found { IfSome result (λ minus. byte ≡ sign_byte minus) }
    ensures none { IfNone result ((minus : Bool) → byte ≢ sign_byte minus) }
{
    match byte {
        PLUS => Some(false),
        MINUS => Some(true),
        _ => None,
    }
}

/// The byte of the sign and those of the digits.
pub(crate) fn split_sign(leading: bool, bytes: &[u8]) -> (u8, &[u8])
    requires { 0 < length bytes.now }
    ensures parts { bytes.now
        ≡ (if leading then result.0 ∷ result.1.now else result.1.now ++ result.0 ∷ []) }
    ensures long { length bytes.now ≡ length result.1.now + 1 }
{
    if leading {
        (bytes[0], &bytes[1..])
    } else {
        let last = bytes.len() - 1;
        (bytes[last], &bytes[..last])
    }
}

/// The number that bytes with a separate sign represent, if they do.
fn read_separate(shape: &Shape, bytes: &[u8]) -> Option<Number>
    requires { length bytes.now ≡ shape.now.digits + 1 }
    ensures found { IfSome result (λ v.
        IsSignedSeparately shape.now.digits shape.now.leading bytes.now v.negative v.digits) }
    ensures scale { IfSome result (λ v. v.scale ≡ shape.now.scale) }
    ensures none { IfNone result ((negative : Bool) (digits : List ℕ)
        → ¬ IsSignedSeparately shape.now.digits shape.now.leading bytes.now negative digits) }
{
    let (sign, text) = split_sign(shape.leading, bytes);
    match sign_read(sign) {
        Some(negative) => match read_digits(text) {
            Some(digits) => Some(Number::new(negative, digits, shape.scale)),
            None => None,
        },
        None => None,
    }
}
