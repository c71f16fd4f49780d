ghost use Rattle.std.specs.Prelude.{◌≡◌, ◌<◌, ◌≤◌, ◌≢◌, ℕ, List, Bool, length, IfSome, IfNone};
ghost use Rattle.cob_decimal.specs.Decimal.{IsDigits};
ghost use Rattle.cob_limits.specs.Limits.{most_digits};
ghost use Rattle.cob_codec.specs.Sign.{sign_place};
ghost use Rattle.cob_codec.specs.Zoned.{IsZoned, digit_bytes, zoned_form};

use crate::shape::Shape;
use crate::sign::{code_of, sign_of};
use crate::storage::Storage;
use cob_cp037::ZERO;
use cob_decimal::{Digits, Number};

/// Zoned decimal (USAGE DISPLAY): a byte for each digit.
///
/// The low half of a byte is the digit, the high half its zone: F, but in the sign's place, the last byte or in a signed
/// item with SIGN LEADING the first. There A, C, E and F are plus, and B and D minus where the item is signed; C, D and, where it is not signed, F are
/// written. IBM Enterprise COBOL for z/OS has these bytes under NUMPROC(NOPFD).
pub struct Zoned;

impl Storage for Zoned {
    ghost takes = { λ shape. Unit {0} };

    ghost size = { λ shape. shape.digits };

    ghost represents = { λ shape bytes negative digits.
        IsZoned shape.digits shape.signed shape.leading bytes negative digits };

    ghost stored = { λ shape negative digits. zoned_form shape.signed shape.leading negative digits };

    fn length(shape: &Shape) -> u16 {
        u16::from(shape.digits)
    }

    fn read(shape: &Shape, bytes: &[u8]) -> Option<Number> {
        read_zoned(shape, bytes)
    }

    fn store(shape: &Shape, number: &Number, bytes: &mut [u8]) {
        let digits = number.digits().as_slice();
        put_digits(bytes, digits);
        let place = sign_place(shape.signed, shape.leading, bytes.len());
        bytes[place] = code_of(shape.signed, number.negative()) * 16 + digits[place];
    }

    fn laws() {}
}

/// The place of the sign among the bytes of a zoned item.
pub fn sign_place(signed: bool, leading: bool, count: usize) -> usize
    requires { 0 < count }
    ensures place { result ≡ sign_place signed leading count }
    ensures within { result < count }
{
    if signed && leading { 0 } else { count - 1 }
}

/// The number that zoned bytes represent, if they do.
fn read_zoned(shape: &Shape, bytes: &[u8]) -> Option<Number>
    requires { length bytes.now ≡ shape.now.digits }
    ensures found { IfSome result (λ v.
        IsZoned shape.now.digits shape.now.signed shape.now.leading bytes.now v.negative v.digits) }
    ensures scale { IfSome result (λ v. v.scale ≡ shape.now.scale) }
    ensures none { IfNone result ((negative : Bool) (digits : List ℕ)
        → ¬ IsZoned shape.now.digits shape.now.signed shape.now.leading bytes.now negative digits) }
{
    let place = sign_place(shape.signed, shape.leading, bytes.len());
    let mut digits = Digits::new();
    for (at, byte) in bytes.iter().enumerate() {
        let digit = *byte % 16;
        if digit > 9 {
            return None;
        }
        if *byte / 16 != 0xF && at != place {
            return None;
        }
        digits.push(digit);
    }
    match sign_of(shape.signed, bytes[place] / 16) {
        Some(negative) => Some(Number::new(negative, digits, shape.scale)),
        None => None,
    }
}

/// The digits of a text of digits: bytes F0 to F9 alone, at most 31 of them.
pub fn read_digits(bytes: &[u8]) -> Option<Digits>
    requires { length bytes.now ≤ most_digits }
    ensures found { IfSome result (λ digits. IsDigits digits × (bytes.now ≡ digit_bytes digits)) }
    ensures none { IfNone result
        ((digits : List ℕ) → IsDigits digits → bytes.now ≢ digit_bytes digits) }
{
    let mut digits = Digits::new();
    for byte in bytes {
        if *byte < ZERO {
            return None;
        }
        let digit = *byte - ZERO;
        if digit > 9 {
            return None;
        }
        digits.push(digit);
    }
    Some(digits)
}

/// Writes each digit in zone F.
pub(crate) fn put_digits(bytes: &mut [u8], digits: &[u8])
    requires valid { IsDigits digits.now }
    requires long { length bytes.old ≡ length digits.now }
    ensures { bytes.new ≡ digit_bytes digits.now }
{
    for (at, digit) in digits.iter().enumerate() {
        bytes[at] = ZERO + *digit;
    }
}
