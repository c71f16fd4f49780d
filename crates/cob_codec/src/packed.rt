ghost use Rattle.std.specs.Prelude.{◌≡◌, ◌≢◌, ◌+◌, ◌-◌, ◌*◌, ◌/◌, ◌%◌, ◌<◌, ◌≤◌, ◌↔◌, ℕ, List, [], ◌∷◌, ◌++◌, Bool, IsTrue, length, replicate, take, IfSome, IfNone};
ghost use Rattle.std.specs.Bool.{OnTrue};
ghost use Rattle.cob_decimal.specs.Decimal.{IsDigits};
ghost use Rattle.cob_limits.specs.Limits.{most_digits};
ghost use Rattle.cob_codec.specs.Packed.{IsPacked, IsEnded, halves, bytes_of_halves, pad_count, packed_form};

use crate::shape::Shape;
use crate::sign::{code_of, sign_of};
use crate::storage::Storage;
use cob_decimal::{Digits, Number};

/// Packed decimal (PACKED-DECIMAL, COMP-3): a digit in each half byte, and the sign's code in the last.
///
/// n digits have `n / 2 + 1` bytes; where n is even the first half byte is 0. The codes are those of [`crate::Zoned`].
pub struct Packed;

impl Storage for Packed {
    ghost takes = { λ shape. Unit {0} };

    ghost size = { λ shape. shape.digits / 2 + 1 };

    ghost represents = { λ shape bytes negative digits.
        IsPacked shape.digits shape.signed bytes negative digits };

    ghost stored = { λ shape negative digits. packed_form shape.signed negative digits };

    fn length(shape: &Shape) -> u16 {
        u16::from(shape.digits / 2) + 1
    }

    fn read(shape: &Shape, bytes: &[u8]) -> Option<Number> {
        read_packed(shape, bytes)
    }

    fn store(shape: &Shape, number: &Number, bytes: &mut [u8]) {
        let digits = number.digits().as_slice();
        let front = digits.len() - 1;
        let last = bytes.len() - 1;
        put_front(&mut bytes[..last], &digits[..front]);
        bytes[last] = digits[front] * 16 + code_of(shape.signed, number.negative());
    }

    fn laws() {}
}

/// The number that packed bytes represent, if they do.
pub(crate) fn read_packed(shape: &Shape, bytes: &[u8]) -> Option<Number>
    requires { length bytes.now ≡ shape.now.digits / 2 + 1 }
    ensures found { IfSome result (λ v.
        IsPacked shape.now.digits shape.now.signed bytes.now v.negative v.digits) }
    ensures scale { IfSome result (λ v. v.scale ≡ shape.now.scale) }
    ensures none { IfNone result ((negative : Bool) (digits : List ℕ)
        → ¬ IsPacked shape.now.digits shape.now.signed bytes.now negative digits) }
{
    let last = bytes.len() - 1;
    match front_digits(shape.digits, &bytes[..last]) {
        Some(front) => read_last(shape, front, bytes[last]),
        None => None,
    }
}

/// The number of the digits in front of the last byte and of what the last byte has: a digit and the sign.
fn read_last(shape: &Shape, front: Digits, last: u8) -> Option<Number>
    requires valid { IsDigits front }
    requires count { length front + 1 ≡ shape.now.digits }
    ensures found { IfSome result (λ v. IsEnded shape.now.signed front last v.negative v.digits) }
    ensures scale { IfSome result (λ v. v.scale ≡ shape.now.scale) }
    ensures none { IfNone result ((negative : Bool) (digits : List ℕ)
        → ¬ IsEnded shape.now.signed front last negative digits) }
{
    let digit = last / 16;
    if digit > 9 {
        return None;
    }
    let mut digits = front;
    digits.push(digit);
    match sign_of(shape.signed, last % 16) {
        Some(negative) => Some(Number::new(negative, digits, shape.scale)),
        None => None,
    }
}

/// The digits in the bytes before the last: behind a half byte 0 where the item has an even number of digits.
fn front_digits(count: u8, front: &[u8]) -> Option<Digits>
    requires some { 0 < count }
    requires most { count ≤ most_digits }
    requires long { length front.now ≡ count / 2 }
    ensures found { IfSome result (λ digits. IsDigits digits
        × (halves front.now ≡ replicate (pad_count count) 0 ++ digits)) }
    ensures none { IfNone result ((digits : List ℕ)
        → IsDigits digits → halves front.now ≢ replicate (pad_count count) 0 ++ digits) }
{
    let mut digits = Digits::new();
    if count % 2 == 1 {
        if push_halves(&mut digits, front) {
            return Some(digits);
        }
        return None;
    }
    if front[0] > 9 {
        return None;
    }
    digits.push(front[0]);
    if push_halves(&mut digits, &front[1..]) {
        return Some(digits);
    }
    None
}

/// Adds both half bytes of each byte, if each is a digit.
fn push_halves(digits: &mut Digits, bytes: &[u8]) -> bool
    requires room { length digits.old + 2 * length bytes.now ≤ most_digits }
    ensures exact { IsTrue result ↔ IsDigits (halves bytes.now) }
    ensures pushed { OnTrue result (digits.new ≡ digits.old ++ halves bytes.now) }
{
    for byte in bytes {
        let high = *byte / 16;
        let low = *byte % 16;
        if high > 9 {
            return false;
        }
        if low > 9 {
            return false;
        }
        digits.push(high);
        digits.push(low);
    }
    true
}

/// Writes all digits but the last: behind a half byte 0 where these are odd in number.
fn put_front(bytes: &mut [u8], digits: &[u8])
    requires valid { IsDigits digits.now }
    requires long { length bytes.old ≡ (length digits.now + 1) / 2 }
    ensures { bytes.new ≡ bytes_of_halves (replicate (length digits.now % 2) 0 ++ digits.now) }
{
    if digits.len() % 2 == 0 {
        put_halves(bytes, digits);
    } else {
        bytes[0] = digits[0];
        put_halves(&mut bytes[1..], &digits[1..]);
    }
}

/// Writes two digits into each byte.
fn put_halves(bytes: &mut [u8], digits: &[u8])
    requires valid { IsDigits digits.now }
    requires long { length digits.now ≡ 2 * length bytes.old }
    ensures { bytes.new ≡ bytes_of_halves digits.now }
{
    for at in 0..bytes.len() {
        bytes[at] = digits[2 * at] * 16 + digits[2 * at + 1];
    }
}
