//! Numbers read by any zones: as the machine takes digits out of bytes, whatever the zones of these are.

ghost use Rattle.std.specs.Prelude.{◌≡◌, ◌+◌, ◌/◌, ◌≤◌, ◌==◌, ℕ, List, Bool, IsTrue, ◌↔◌, length, map, replicate, IfSome, IfNone};
ghost use Rattle.std.specs.List.{list_all};
ghost use Rattle.cob_decimal.specs.Answers.{AnswersNumber};
ghost use Rattle.cob_decimal.specs.Decimal.{IsDigits};
ghost use Rattle.cob_limits.specs.Limits.{most_digits};
ghost use Rattle.cob_codec.specs.AnyZones.{AreFilled, IsPackedByAnyZones, IsSeparateByAnyZones, IsZonedByAnyZones, is_minus_zone};
ghost use Rattle.cob_codec.specs.Zoned.{low_digit};

use crate::packed::{Packed, read_packed};
use crate::separate::{Separate, split_sign};
use crate::shape::Shape;
use crate::zoned::{Zoned, sign_place};
use cob_cp037::{MINUS, SPACE};
use cob_decimal::{Digits, Number};

/// Whether a zone in the sign's place is a minus; every other one is a plus.
fn is_minus_zone(signed: bool, zone: u8) -> bool
    ensures { result ≡ is_minus_zone signed zone }
{
    signed && (zone == 0xB || zone == 0xD)
}

/// The low halves of bytes, if all of them are digits.
fn low_digits(bytes: &[u8]) -> Option<Digits>
    requires { length bytes.now ≤ most_digits }
    ensures found { IfSome result
        (λ digits. IsDigits digits × (digits ≡ map low_digit bytes.now)) }
    ensures none { IfNone result (¬ IsDigits (map low_digit bytes.now)) }
{
    let mut digits = Digits::new();
    for byte in bytes {
        let digit = *byte % 16;
        if digit > 9 {
            return None;
        }
        digits.push(digit);
    }
    Some(digits)
}

/// So many zeros.
fn zeros(count: u8) -> Digits
    requires { count ≤ most_digits }
    ensures { result ≡ replicate count 0 }
{
    let mut digits = Digits::new();
    for at in 0..count {
        digits.push(0);
    }
    digits
}

/// Whether each byte is this one.
fn each_is(bytes: &[u8], fill: u8) -> bool
    ensures { result ≡ list_all (λ b. b == fill) bytes.now }
{
    bytes.iter().all(|byte| *byte == fill)
}

/// Whether the bytes are this one, as often as they are many.
fn are_all(bytes: &[u8], fill: u8) -> bool
    ensures { IsTrue result ↔ (bytes.now ≡ replicate (length bytes.now) fill) }
{
    each_is(bytes, fill)
}

/// Whether all bytes are spaces, or all are 00.
fn is_filled(bytes: &[u8]) -> bool
    ensures { IsTrue result ↔ AreFilled bytes.now }
{
    are_all(bytes, SPACE) || are_all(bytes, 0)
}

impl Zoned {
    /// The number that the low halves of the bytes are, whatever their zones, at the shape's scale: minus where the item is signed and the zone in the
    /// sign's place is B or D, else plus. None exactly where a low half is no digit.
    pub fn read_any_zones(shape: &Shape, bytes: &[u8]) -> Option<Number>
        requires long { length bytes.now ≡ shape.now.digits }
        ensures found { IfSome result (λ v. IsZonedByAnyZones
            shape.now.digits shape.now.signed shape.now.leading bytes.now v.negative v.digits) }
        ensures scale { IfSome result (λ v. v.scale ≡ shape.now.scale) }
        ensures only { (negative : Bool) (digits : List ℕ)
            → IsZonedByAnyZones
            shape.now.digits shape.now.signed shape.now.leading bytes.now negative digits
            → AnswersNumber result negative digits }
    {
        let place = sign_place(shape.signed, shape.leading, bytes.len());
        let minus = is_minus_zone(shape.signed, bytes[place] / 16);
        match low_digits(bytes) {
            Some(digits) => Some(Number::new(minus, digits, shape.scale)),
            None => None,
        }
    }
}

impl Separate {
    /// The number that the low halves of the digits' bytes are, whatever their zones, at the shape's scale: minus where the sign's byte is a minus, 60,
    /// else plus. None exactly where a low half is no digit.
    pub fn read_any_zones(shape: &Shape, bytes: &[u8]) -> Option<Number>
        requires long { length bytes.now ≡ shape.now.digits + 1 }
        ensures found { IfSome result (λ v. IsSeparateByAnyZones
            shape.now.digits shape.now.leading bytes.now v.negative v.digits) }
        ensures scale { IfSome result (λ v. v.scale ≡ shape.now.scale) }
        ensures only { (negative : Bool) (digits : List ℕ)
            → IsSeparateByAnyZones shape.now.digits shape.now.leading bytes.now negative digits
            → AnswersNumber result negative digits }
    {
        let (sign, text) = split_sign(shape.leading, bytes);
        match low_digits(text) {
            Some(digits) => Some(Number::new(sign == MINUS, digits, shape.scale)),
            None => None,
        }
    }
}

impl Packed {
    /// The number that the bytes represent, or zero where all of them are spaces, 40, or all are 00, at the shape's scale. None exactly where they are
    /// neither.
    pub fn read_any_zones(shape: &Shape, bytes: &[u8]) -> Option<Number>
        requires long { length bytes.now ≡ shape.now.digits / 2 + 1 }
        ensures found { IfSome result (λ v. IsPackedByAnyZones
            shape.now.digits shape.now.signed bytes.now v.negative v.digits) }
        ensures scale { IfSome result (λ v. v.scale ≡ shape.now.scale) }
        ensures only { (negative : Bool) (digits : List ℕ)
            → IsPackedByAnyZones shape.now.digits shape.now.signed bytes.now negative digits
            → AnswersNumber result negative digits }
    {
        if is_filled(bytes) {
            return Some(Number::new(false, zeros(shape.digits), shape.scale));
        }
        read_packed(shape, bytes)
    }
}
