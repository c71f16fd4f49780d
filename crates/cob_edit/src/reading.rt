//! The number whose text stands at the places of an item.

ghost use Rattle.std.specs.Prelude.{◌≡◌, ◌<◌, ◌≤◌, ◌↔◌, length, count_by, IsTrue, IfSome, IsSomeAnd, Bool, true, ℕ, List};
ghost use Rattle.cob_limits.specs.Limits.{most_digits};
ghost use Rattle.cob_decimal.specs.Decimal.{IsDigits};
ghost use Rattle.cob_edit.specs.Places.{is_digit, bytes_of};
ghost use Rattle.cob_edit.specs.Editing.{IsText, FitsPlaces, shown_digit, extract};

use crate::MAX_PLACES;
use crate::place::EditedPlace;
use crate::region::shows_sign;
use crate::text::write_text;
use cob_cp037::{NINE, ZERO};
use cob_decimal::{Digits, are_zeros};
use cob_limits::MAX_DIGITS;

/// The digit that a byte shows, and 0 for a byte that shows none.
fn shown_digit(byte: u8) -> u8
    ensures value { result ≡ shown_digit byte }
    ensures digit { result < 10 }
{
    if byte > ZERO && byte <= NINE {
        byte - ZERO
    } else {
        0
    }
}

/// The digits that stand at the digit places of a text, whatever it is.
fn digits_in(places: &[EditedPlace], bytes: &[u8]) -> Digits
    requires room { length bytes.now ≡ bytes_of places.now }
    requires few { count_by is_digit places.now ≤ most_digits }
    ensures value { result ≡ extract places.now bytes.now }
    ensures count { length result ≡ count_by is_digit places.now }
    ensures valid { IsDigits result }
{
    let mut digits = Digits::new();
    let mut read = 0;
    for place in places {
        if place.is_digit() {
            digits.push(shown_digit(bytes[read]));
        }
        if place.has_byte() {
            read += 1;
        }
    }
    digits
}

/// Whether the bytes are the text of these digits.
fn is_text(places: &[EditedPlace], blank: bool, negative: bool, digits: &[u8], bytes: &[u8]) -> bool
    requires digits { length digits.now ≡ count_by is_digit places.now }
    requires valid { IsDigits digits.now }
    requires room { length bytes.now ≡ bytes_of places.now }
    requires most { length bytes.now ≤ MAX_PLACES }
    ensures { IsTrue result ↔ IsText places.now blank negative digits.now bytes.now }
{
    let mut buffer = [0u8; MAX_PLACES];
    let text = &mut buffer[..bytes.len()];
    write_text(places, blank, negative, digits, text);
    *text == *bytes
}

/// Whether the bytes are the text of these digits with a minus.
fn is_negative_text(places: &[EditedPlace], blank: bool, digits: &[u8], bytes: &[u8]) -> bool
    requires digits { length digits.now ≡ count_by is_digit places.now }
    requires valid { IsDigits digits.now }
    requires room { length bytes.now ≡ bytes_of places.now }
    requires most { length bytes.now ≤ MAX_PLACES }
    ensures { IsTrue result ↔
        (FitsPlaces places.now true digits.now
        × IsText places.now blank true digits.now bytes.now) }
{
    shows_sign(places) && !are_zeros(digits) && is_text(places, blank, true, digits, bytes)
}

/// The sign and the digits whose text the bytes are, if they are one.
pub fn read_text(places: &[EditedPlace], blank: bool, bytes: &[u8]) -> Option<(bool, Digits)>
    requires room { length bytes.now ≡ bytes_of places.now }
    requires most { length bytes.now ≤ MAX_PLACES }
    requires few { count_by is_digit places.now ≤ most_digits }
    ensures found { IfSome result
        (λ v. FitsPlaces places.now v.0 v.1 × IsText places.now blank v.0 v.1 bytes.now) }
    ensures only { (n : Bool) (ds : List ℕ) → FitsPlaces places.now n ds
        → IsText places.now blank n ds bytes.now → IsSomeAnd result (λ v. (v.0 ≡ n) × (v.1 ≡ ds)) }
{
    let digits = digits_in(places, bytes);
    if is_text(places, blank, false, digits.as_slice(), bytes) {
        return Some((false, digits));
    }
    if is_negative_text(places, blank, digits.as_slice(), bytes) {
        return Some((true, digits));
    }
    None
}
