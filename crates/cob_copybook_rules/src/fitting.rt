//! Numeric literals, and the numeric items that take them as values.

ghost use Rattle.std.specs.Prelude.{◌≡◌, ℕ, ◌*◌, ◌^◌, ◌-ℤ◌, ◌<◌, ◌≤◌, ◌↔◌, ◌==◌, IsTrue};
ghost use Rattle.std.specs.List.{list_all};
ghost use Rattle.cob_decimal.specs.Decimal.{IsDigits, number_of};
ghost use Rattle.cob_decimal.specs.Parts.{IsSignificant};
ghost use Rattle.cob_copybook_rules.specs.Fitting.{CanBeHeld};
ghost use Rattle.cob_copybook_rules.specs.Values.{HoldsNumber};

use cob_decimal::{Number, are_zeros, without_zeros};
use cob_picture::Picture;

/// Whether digits, with so many zeros behind them, are at most `room` digits.
fn holds_finer(digits: &[u8], zeros: usize, room: usize) -> bool
    requires digits { IsDigits digits.now }
    requires first { IsSignificant digits.now }
    requires few { zeros ≤ 65535 }
    ensures { IsTrue result ↔ (number_of digits.now * 10 ^ zeros < 10 ^ room) }
{
    digits.is_empty() || digits.len() + zeros <= room
}

/// Whether the last `places` of the digits are zeros, and those before them are at most `room` digits.
fn holds_coarser(digits: &[u8], places: usize, room: usize) -> bool
    requires digits { IsDigits digits.now }
    requires first { IsSignificant digits.now }
    ensures yes { IsTrue result
        → (held : ℕ) × (held < 10 ^ room) × (number_of digits.now ≡ held * 10 ^ places) }
    ensures must { (held : ℕ)
        → held < 10 ^ room → number_of digits.now ≡ held * 10 ^ places → IsTrue result }
{
    let (kept, cut) = digits.split_at(digits.len().saturating_sub(places));
    are_zeros(cut) && kept.len() <= room
}

/// Whether a number of `room` digits, in units that are `shift` powers of ten finer than those of the digits, or coarser where
/// `shift` is below zero, can be the one that the digits are.
fn holds(digits: &[u8], shift: i16, room: usize) -> bool
    requires digits { IsDigits digits.now }
    ensures yes { IsTrue result → CanBeHeld shift (number_of digits.now) room }
    ensures must { CanBeHeld shift (number_of digits.now) room → IsTrue result }
{
    let digits = without_zeros(digits);
    let places = usize::from(shift.unsigned_abs());
    if shift < 0 {
        holds_coarser(digits, places, room)
    } else {
        holds_finer(digits, places, room)
    }
}

/// How many powers of ten finer the units of one scale are than those of another; below zero where they are coarser.
fn shift_between(from: i8, to: i8) -> i16
    ensures { result ≡ to -ℤ from }
{
    i16::from(to) - i16::from(from)
}

/// Whether a sign is kept if it is written.
fn may_write_sign(written: bool, kept: bool) -> bool
    ensures { IsTrue result ↔ (IsTrue written → IsTrue kept) }
{
    kept || !written
}

/// Whether a numeric item of this picture takes a numeric literal as its value: nothing of it is cut, and a sign is written only
/// where the picture has one.
pub(crate) fn fits_number(picture: &Picture, signed: bool, number: &Number) -> bool
    ensures yes { IsTrue result
        → HoldsNumber picture.now signed number.now.digits number.now.scale }
    ensures must { HoldsNumber picture.now signed number.now.digits number.now.scale
        → IsTrue result }
{
    let shift = shift_between(number.scale(), picture.scale());
    let room = usize::from(picture.digits());
    may_write_sign(signed, picture.signed()) && holds(number.digits().as_slice(), shift, room)
}
