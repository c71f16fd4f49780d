//! The text of a number at the places of an item.

ghost use Rattle.std.specs.Prelude.{if◌then◌else◌, ◌≡◌, ◌+◌, ◌<◌, ◌≤◌, ◌==◌, ◌↔◌, ◌&&◌, not, length, slice_index, count_by, IsTrue, ℕ};
ghost use Rattle.std.specs.List.{list_all, list_any, flat_map};
ghost use Rattle.std.specs.Option.{option_to_list};
ghost use Rattle.cob_decimal.specs.Decimal.{IsDigits};
ghost use Rattle.cob_edit.specs.Places.{is_digit, has_byte, is_nine, is_star, bytes_of};
ghost use Rattle.cob_edit.specs.Editing.{region_start, region_end, place_at, hidden, shown, cell, printed, empty_cell, has_stars, shows_nothing, IsText};

use crate::place::EditedPlace;
use crate::region::{Region, cut_of, region_of};
use cob_cp037::{ASTERISK, POINT, SPACE, ZERO};
use cob_decimal::are_zeros;

/// What a place of the region holds before the cut.
pub(crate) fn hidden(first: &EditedPlace, negative: bool, at_cut: bool) -> u8
    ensures { result ≡ hidden first.now negative at_cut }
{
    match first {
        EditedPlace::Suppressed(fill) => fill.byte(),
        EditedPlace::First(mark) if at_cut => mark.byte(negative),
        _ => SPACE,
    }
}

/// What another place holds.
fn shown(place: &EditedPlace, negative: bool, digit: u8) -> Option<u8>
    requires { digit < 10 }
    ensures { option_to_list result ≡ shown place.now negative digit }
{
    match place {
        EditedPlace::Inserted(byte) => Some(*byte),
        EditedPlace::Point => Some(POINT),
        EditedPlace::Digit | EditedPlace::Suppressed(_) | EditedPlace::Floating => Some(
            digit + ZERO,
        ),
        EditedPlace::First(_) => Some(SPACE),
        EditedPlace::Fixed(mark) => Some(mark.byte(negative)),
        EditedPlace::AssumedPoint => None,
    }
}

/// The byte of a place, if it holds one.
#[tactic(auto, using(crate::proofs::EditingLemmas::region_bytes))]
fn cell(
    places: &[EditedPlace],
    start: usize,
    cut: usize,
    negative: bool,
    at: usize,
    digit: u8,
) -> Option<u8>
    requires start { start ≡ region_start places.now }
    requires inside { at < length places.now }
    requires cut { cut ≤ region_end places.now }
    requires digit { digit < 10 }
    ensures bytes { option_to_list result ≡ cell places.now negative cut at
        (place_at places.now at) digit }
    ensures count { length
        (option_to_list result) ≡ (if has_byte (place_at places.now at) then 1 else 0) }
{
    if start <= at && at < cut {
        Some(hidden(&places[start], negative, at + 1 == cut))
    } else {
        shown(&places[at], negative, digit)
    }
}

/// The digit of this number, and 0 past the last.
fn digit_in(digits: &[u8], at: usize) -> u8
    requires { IsDigits digits.now }
    ensures value { result ≡ slice_index digits.now at }
    ensures digit { result < 10 }
{
    if at < digits.len() { digits[at] } else { 0 }
}

/// Writes the bytes of a value that shows.
fn print(
    places: &[EditedPlace],
    digits: &[u8],
    negative: bool,
    start: usize,
    cut: usize,
    out: &mut [u8],
)
    requires start { start ≡ region_start places.now }
    requires cut { cut ≤ region_end places.now }
    requires valid { IsDigits digits.now }
    requires room { length out.old ≡ bytes_of places.now }
    ensures { out.new ≡ printed places.now digits.now negative cut 0 places.now }
{
    let mut next = 0;
    let mut written = 0;
    for at in 0..places.len() {
        if let Some(byte) = cell(places, start, cut, negative, at, digit_in(digits, next)) {
            out[written] = byte;
            written += 1;
        }
        if places[at].is_digit() {
            next += 1;
        }
    }
}

/// Whether no digit always shows.
pub(crate) fn has_no_nine(places: &[EditedPlace]) -> bool
    ensures { result ≡ list_all (λ p. not (is_nine p)) places.now }
{
    places.iter().all(|place| !place.is_nine())
}

/// Whether asterisks stand for suppressed zeros.
pub(crate) fn has_star(places: &[EditedPlace]) -> bool
    ensures { result ≡ list_any is_star places.now }
{
    places.iter().any(|place| place.is_star())
}

/// Whether the value is 0 and shows nothing.
fn shows_nothing(places: &[EditedPlace], blank: bool, digits: &[u8]) -> bool
    ensures { result ≡ shows_nothing places.now blank digits.now }
{
    are_zeros(digits) && (blank || has_no_nine(places))
}

/// The byte of a place of a value that shows nothing, if the place holds one.
fn empty_cell(stars: bool, place: &EditedPlace) -> Option<u8>
    ensures { option_to_list result ≡ empty_cell stars place.now }
{
    match place {
        EditedPlace::AssumedPoint => None,
        EditedPlace::Point => Some(if stars { POINT } else { SPACE }),
        _ => Some(if stars { ASTERISK } else { SPACE }),
    }
}

/// Writes the bytes of a value that shows nothing.
fn print_nothing(places: &[EditedPlace], blank: bool, out: &mut [u8])
    requires { length out.old ≡ bytes_of places.now }
    ensures { out.new ≡ flat_map (empty_cell (has_stars places.now blank)) places.now }
{
    let stars = !blank && has_star(places);
    let mut written = 0;
    for place in places {
        if let Some(byte) = empty_cell(stars, place) {
            out[written] = byte;
            written += 1;
        }
    }
}

/// Writes the text of as many digits as the places have room for.
pub fn write_text(
    places: &[EditedPlace],
    blank: bool,
    negative: bool,
    digits: &[u8],
    out: &mut [u8],
)
    requires digits { length digits.now ≡ count_by is_digit places.now }
    requires valid { IsDigits digits.now }
    requires room { length out.old ≡ bytes_of places.now }
    ensures { IsText places.now blank negative digits.now out.new }
{
    if shows_nothing(places, blank, digits) {
        print_nothing(places, blank, out);
    } else {
        let region = region_of(places);
        let cut = cut_of(places, digits, region);
        print(places, digits, negative, region.start, cut, out);
    }
}
