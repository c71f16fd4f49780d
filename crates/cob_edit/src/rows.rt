//! Texts made ready: what the places show of all numbers that have so many zeros in front.

ghost use Rattle.std.specs.Prelude.{◌≡◌, ◌+◌, ◌<◌, ◌≤◌, ◌==◌, ◌&&◌, ◌||◌, not, nat_lt, if◌then◌else◌, ℕ, Bool, List, length, ◌++◌, map, take, count_by, IsTrue};
ghost use Rattle.std.specs.List.{prefix_len, list_all, flat_map};
ghost use Rattle.std.specs.Option.{option_to_list};
ghost use Rattle.cob_limits.specs.Limits.{most_digits};
ghost use Rattle.cob_picture.specs.Positions.{shows_number};
ghost use Rattle.cob_picture.specs.Counts.{size};
ghost use Rattle.cob_edit.specs.Places.{mark_byte, is_digit, is_nine, has_byte, bytes_of};
ghost use Rattle.cob_edit.specs.Editing.{region_start, region_end, shows_sign, place_at, shown, cell, hidden, printed, empty_cell, has_stars, shows_nothing, IsSuppressedTo};
ghost use Rattle.cob_edit.specs.Rows.{ArePlacesOf, CellShows, IsRowOf, RowShows, cell_byte, row_bytes, zeros_tell};

use crate::MAX_PLACES;
use crate::cell::TextCell;
use crate::place::{EditedPlace, Mark};
use crate::positions::Places;
use crate::region::{Region, region_of, shows_sign};
use crate::text::{has_no_nine, has_star, hidden};
use arrayvec::ArrayVec;
use cob_cp037::{ASTERISK, POINT, SPACE};
use cob_picture::Picture;

/// The bytes of a text that is made ready.
pub type Row = ArrayVec<TextCell, MAX_PLACES>;

/// The byte of a mark, where a minus shows or not.
fn marked(mark: Mark, shows: bool) -> TextCell
    ensures { (ds : List ℕ) (negative : Bool) → cell_byte ds negative result
        ≡ mark_byte mark (negative && shows) }
{
    TextCell::Signed {
        plus: mark.byte(false),
        minus: mark.byte(shows),
    }
}

/// What a place of the region shows before the cut.
fn hidden_cell(first: &EditedPlace, shows: bool, at_cut: bool) -> TextCell
    ensures { (ds : List ℕ) (negative : Bool) → cell_byte ds negative result
        ≡ hidden first.now (negative && shows) at_cut }
{
    TextCell::Signed {
        plus: hidden(first, false, at_cut),
        minus: hidden(first, shows, at_cut),
    }
}

/// What another place shows, where the next digit has this number.
fn shown_cell(place: &EditedPlace, shows: bool, next: u8) -> Option<TextCell>
    ensures bytes { CellShows result shows next (shown place.now) }
    ensures count { length (option_to_list result) ≡ (if has_byte place.now then 1 else 0) }
{
    match place {
        EditedPlace::Inserted(byte) => Some(TextCell::Same(*byte)),
        EditedPlace::Point => Some(TextCell::Same(POINT)),
        EditedPlace::Digit | EditedPlace::Suppressed(_) | EditedPlace::Floating => Some(
            TextCell::Taken(next),
        ),
        EditedPlace::First(_) => Some(TextCell::Same(SPACE)),
        EditedPlace::Fixed(mark) => Some(marked(*mark, shows)),
        EditedPlace::AssumedPoint => None,
    }
}

/// What a place shows.
#[tactic(auto, using(crate::proofs::EditingLemmas::region_bytes))]
fn cell_at(
    places: &[EditedPlace],
    start: usize,
    cut: usize,
    shows: bool,
    at: usize,
    next: u8,
) -> Option<TextCell>
    requires start { start ≡ region_start places.now }
    requires inside { at < length places.now }
    requires cut { cut ≤ region_end places.now }
    ensures bytes { CellShows result shows next
        (λ minus digit. cell places.now minus cut at (place_at places.now at) digit) }
    ensures count { length (option_to_list result)
        ≡ (if has_byte (place_at places.now at) then 1 else 0) }
{
    if start <= at && at < cut {
        Some(hidden_cell(&places[start], shows, at + 1 == cut))
    } else {
        shown_cell(&places[at], shows, next)
    }
}

/// What the places show of a value that shows, where the suppressed places end there.
fn printed_row(places: &[EditedPlace], shows: bool, start: usize, cut: usize) -> Row
    requires start { start ≡ region_start places.now }
    requires cut { cut ≤ region_end places.now }
    requires few { count_by is_digit places.now ≤ most_digits }
    requires most { bytes_of places.now ≤ MAX_PLACES }
    ensures text { (ds : List ℕ) (negative : Bool) → row_bytes ds negative result.items
        ≡ printed places.now ds (negative && shows) cut 0 places.now }
    ensures count { length result.items ≡ bytes_of places.now }
{
    let mut row = Row::new();
    let mut next = 0;
    for at in 0..places.len() {
        if let Some(cell) = cell_at(places, start, cut, shows, at, next) {
            row.push(cell);
        }
        if places[at].is_digit() {
            next += 1;
        }
    }
    row
}

/// What a place shows of a value that shows nothing.
fn empty_place(stars: bool, place: &EditedPlace) -> Option<TextCell>
    ensures bytes { (ds : List ℕ) (negative : Bool)
        → map (cell_byte ds negative) (option_to_list result) ≡ empty_cell stars place.now }
    ensures count { length (option_to_list result) ≡ (if has_byte place.now then 1 else 0) }
{
    match place {
        EditedPlace::AssumedPoint => None,
        EditedPlace::Point => Some(TextCell::Same(if stars { POINT } else { SPACE })),
        _ => Some(TextCell::Same(if stars { ASTERISK } else { SPACE })),
    }
}

/// Whether asterisks stand for the value 0.
fn has_stars(places: &[EditedPlace], blank: bool) -> bool
    ensures { result ≡ has_stars places.now blank }
{
    !blank && has_star(places)
}

/// Adds what a place shows, if it has a byte.
fn push_shown(row: &mut Row, cell: Option<TextCell>)
    requires { length row.old.items + length (option_to_list cell) ≤ MAX_PLACES }
    ensures { row.new.items ≡ row.old.items ++ option_to_list cell }
{
    if let Some(cell) = cell {
        row.push(cell);
    }
}

/// What the places show of a value that shows nothing.
fn empty_row(places: &[EditedPlace], blank: bool) -> Row
    requires { bytes_of places.now ≤ MAX_PLACES }
    ensures text { (ds : List ℕ) (negative : Bool) → row_bytes ds negative result.items
        ≡ flat_map (empty_cell (has_stars places.now blank)) places.now }
    ensures count { length result.items ≡ bytes_of places.now }
{
    let stars = has_stars(places, blank);
    let mut row = Row::new();
    for place in places {
        push_shown(&mut row, empty_place(stars, place));
    }
    row
}

/// How many digits a place holds: one or none.
fn digits_of(place: &EditedPlace) -> usize
    ensures { result ≡ (if is_digit place.now then 1 else 0) }
{
    if place.is_digit() { 1 } else { 0 }
}

/// Where the suppressed places end of digits with so many zeros in front, where all digits stand in the region or behind it.
fn cut_within(places: &[EditedPlace], region: Region, zeros: usize) -> usize
    requires start { region.start ≡ region_start places.now }
    requires end { region.end ≡ region_end places.now }
    requires order { region.start ≤ region.end }
    requires inside { region.end ≤ length places.now }
    requires none_before { count_by is_digit (take (region_start places.now) places.now) ≡ 0 }
    ensures within { result ≤ region_end places.now }
    ensures cut { (ds : List ℕ) → length ds ≡ count_by is_digit places.now
        → prefix_len (λ d. d == 0) ds ≡ zeros → IsSuppressedTo places.now ds result }
{
    let mut left = zeros;
    for at in region.start..region.end {
        let digits = digits_of(&places[at]);
        if digits > left {
            return at;
        }
        left -= digits;
    }
    region.end
}

/// Where the suppressed places end of digits with so many zeros in front.
fn cut_after(places: &[EditedPlace], region: Region, zeros: usize) -> usize
    requires start { region.start ≡ region_start places.now }
    requires end { region.end ≡ region_end places.now }
    requires order { region.start ≤ region.end }
    requires inside { region.end ≤ length places.now }
    requires told { IsTrue (zeros_tell places.now) }
    ensures within { result ≤ region_end places.now }
    ensures cut { (ds : List ℕ) → length ds ≡ count_by is_digit places.now
        → prefix_len (λ d. d == 0) ds ≡ zeros → IsSuppressedTo places.now ds result }
{
    if region.end <= region.start {
        region.end
    } else {
        cut_within(places, region, zeros)
    }
}

/// Whether the value 0 shows nothing.
fn hides_zero(places: &[EditedPlace], blank: bool) -> bool
    ensures { result ≡ (blank || list_all (λ p. not (is_nine p)) places.now) }
{
    blank || has_no_nine(places)
}

/// Whether digits with so many zeros in front show nothing.
fn show_nothing(places: &[EditedPlace], blank: bool, digits: usize, zeros: usize) -> bool
    ensures { (ds : List ℕ) → length ds ≡ digits → prefix_len (λ d. d == 0) ds ≡ zeros
        → result ≡ shows_nothing places.now blank ds }
{
    if zeros == digits {
        hides_zero(places, blank)
    } else {
        false
    }
}

/// What the places show of all digits with so many zeros in front, with a minus where it shows.
fn row_at(places: &[EditedPlace], blank: bool, shows: bool, digits: usize, zeros: usize) -> Row
    requires digits { digits ≡ count_by is_digit places.now }
    requires few { count_by is_digit places.now ≤ most_digits }
    requires most { bytes_of places.now ≤ MAX_PLACES }
    requires told { IsTrue (zeros_tell places.now) }
    ensures text { RowShows places.now blank shows zeros result.items }
    ensures count { length result.items ≡ bytes_of places.now }
{
    if show_nothing(places, blank, digits, zeros) {
        return empty_row(places, blank);
    }
    let region = region_of(places);
    let cut = cut_after(places, region, zeros);
    printed_row(places, shows, region.start, cut)
}

/// Whether a minus shows of digits with so many zeros in front: the places tell the sign, and one of the digits is not 0.
fn shows_minus(places: &[EditedPlace], digits: usize, zeros: usize) -> bool
    ensures { result ≡ (nat_lt zeros digits && shows_sign places.now) }
{
    zeros < digits && shows_sign(places)
}

/// What each byte is of the text of any number with so many zeros in front. The places are those of the picture.
pub fn row_of(picture: &Picture, places: &Places, blank: bool, zeros: usize) -> Row
    requires shows { IsTrue (shows_number picture.now.category) }
    requires places { ArePlacesOf picture.now places.now.items }
    ensures text { IsRowOf picture.now blank zeros result.items }
    ensures count { length result.items ≡ size picture.now.positions }
{
    // The symbols say that the places are those of a picture that was read.
    let _symbols = picture.runs();
    let places = places.as_slice();
    let digits = usize::from(picture.digits());
    let shows = shows_minus(places, digits, zeros);
    row_at(places, blank, shows, digits, zeros)
}
