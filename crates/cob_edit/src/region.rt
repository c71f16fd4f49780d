//! The region of an item, whose zeros are suppressed, and the cut in it.

ghost use Rattle.std.specs.Prelude.{◌≡◌, ◌+◌, ◌<◌, ◌≤◌, ◌||◌, not, length, count_by, IsTrue, ℕ};
ghost use Rattle.std.specs.List.{prefix_len, list_any};
ghost use Rattle.cob_edit.specs.Places.{is_digit, is_run, is_run_or_insertion, is_point_place, is_fixed_sign};
ghost use Rattle.cob_edit.specs.Editing.{region_start, region_end, IsSuppressedTo, shows_sign};

use crate::place::EditedPlace;

/// Where the region of places stands.
#[derive(Clone, Copy, PartialEq, Eq)]
pub struct Region {
    /// The first place of it.
    pub start: usize,
    /// The place just after it.
    pub end: usize,
}

/// How many places stand before the first of the run or the point.
fn run_of(places: &[EditedPlace]) -> usize
    ensures value { result ≡ prefix_len (λ p. not (is_run p || is_point_place p)) places.now }
    ensures inside { result ≤ length places.now }
{
    for (at, place) in places.iter().enumerate() {
        if place.is_run() || place.is_point() {
            return at;
        }
    }
    places.len()
}

/// How many places from the front on are of the run or insertions.
fn run_length(places: &[EditedPlace]) -> usize
    ensures value { result ≡ prefix_len is_run_or_insertion places.now }
    ensures inside { result ≤ length places.now }
{
    for (at, place) in places.iter().enumerate() {
        if !place.is_run_or_insertion() {
            return at;
        }
    }
    places.len()
}

/// Where the region begins and ends.
pub fn region_of(places: &[EditedPlace]) -> Region
    ensures start { result.start ≡ region_start places.now }
    ensures end { result.end ≡ region_end places.now }
    ensures order { result.start ≤ result.end }
    ensures inside { result.end ≤ length places.now }
{
    let start = run_of(places);
    let end = start + run_length(&places[start..]);
    Region { start, end }
}

/// Where the suppressed places end: at the first digit of the region that isn't 0, or just after it.
pub fn cut_of(places: &[EditedPlace], digits: &[u8], region: Region) -> usize
    requires start { region.start ≡ region_start places.now }
    requires end { region.end ≡ region_end places.now }
    requires inside { region.end ≤ length places.now }
    requires digits { length digits.now ≡ count_by is_digit places.now }
    ensures { IsSuppressedTo places.now digits.now result }
{
    let mut next = 0;
    for at in 0..region.end {
        if places[at].is_digit() {
            if region.start <= at && digits[next] != 0 {
                return at;
            }
            next += 1;
        }
    }
    region.end
}

/// Whether the places tell the sign of a value.
pub fn shows_sign(places: &[EditedPlace]) -> bool
    ensures { result ≡ shows_sign places.now }
{
    if has_fixed_sign(places) {
        return true;
    }
    let start = run_of(places);
    start < places.len() && places[start].is_floating_sign()
}

/// Whether a sign stands in its place.
fn has_fixed_sign(places: &[EditedPlace]) -> bool
    ensures { result ≡ list_any is_fixed_sign places.now }
{
    places.iter().any(|place| place.is_fixed_sign())
}
