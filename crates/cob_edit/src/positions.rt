//! The places of a picture.

ghost use Rattle.std.specs.Prelude.{◌≡◌, ◌+◌, ◌≤◌, ◌++◌, length, count_by, IsTrue};
ghost use Rattle.cob_limits.specs.Limits.{most_digits};
ghost use Rattle.cob_picture.specs.Counts.{size, digits};
ghost use Rattle.cob_picture.specs.Positions.{shows_number};
ghost use Rattle.cob_edit.specs.Places.{is_digit, bytes_of};
ghost use Rattle.cob_edit.specs.Pictured.{insertion_byte, mark_of, fill_of, fixed_places, position_places, places};

use crate::MAX_PLACES;
use crate::place::{EditedPlace, Fill, Mark};
use arrayvec::ArrayVec;
use cob_cp037::{COMMA, SLASH, SPACE, ZERO};
use cob_limits::MAX_DIGITS;
use cob_picture::{Picture, Position, PositionRole, Symbol};

/// The places of an item.
pub type Places = ArrayVec<EditedPlace, MAX_PLACES>;

/// The byte of an insertion.
pub fn insertion_byte(symbol: Symbol) -> u8
    ensures { result ≡ insertion_byte symbol }
{
    match symbol {
        Symbol::Zero => ZERO,
        Symbol::Slash => SLASH,
        Symbol::Comma => COMMA,
        _ => SPACE,
    }
}

/// The mark of a sign or a currency sign of one byte.
fn mark_of(symbol: Symbol) -> Mark
    ensures { result ≡ mark_of symbol }
{
    match symbol {
        Symbol::Plus => Mark::PlusOrMinus,
        Symbol::Minus => Mark::SpaceOrMinus,
        _ => Mark::Currency,
    }
}

/// What stands for a suppressed zero.
fn fill_of(symbol: Symbol) -> Fill
    ensures { result ≡ fill_of symbol }
{
    match symbol {
        Symbol::Star => Fill::Asterisk,
        _ => Fill::Space,
    }
}

/// Adds the places of a sign or a currency sign that doesn't float.
fn push_fixed(places: &mut Places, symbol: Symbol)
    requires room { length places.old.items + 2 ≤ MAX_PLACES }
    ensures { places.new.items ≡ places.old.items ++ fixed_places symbol }
{
    match symbol {
        Symbol::Credit => {
            places.push(EditedPlace::Fixed(Mark::CreditC));
            places.push(EditedPlace::Fixed(Mark::CreditR));
        }
        Symbol::Debit => {
            places.push(EditedPlace::Fixed(Mark::DebitD));
            places.push(EditedPlace::Fixed(Mark::DebitB));
        }
        _ => places.push(EditedPlace::Fixed(mark_of(symbol))),
    }
}

/// Adds the places of a position.
fn push_places(places: &mut Places, role: PositionRole, symbol: Symbol)
    requires room { length places.old.items + 2 ≤ MAX_PLACES }
    ensures { places.new.items ≡ places.old.items ++ position_places role symbol }
{
    match role {
        PositionRole::Character => places.push(EditedPlace::Inserted(SPACE)),
        PositionRole::Insertion => places.push(EditedPlace::Inserted(insertion_byte(symbol))),
        PositionRole::DecimalPoint => places.push(EditedPlace::Point),
        PositionRole::Digit => places.push(EditedPlace::Digit),
        PositionRole::Suppressed => places.push(EditedPlace::Suppressed(fill_of(symbol))),
        PositionRole::Floating => places.push(EditedPlace::Floating),
        PositionRole::FirstFloating => places.push(EditedPlace::First(mark_of(symbol))),
        PositionRole::FixedSign | PositionRole::FixedCurrency => push_fixed(places, symbol),
        PositionRole::NoByte => {
            if matches!(symbol, Symbol::V) {
                places.push(EditedPlace::AssumedPoint);
            }
        }
    }
}

/// The places of positions.
fn places_in(positions: &[Position]) -> Places
    requires few { length (places positions.now) + 2 ≤ MAX_PLACES }
    ensures { result.items ≡ places positions.now }
{
    let mut places = Places::new();
    for position in positions {
        push_places(&mut places, position.role, position.symbol);
    }
    places
}

/// The places of a picture of a number.
pub fn places_of(picture: &Picture) -> Places
    requires shows { IsTrue (shows_number picture.now.category) }
    ensures value { result.items ≡ places picture.now.positions }
    ensures bytes { bytes_of result.items ≡ size picture.now.positions }
    ensures digits { count_by is_digit result.items ≡ digits picture.now.positions }
    ensures few { count_by is_digit result.items ≤ most_digits }
    ensures most { bytes_of result.items ≤ MAX_PLACES }
{
    places_in(picture.positions().as_slice())
}
