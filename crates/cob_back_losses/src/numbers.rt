//! The numbers that items may give.

ghost use Rattle.std.specs.Prelude.{◌≡◌, ◌≤ℤ◌, ◌-ℤ◌, pos, negsuc};
ghost use Rattle.std.specs.Bool.{Decides};
ghost use Rattle.cob_picture.specs.Counts.{digits, scale};
ghost use Rattle.cob_back_losses.specs.Given.{GivesDigit, GivesMinus, IsOfExtent, extent_of, picture_extent};
ghost use Rattle.cob_back_losses.specs.Losses.{IsBelowLast, IsBeyondFirst, last_power};

use cob_copybook_tree::Item;
use cob_picture::{Category, Picture};

/// The numbers that an item may give: of so many digits, so many of them behind the point, and with a minus or without.
#[derive(Clone, Copy, PartialEq, Eq)]
pub struct NumberExtent {
    pub digits: u16,
    pub scale: i8,
    pub signed: bool,
}

/// The numbers of a picture that shows one.
fn extent_of_picture(picture: &Picture) -> NumberExtent
    ensures { result ≡ picture_extent picture.now }
{
    NumberExtent {
        digits: u16::from(picture.digits()),
        scale: picture.scale(),
        signed: picture.signed(),
    }
}

/// The numbers that an item may give.
pub(crate) fn extent_of(item: &Item) -> Option<NumberExtent>
    ensures { result ≡ extent_of item.now }
{
    match item.picture.category() {
        Category::Numeric | Category::NumericEdited => Some(extent_of_picture(&item.picture)),
        Category::Alphanumeric => Some(NumberExtent {
            digits: item.size(),
            scale: 0,
            signed: false,
        }),
        Category::Alphabetic | Category::AlphanumericEdited => None,
    }
}

/// The first power of ten that is greater than those of a picture's digits.
pub(crate) fn power_beyond(picture: &Picture) -> i32
    ensures value { result ≡ (pos (digits picture.now.positions) -ℤ scale picture.now.positions) }
    ensures least { negsuc 99 ≤ℤ result }
    ensures most { result ≤ℤ pos 99 }
{
    i32::from(picture.digits()) - i32::from(picture.scale())
}

/// The least power of ten of a picture's digits.
pub(crate) fn last_power(picture: &Picture) -> i32
    ensures value { result ≡ last_power picture.now }
    ensures least { negsuc 99 ≤ℤ result }
    ensures most { result ≤ℤ pos 99 }
{
    -i32::from(picture.scale())
}

/// Whether some number that an item may give has a digit other than 0 before those of a picture.
pub(crate) fn extends_before(extent: NumberExtent, picture: &Picture) -> bool
    ensures { Decides result (GivesDigit (IsOfExtent extent) (IsBeyondFirst picture.now)) }
{
    let beyond = power_beyond(picture);
    if extent.digits == 0 {
        return false;
    }
    if i32::from(extent.digits) - i32::from(extent.scale) <= beyond {
        return false;
    }
    true
}

/// Whether some number that an item may give has a digit other than 0 behind those of a picture.
pub(crate) fn extends_behind(extent: NumberExtent, picture: &Picture) -> bool
    ensures { Decides result (GivesDigit (IsOfExtent extent) (IsBelowLast picture.now)) }
{
    let last = last_power(picture);
    if extent.digits == 0 {
        return false;
    }
    if -i32::from(extent.scale) >= last {
        return false;
    }
    true
}

/// Whether some number that an item may give is below zero.
#[tactic(auto, using(crate::proofs::DigitLemmas::below_zero))]
pub(crate) fn extends_below_zero(extent: NumberExtent) -> bool
    ensures { Decides result (GivesMinus (IsOfExtent extent)) }
{
    extent.signed
}
