//! Whether an item loses nothing of what another one holds.

ghost use Rattle.std.specs.Prelude.{◌≡◌, ◌≤ℤ◌, IsTrue};
ghost use Rattle.std.specs.Bool.{Decides};
ghost use Rattle.cob_picture.specs.Counts.{digits_before, scale, signed};
ghost use Rattle.cob_back_moves.specs.Wider.{IsLongerText, IsWiderNumber, LosesNothing, is_left_text};

use cob_copybook_tree::Item;
use cob_move_receive::is_of_characters;
use cob_picture::Picture;

/// Whether the second picture has at least as many digits behind the point.
fn is_as_wide_behind(picture: &Picture, other: &Picture) -> bool
    ensures { Decides result (scale picture.now.positions ≤ℤ scale other.now.positions) }
{
    picture.scale() <= other.scale()
}

/// Whether the second picture has at least as many digits before the point.
fn is_as_wide_before(picture: &Picture, other: &Picture) -> bool
    ensures { Decides result (digits_before picture.now ≤ℤ digits_before other.now) }
{
    picture.digits_before() <= other.digits_before()
}

/// Whether the second picture has a sign where the first has one.
fn keeps_sign(picture: &Picture, other: &Picture) -> bool
    ensures { Decides result
        (IsTrue (signed picture.now.positions) → IsTrue (signed other.now.positions)) }
{
    !picture.signed() || other.signed()
}

/// Whether both items are numeric or numeric edited, and the second has at least as many digits on both sides of the point, and a sign where the
/// first has one.
fn is_wider_number(item: &Item, other: &Item) -> bool
    ensures { Decides result (IsWiderNumber item.now other.now) }
{
    item.picture.category().shows_number()
        && other.picture.category().shows_number()
        && is_as_wide_behind(&item.picture, &other.picture)
        && is_as_wide_before(&item.picture, &other.picture)
        && keeps_sign(&item.picture, &other.picture)
}

/// Whether an item is alphabetic or alphanumeric, and its characters stand from the left.
fn is_left_text(item: &Item) -> bool
    ensures { result ≡ is_left_text item.now }
{
    is_of_characters(item) && !item.justified
}

/// Whether both items are alphabetic or alphanumeric without JUSTIFIED, and the second isn't shorter.
fn is_longer_text(item: &Item, other: &Item) -> bool
    ensures { Decides result (IsLongerText item.now other.now) }
{
    is_left_text(item) && is_left_text(other) && item.size() <= other.size()
}

/// Whether the second item loses nothing of what the first one holds.
pub(crate) fn loses_nothing(item: &Item, other: &Item) -> bool
    ensures { Decides result (LosesNothing item.now other.now) }
{
    is_wider_number(item, other) || is_longer_text(item, other)
}
