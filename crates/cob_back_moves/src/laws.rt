//! Laws of moves there and back.

ghost use Rattle.cob_back_moves.specs.Apart.{OccurrencesApart};
ghost use Rattle.cob_back_moves.specs.Laws.{ItemsAreSound, ItemsFill, ItemsReturn, ReturnsKeep};

use cob_copybook_tree::{items_hold_numbers, stored_numbers_read_back};
use cob_decimal::laws::{below_power_of_ten, wider_keeps_magnitude};
use cob_edit::signs_are_shown;
use cob_layout::{one_outcome_of_counts, places_end_in_length, records_are_sound};
use cob_move_receive::one_received;

/// Each item of a record can be stored, a number has a digit, and an edited one shows a sign where it is signed.
pub fn items_are_sound()
    ensures { ItemsAreSound }
{
    signs_are_shown();
    records_are_sound();
}

/// What an item receives has its size.
pub fn items_fill()
    ensures { ItemsFill }
{}

/// What an item holds, moved to one that loses nothing of it, comes back as it was.
pub fn items_return()
    ensures { ItemsReturn }
{
    stored_numbers_read_back();
    items_hold_numbers();
    wider_keeps_magnitude();
    below_power_of_ten();
}

/// In a record without redefinitions, two occurrences of items that aren't one stand apart.
pub fn occurrences_apart()
    ensures { OccurrencesApart }
{
    records_are_sound();
}

/// Moves back bring back what moves there took of a record: they don't stop, and each named item holds again what it held.
pub fn returns_keep()
    ensures { ReturnsKeep }
{
    one_outcome_of_counts();
    places_end_in_length();
    records_are_sound();
    occurrences_apart();
    items_return();
    items_fill();
    items_are_sound();
    one_received();
}
