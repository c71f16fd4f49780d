ghost use Rattle.cob_layout.specs.Kept.{KeptAfter, KeptGiveNeeded, ReadOnce, WritesKeep};
ghost use Rattle.cob_layout.specs.Laws.{AllGiveNeeded, BeginWithArea, EndInLength, FitsRef, LieInStorage, OneOfAll, OneOfNeeded, OnePlaceByAll, OnePlaceByNeeds};

use crate::sound::records_are_sound;
use cob_layout_places::{needs_are_read, one_outcome, one_place, same_counts};

/// A legal reference has at most as many subscripts as a `Ref` has room for.
pub fn fits_ref()
    ensures { FitsRef }
{
    records_are_sound();
}

/// An element that is there ends within the record's length under the same counts.
pub fn places_end_in_length()
    ensures { EndInLength }
{
    records_are_sound();
}

/// A redefining entry begins where the entry that began the area begins.
pub fn redefinitions_begin_with_area()
    ensures { BeginWithArea }
{
    records_are_sound();
}

/// The bytes of a storage say one thing of its counts: of all, and of those that a reference needs.
pub fn one_outcome_of_counts()
    ensures all { OneOfAll }
    ensures needed { OneOfNeeded }
{
    one_outcome();
}

/// Where all counts of a storage are valid, those that a reference needs are, and they give it its place under all counts.
pub fn all_give_needed()
    ensures { AllGiveNeeded }
{
    records_are_sound();
    needs_are_read();
    one_place();
}

/// Storages that agree on the counts that a reference reads give it one place: whether only these are taken of both, or all of one.
pub fn one_place_by_needs()
    ensures needed { OnePlaceByNeeds }
    ensures all { OnePlaceByAll }
{
    all_give_needed();
    one_outcome_of_counts();
    same_counts();
}

/// A place that a sender finds in a record's bytes, under the counts that it needs there, lies within these bytes: all of the record's storage,
/// or its current part.
pub fn places_lie_in_storage()
    ensures { LieInStorage }
{
    places_end_in_length();
    all_give_needed();
    one_outcome_of_counts();
}

/// Counts of a storage that are kept and those that are read anew are what a reference needs, and each is read once at most until the bytes of its item
/// or of an item before it change.
pub fn kept_give_needed()
    ensures needed { KeptGiveNeeded }
    ensures kept { KeptAfter }
    ensures once { ReadOnce }
    ensures writes { WritesKeep }
{
    one_place();
}
