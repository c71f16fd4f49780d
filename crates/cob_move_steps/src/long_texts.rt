//! Texts of edited items of any number of digits, made ready and written.

ghost use Rattle.std.specs.Prelude.{◌≡◌, ◌↔◌, ◌==◌, ◌+◌, ◌-◌, ◌<◌, ◌≤◌, ℕ, true, length, slice_index, vec_len, IfOk, IfSome, IsSome, IsTrue};
ghost use Rattle.std.specs.List.{prefix_len};
ghost use Rattle.cob_edit.specs.Rows.{ArePlacesOf};
ghost use Rattle.cob_codec_lanes.specs.Lanes.{is_pick};
ghost use Rattle.cob_move_steps.specs.Ends.{item_digits};
ghost use Rattle.cob_move_steps.specs.LongDigits.{long_digits};
ghost use Rattle.cob_move_steps.specs.LongReads.{ArePaddedBehind, IsPaddedBehind};
ghost use Rattle.cob_move_steps.specs.LongTexts.{AreLongTextsFor, IsLongEditedItem, IsLongTextFor, IsLongTextOf, IsLongTextWriterFor, IsLongTextWritten, IsPairTextOf, back_lane, front_lane};
ghost use Rattle.cob_move_steps.specs.Texts.{cell_in};

use crate::edit_preparing::is_edited;
use crate::edit_running::zeros_in_front;
use crate::long_text_writer::LongTextWriter;
use crate::texts::{added_in, cell_in};
use cob_codec_lanes::{LongText, NO_LANE, PairText, Picks, zeros_before};
use cob_copybook_tree::Item;
use cob_edit::{Places, TextCell, places_of, row_of};
use std::alloc::{AllocError, Global};
use std::simd::prelude::*;

/// Whether an item is edited, and three vectors of lanes hold its texts.
pub(crate) fn is_long_edited_item(item: &Item) -> bool
    ensures { IsTrue result ↔ IsLongEditedItem item.now }
{
    is_edited(item) && item.picture.digits() <= 31 && item.size() <= 48
}

/// How many of so many digits stand in front of the last sixteen.
#[inline(always)]
pub(crate) fn front_count(count: u8) -> u8
    ensures { result ≡ count - 16 }
{
    if count < 16 { 0 } else { count - 16 }
}

/// The lane of the digit that a byte shows, of so many, among those in front of the last sixteen, or none.
fn front_lane(count: u8, cell: TextCell) -> u8
    requires { count ≤ 31 }
    ensures lane { result ≡ front_lane count cell }
    ensures valid { is_pick result ≡ true }
{
    match cell {
        TextCell::Same(_) | TextCell::Signed { .. } => NO_LANE,
        TextCell::Taken(number) => {
            if number < front_count(count) {
                number
            } else {
                NO_LANE
            }
        }
    }
}

/// Its lane among the last sixteen, or none.
fn back_lane(count: u8, cell: TextCell) -> u8
    requires { count ≤ 31 }
    ensures lane { result ≡ back_lane count cell }
    ensures valid { is_pick result ≡ true }
{
    let front = front_count(count);
    match cell {
        TextCell::Same(_) | TextCell::Signed { .. } => NO_LANE,
        TextCell::Taken(number) => {
            if front <= number && number < count {
                number - front
            } else {
                NO_LANE
            }
        }
    }
}

/// The lanes in front of the digits that sixteen bytes of a text show, from this one on.
fn front_picks(count: u8, row: &[TextCell], start: usize) -> Picks
    requires count { count ≤ 31 }
    requires start { start ≤ 32 }
    ensures { (i : ℕ) → i < 16
        → slice_index result.lanes i ≡ front_lane count (cell_in row.now (start + i)) }
{
    let mut lanes = [NO_LANE; 16];
    for at in 0..16 {
        lanes[at] = front_lane(count, cell_in(row, start + at));
    }
    Picks { lanes }
}

/// The lanes behind.
fn back_picks(count: u8, row: &[TextCell], start: usize) -> Picks
    requires count { count ≤ 31 }
    requires start { start ≤ 32 }
    ensures { (i : ℕ) → i < 16
        → slice_index result.lanes i ≡ back_lane count (cell_in row.now (start + i)) }
{
    let mut lanes = [NO_LANE; 16];
    for at in 0..16 {
        lanes[at] = back_lane(count, cell_in(row, start + at));
    }
    Picks { lanes }
}

/// What makes sixteen bytes of a text of so many digits, from this one on.
fn pair_text_of(count: u8, row: &[TextCell], start: usize) -> PairText
    requires count { count ≤ 31 }
    requires start { start ≤ 32 }
    ensures { IsPairTextOf count row.now start result }
{
    PairText {
        front: front_picks(count, row, start),
        back: back_picks(count, row, start),
        plus: added_in(false, row, start),
        minus: added_in(true, row, start),
    }
}

/// What makes a text whose bytes are these.
pub(crate) fn long_text_of(count: u8, row: &[TextCell]) -> LongText
    requires { count ≤ 31 }
    ensures { IsLongTextOf count row.now result }
{
    LongText {
        first: pair_text_of(count, row, 0),
        second: pair_text_of(count, row, 16),
        third: pair_text_of(count, row, 32),
    }
}

/// What makes the text of a number with so many zeros in front.
fn long_text_for(item: &Item, places: &Places, zeros: usize) -> LongText
    requires item { IsLongEditedItem item.now }
    requires places { ArePlacesOf item.now.picture places.now.items }
    ensures text { IsLongTextFor item.now zeros result }
    ensures padded { IsPaddedBehind item.now result }
{
    let row = row_of(&item.picture, places, item.blank, zeros);
    long_text_of(item.picture.digits(), row.as_slice())
}

/// What makes the texts of numbers, by how many of their digits are zeros in front: none, one, and so on up to all.
pub(crate) fn long_texts_for(alloc: Global, item: &Item) -> Result<Vec<LongText>, AllocError>
    requires { IsLongEditedItem item.now }
    ensures texts { IfOk result (λ texts. AreLongTextsFor item.now 0 texts.items) }
    ensures padded { IfOk result (λ texts. ArePaddedBehind item.now texts.items) }
    ensures each { IfOk result (λ texts. vec_len texts ≡ item_digits item.now + 1) }
{
    let count = usize::from(item.picture.digits()) + 1;
    let places = places_of(&item.picture);
    let mut texts = Vec::new(alloc);
    for zeros in 0..count {
        texts.push(long_text_for(item, &places, zeros))?;
    }
    Ok(texts)
}

/// What writes the texts of a receiver, if it is edited, and three vectors of lanes hold them.
///
/// # Errors
///
/// There is not enough memory.
pub(crate) fn long_text_writer(
    alloc: Global,
    receiver: &Item,
) -> Result<Option<LongTextWriter>, AllocError>
    ensures writer { IfOk result (λ writer. IfSome writer (IsLongTextWriterFor receiver.now)) }
    ensures must { IsLongEditedItem receiver.now → IfOk result IsSome }
{
    if !is_long_edited_item(receiver) {
        return Ok(None);
    }
    let texts = long_texts_for(alloc, receiver)?;
    let digits = receiver.picture.digits();
    Ok(Some(LongTextWriter { digits, texts }))
}

/// How many of so many digits of two vectors are zeros in front.
#[inline(always)]
pub(crate) fn zeros_of_both(front: u8x16, back: u8x16, count: u8) -> usize
    requires { count ≤ 31 }
    ensures value { result ≡ prefix_len (λ d. d == 0) (long_digits count front back) }
    ensures within { result ≤ count }
{
    let front_digits = front_count(count);
    let leading = usize::from(front_digits);
    let zeros = zeros_before(front);
    if zeros < leading {
        zeros
    } else {
        leading + zeros_in_front(back, count - front_digits)
    }
}

impl LongTextWriter {
    /// Writes the text of a number, its digits in front of the last sixteen and these, into all bytes of an item, where they are at most
    /// forty-eight.
    #[inline(always)]
    pub(crate) fn write(&self, front: u8x16, back: u8x16, minus: bool, to: &mut [u8])
        ensures { IsLongTextWritten self.now front back minus (length to.old) to.new }
    {
        if to.len() <= 48 {
            let zeros = zeros_of_both(front, back, self.digits);
            self.texts[zeros].write(front, back, minus, to);
        }
    }
}
