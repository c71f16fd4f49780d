//! Texts of edited items, made ready.

ghost use Rattle.std.specs.Prelude.{◌≡◌, ◌+◌, ◌<◌, ◌≤◌, ℕ, true, slice_index, vec_len, IfOk};
ghost use Rattle.cob_picture.specs.Counts.{digits};
ghost use Rattle.cob_edit.specs.Rows.{ArePlacesOf};
ghost use Rattle.cob_codec_lanes.specs.Lanes.{is_pick};
ghost use Rattle.cob_move_steps.specs.Texts.{AreTextsFor, IsEditedItem, IsTextFor, IsTextOf, added_to, cell_in, shown_lane};

use cob_codec_lanes::{LaneText, NO_LANE, Picks};
use cob_copybook_tree::Item;
use cob_cp037::ZERO;
use cob_edit::{Places, TextCell, places_of, row_of};
use std::alloc::{AllocError, Global};

/// The lane of the digit that a byte shows, or none.
fn shown_lane(cell: TextCell) -> u8
    ensures lane { result ≡ shown_lane cell }
    ensures valid { is_pick result ≡ true }
{
    match cell {
        TextCell::Same(_) | TextCell::Signed { .. } => NO_LANE,
        TextCell::Taken(number) => { if number < 16 { number } else { NO_LANE } }
    }
}

/// What is added to that digit.
fn added_to(negative: bool, cell: TextCell) -> u8
    ensures value { result ≡ added_to negative cell }
    ensures small { result < 256 }
{
    match cell {
        TextCell::Same(byte) => byte,
        TextCell::Signed { plus, minus } => { if negative { minus } else { plus } }
        TextCell::Taken(_) => ZERO,
    }
}

/// The cell with this number of a row; behind the row stands the byte 0.
pub(crate) fn cell_in(row: &[TextCell], at: usize) -> TextCell
    ensures { result ≡ cell_in row.now at }
{
    if at < row.len() {
        row[at]
    } else {
        TextCell::Same(0)
    }
}

/// The lanes of the digits that sixteen bytes of a text show, from this one on.
fn picks_of(row: &[TextCell], start: usize) -> Picks
    requires { start ≤ 16 }
    ensures { (i : ℕ) → i < 16
        → slice_index result.lanes i ≡ shown_lane (cell_in row.now (start + i)) }
{
    let mut lanes = [NO_LANE; 16];
    for at in 0..16 {
        lanes[at] = shown_lane(cell_in(row, start + at));
    }
    Picks { lanes }
}

/// What is added to them in the text of a number that is negative or not.
pub(crate) fn added_in(negative: bool, row: &[TextCell], start: usize) -> [u8; 16]
    requires { start ≤ 32 }
    ensures each { (i : ℕ) → i < 16
        → slice_index result i ≡ added_to negative (cell_in row.now (start + i)) }
    ensures small { (i : ℕ) → i < 16 → added_to negative (cell_in row.now (start + i)) < 256 }
{
    let mut added = [0; 16];
    for at in 0..16 {
        added[at] = added_to(negative, cell_in(row, start + at));
    }
    added
}

/// What makes sixteen bytes of a text, from this one on.
pub(crate) fn text_of(row: &[TextCell], start: usize) -> LaneText
    requires { start ≤ 16 }
    ensures { IsTextOf row.now start result }
{
    LaneText {
        picks: picks_of(row, start),
        plus: added_in(false, row, start),
        minus: added_in(true, row, start),
    }
}

/// What makes the text of a number with so many zeros in front.
fn text_for(item: &Item, places: &Places, zeros: usize) -> LaneText
    requires item { IsEditedItem item.now }
    requires places { ArePlacesOf item.now.picture places.now.items }
    ensures { IsTextFor item.now zeros result }
{
    let row = row_of(&item.picture, places, item.blank, zeros);
    text_of(row.as_slice(), 0)
}

/// What makes the texts of numbers, by how many of their digits are zeros in front: none, one, and so on up to all.
pub(crate) fn texts_for(alloc: Global, item: &Item) -> Result<Vec<LaneText>, AllocError>
    requires { IsEditedItem item.now }
    ensures texts { IfOk result (λ texts. AreTextsFor item.now 0 texts.items) }
    ensures each { IfOk result (λ texts. vec_len texts ≡ digits item.now.picture.positions + 1) }
{
    let count = usize::from(item.picture.digits()) + 1;
    let places = places_of(&item.picture);
    let mut texts = Vec::new(alloc);
    for zeros in 0..count {
        texts.push(text_for(item, &places, zeros))?;
    }
    Ok(texts)
}
