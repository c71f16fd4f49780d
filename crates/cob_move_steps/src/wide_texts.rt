//! Texts of edited items of at most thirty-two bytes, made ready.

ghost use Rattle.std.specs.Prelude.{◌≡◌, ◌+◌, vec_len, IfOk};
ghost use Rattle.cob_picture.specs.Counts.{digits};
ghost use Rattle.cob_edit.specs.Rows.{ArePlacesOf};
ghost use Rattle.cob_move_steps.specs.Texts.{AreWideTextsFor, IsWideEditedItem, IsWideTextFor, IsWideTextOf};

use crate::texts::text_of;
use cob_codec_lanes::WideText;
use cob_copybook_tree::Item;
use cob_edit::{Places, TextCell, places_of, row_of};
use std::alloc::{AllocError, Global};

/// What makes a text whose bytes are these, and zeros behind it.
fn wide_text_of(row: &[TextCell]) -> WideText
    ensures { IsWideTextOf row.now result }
{
    WideText {
        front: text_of(row, 0),
        back: text_of(row, 16),
    }
}

/// What makes the text of a number with so many zeros in front.
fn wide_text_for(item: &Item, places: &Places, zeros: usize) -> WideText
    requires item { IsWideEditedItem item.now }
    requires places { ArePlacesOf item.now.picture places.now.items }
    ensures { IsWideTextFor item.now zeros result }
{
    let row = row_of(&item.picture, places, item.blank, zeros);
    wide_text_of(row.as_slice())
}

/// What makes the texts of numbers, by how many of their digits are zeros in front: none, one, and so on up to all.
pub(crate) fn wide_texts_for(alloc: Global, item: &Item) -> Result<Vec<WideText>, AllocError>
    requires { IsWideEditedItem item.now }
    ensures texts { IfOk result (λ texts. AreWideTextsFor item.now 0 texts.items) }
    ensures each { IfOk result (λ texts. vec_len texts ≡ digits item.now.picture.positions + 1) }
{
    let count = usize::from(item.picture.digits()) + 1;
    let places = places_of(&item.picture);
    let mut texts = Vec::new(alloc);
    for zeros in 0..count {
        texts.push(wide_text_for(item, &places, zeros))?;
    }
    Ok(texts)
}
