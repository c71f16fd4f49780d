//! Steps to edited items, made ready.

ghost use Rattle.std.specs.Prelude.{◌≡◌, ◌↔◌, IfOk, IfSome, IsSome, IsTrue};
ghost use Rattle.cob_picture.specs.Positions.{shows_number};
ghost use Rattle.cob_move_steps.specs.Ends.{IsShortSender};
ghost use Rattle.cob_move_steps.specs.Edits.{IsEditStep};
ghost use Rattle.cob_move_steps.specs.Texts.{IsEditedItem, IsPlainlyEdited};

use crate::edit_step::EditStep;
use crate::ends_preparing::number_reader;
use crate::storage::fits_lanes;
use crate::texts::texts_for;
use cob_copybook_tree::{Item, is_number};
use std::alloc::{AllocError, Global};

/// Whether an item shows a number: it has digits.
fn shows_digits(item: &Item) -> bool
    ensures { result ≡ shows_number item.now.picture.category }
{
    item.picture.digits() > 0
}

/// Whether an item is edited, and has a byte for each place of its picture that has one.
pub(crate) fn is_edited(item: &Item) -> bool
    ensures { IsTrue result ↔ IsPlainlyEdited item.now }
{
    shows_digits(item) && !is_number(item) && item.size() == item.picture.size()
}

/// Whether an item is edited, and lanes hold its texts.
fn is_edited_item(item: &Item) -> bool
    ensures { IsTrue result ↔ IsEditedItem item.now }
{
    is_edited(item) && fits_lanes(item)
}

impl EditStep {
    /// The step of the move of one item to another. There is one where the receiver edits numbers in at most sixteen digits and bytes, and the
    /// sender is a number of at most sixteen digits, and of at most sixteen bytes if it isn't binary, or holds at most sixteen characters.
    ///
    /// # Errors
    ///
    /// There is not enough memory.
    pub fn prepare(
        alloc: Global,
        sender: &Item,
        receiver: &Item,
    ) -> Result<Option<EditStep>, AllocError>
        ensures step { IfOk result (λ step. IfSome step (IsEditStep sender.now receiver.now)) }
        ensures must { IsShortSender sender.now → IsEditedItem receiver.now → IfOk result IsSome }
    {
        if !is_edited_item(receiver) {
            return Ok(None);
        }
        let Some(reader) = number_reader(sender, receiver) else {
            return Ok(None);
        };
        let texts = texts_for(alloc, receiver)?;
        let digits = receiver.picture.digits();
        Ok(Some(EditStep {
            reader,
            digits,
            texts,
        }))
    }
}
