//! Steps to edited items of at most thirty-two bytes, made ready.

ghost use Rattle.std.specs.Prelude.{◌≡◌, ◌↔◌, IfOk, IfSome, IsSome, IsTrue};
ghost use Rattle.cob_move_steps.specs.Ends.{IsShortSender};
ghost use Rattle.cob_move_steps.specs.Edits.{IsTextWriterFor, IsWideEditStep};
ghost use Rattle.cob_move_steps.specs.Texts.{IsWideEditedItem};

use crate::edit_preparing::is_edited;
use crate::ends_preparing::number_reader;
use crate::text_writer::TextWriter;
use crate::wide_edit_step::WideEditStep;
use crate::wide_texts::wide_texts_for;
use cob_copybook_tree::Item;
use std::alloc::{AllocError, Global};

/// Whether an item is edited, and two vectors of lanes hold its texts.
pub(crate) fn is_wide_edited_item(item: &Item) -> bool
    ensures { IsTrue result ↔ IsWideEditedItem item.now }
{
    is_edited(item) && item.picture.digits() <= 16 && item.size() <= 32
}

/// What writes the texts of a receiver, if it is edited, and two vectors of lanes hold them.
///
/// # Errors
///
/// There is not enough memory.
pub(crate) fn text_writer(alloc: Global, receiver: &Item) -> Result<Option<TextWriter>, AllocError>
    ensures writer { IfOk result (λ writer. IfSome writer (IsTextWriterFor receiver.now)) }
    ensures must { IsWideEditedItem receiver.now → IfOk result IsSome }
{
    if !is_wide_edited_item(receiver) {
        return Ok(None);
    }
    let texts = wide_texts_for(alloc, receiver)?;
    let digits = receiver.picture.digits();
    Ok(Some(TextWriter { digits, texts }))
}

impl WideEditStep {
    /// The step of the move of one item to another. There is one where the receiver edits numbers in at most sixteen digits and thirty-two
    /// bytes, and the sender is one that [`EditStep::prepare`] takes.
    ///
    /// [`EditStep::prepare`]: crate::EditStep::prepare
    ///
    /// # Errors
    ///
    /// There is not enough memory.
    pub fn prepare(
        alloc: Global,
        sender: &Item,
        receiver: &Item,
    ) -> Result<Option<WideEditStep>, AllocError>
        ensures step { IfOk result (λ step. IfSome step (IsWideEditStep sender.now receiver.now)) }
        ensures must { IsShortSender sender.now → IsWideEditedItem receiver.now
            → IfOk result IsSome }
    {
        let Some(writer) = text_writer(alloc, receiver)? else {
            return Ok(None);
        };
        match number_reader(sender, receiver) {
            Some(reader) => Ok(Some(WideEditStep { reader, writer })),
            None => Ok(None),
        }
    }
}
