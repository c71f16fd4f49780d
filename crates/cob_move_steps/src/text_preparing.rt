//! Steps of numbers of edited items, made ready.

ghost use Rattle.std.specs.Prelude.{◌≤◌, count_by, IfOk, IfSome, IsSome};
ghost use Rattle.cob_edit.specs.Pictured.{places};
ghost use Rattle.cob_edit.specs.Places.{bytes_of, is_digit};
ghost use Rattle.cob_codec_lanes.specs.Texts.{ArePlacesAt};
ghost use Rattle.cob_picture.specs.Counts.{digits};
ghost use Rattle.cob_move_steps.specs.Deedits.{IsKeeperFor, IsReceiverWriterFor, IsTextReaderFor, IsTextStep, ReceivesNumber};
ghost use Rattle.cob_move_steps.specs.Texts.{digit_bytes_from, IsWideEditedItem};

use crate::ends_preparing::number_writer;
use crate::number_ends::ReceiverWriter;
use crate::preparing::wanted_of;
use crate::text_reader::TextReader;
use crate::text_step::TextStep;
use crate::wide_edit_preparing::{is_wide_edited_item, text_writer};
use crate::wide_texts::wide_texts_for;
use cob_codec_lanes::{DigitPlaces, KeptDigits};
use cob_copybook_tree::Item;
use cob_edit::{EditedPlace, places_of};
use std::alloc::{AllocError, Global};

/// Where the digits of these places stand in a text.
fn digits_of(places: &[EditedPlace]) -> DigitPlaces
    requires few { count_by is_digit places.now ≤ 16 }
    requires fits { bytes_of places.now ≤ 32 }
    ensures { ArePlacesAt (digit_bytes_from 0 places.now) result }
{
    let mut bytes = [0u8; 16];
    let mut count = 0;
    let mut byte = 0u8;
    for place in places {
        if place.is_digit() {
            bytes[count] = byte;
            count += 1;
        }
        if place.has_byte() {
            byte += 1;
        }
    }
    DigitPlaces::at(&bytes[..count])
}

/// Where the digits of an item stand in its text.
fn digit_places(item: &Item) -> DigitPlaces
    requires { IsWideEditedItem item.now }
    ensures { ArePlacesAt (digit_bytes_from 0 (places item.now.picture.positions)) result }
{
    let places = places_of(&item.picture);
    digits_of(places.as_slice())
}

/// Which digits of a sender are kept: those that a receiver has places for.
fn kept_digits(sender: &Item, receiver: &Item) -> KeptDigits
    requires sender { digits sender.now.picture.positions ≤ 16 }
    requires receiver { digits receiver.now.picture.positions ≤ 16 }
    ensures { IsKeeperFor sender.now receiver.now result }
{
    KeptDigits::of(sender.picture.digits(), wanted_of(sender, receiver))
}

/// What reads the number of an edited sender, and keeps the digits that a receiver has places for.
fn text_reader(
    alloc: Global,
    sender: &Item,
    receiver: &Item,
) -> Result<Option<TextReader>, AllocError>
    requires { digits receiver.now.picture.positions ≤ 16 }
    ensures reader { IfOk result (λ reader. IfSome reader
        (IsTextReaderFor sender.now receiver.now)) }
    ensures must { IsWideEditedItem sender.now → IfOk result IsSome }
{
    if !is_wide_edited_item(sender) {
        return Ok(None);
    }
    let texts = wide_texts_for(alloc, sender)?;
    Ok(Some(TextReader {
        size: usize::from(sender.size()),
        digits: sender.picture.digits(),
        places: digit_places(sender),
        kept: kept_digits(sender, receiver),
        texts,
    }))
}

/// What writes the number that a receiver gets of an edited sender.
///
/// # Errors
///
/// There is not enough memory.
fn receiver_writer(alloc: Global, receiver: &Item) -> Result<Option<ReceiverWriter>, AllocError>
    ensures writer { IfOk result (λ writer. IfSome writer (IsReceiverWriterFor receiver.now)) }
    ensures must { ReceivesNumber receiver.now → IfOk result IsSome }
{
    if let Some(writer) = number_writer(receiver) {
        return Ok(Some(ReceiverWriter::Number(writer)));
    }
    match text_writer(alloc, receiver)? {
        Some(writer) => Ok(Some(ReceiverWriter::Text(writer))),
        None => Ok(None),
    }
}

impl TextStep {
    /// The step of the move of one item to another. There is one where the sender is edited, of at most sixteen digits and thirty-two bytes, and
    /// the receiver is a number of at most sixteen digits, and of at most sixteen bytes if it isn't binary, or is such an edited item too.
    ///
    /// # Errors
    ///
    /// There is not enough memory.
    pub fn prepare(
        alloc: Global,
        sender: &Item,
        receiver: &Item,
    ) -> Result<Option<TextStep>, AllocError>
        ensures step { IfOk result (λ step. IfSome step (IsTextStep sender.now receiver.now)) }
        ensures must { IsWideEditedItem sender.now → ReceivesNumber receiver.now
            → IfOk result IsSome }
    {
        let Some(writer) = receiver_writer(alloc, receiver)? else {
            return Ok(None);
        };
        match text_reader(alloc, sender, receiver)? {
            Some(reader) => Ok(Some(TextStep { reader, writer })),
            None => Ok(None),
        }
    }
}
