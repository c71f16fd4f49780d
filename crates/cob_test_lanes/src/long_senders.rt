//! Moves of edited items by steps of numbers of any number of digits, and of numbers to characters.

ghost use Rattle.std.specs.Prelude.{◌<◌, ◌≤◌};

use crate::characters::{LONGEST, characters_item};
use crate::draws::Draws;
use crate::edited::{EditedKind, edited_kinds, item_of, long_kinds, longest_kinds};
use crate::kinds::{ItemKind, all_kinds, kinds};
use crate::moves::{UNWRITTEN, tally_long_move};
use crate::near::{NEAR, put};
use crate::numbers::{TRIES, drawn_item, item_at};
use crate::senders::drawn_record;
use crate::tally::Tally;
use crate::texts::{drawn_text, text_of};
use cob_copybook_tree::Item;
use cob_move_steps::LongStep;
use std::alloc::{AllocError, Global};

/// Tries a move of an edited item.
fn try_move(
    alloc: Global,
    sender: &Item,
    receiver: &Item,
    draws: &mut Draws,
    tally: &mut Tally,
) -> Result<(), AllocError> {
    let record = drawn_text(alloc, sender, draws)?;
    tally_long_move(alloc, sender, receiver, record.as_slice(), tally)
}

/// Tries a move of it to a number of a kind, of so many digits.
fn try_to_number(
    alloc: Global,
    sender: &Item,
    to: &ItemKind,
    received: u32,
    draws: &mut Draws,
    tally: &mut Tally,
) -> Result<(), AllocError>
    requires some { 0 < received }
    requires most { received ≤ 31 }
{
    match drawn_item(alloc, to, received, draws)? {
        Some(receiver) => try_move(alloc, sender, &receiver, draws, tally),
        None => {
            tally.count_none();
            Ok(())
        }
    }
}

/// Tries the moves of edited items of a kind to numbers of all kinds, of about half of the lengths.
pub fn try_long_to_numbers(
    alloc: Global,
    from: &EditedKind,
    draws: &mut Draws,
) -> Result<Tally, AllocError> {
    let mut tally = Tally::new();
    if let Some(sender) = item_of(from) {
        for to in &all_kinds() {
            for received in 1..to.most_long_digits() + 1 {
                if draws.below(2) == 0 {
                    try_to_number(alloc, &sender, to, received, draws, &mut tally)?;
                }
            }
        }
    }
    Ok(tally)
}

/// Tries the moves of an item to edited items of some kinds.
fn try_to_edited(
    alloc: Global,
    sender: &Item,
    kinds: &[EditedKind],
    draws: &mut Draws,
    tally: &mut Tally,
) -> Result<(), AllocError> {
    for to in kinds {
        if let Some(receiver) = item_of(to) {
            try_move(alloc, sender, &receiver, draws, tally)?;
        }
    }
    Ok(())
}

/// Tries the moves of edited items of a kind to edited items of all kinds.
pub fn try_long_to_edited(
    alloc: Global,
    from: &EditedKind,
    draws: &mut Draws,
) -> Result<Tally, AllocError> {
    let mut tally = Tally::new();
    if let Some(sender) = item_of(from) {
        try_to_edited(alloc, &sender, &edited_kinds(), draws, &mut tally)?;
        try_to_edited(alloc, &sender, &long_kinds(), draws, &mut tally)?;
        try_to_edited(alloc, &sender, &longest_kinds(), draws, &mut tally)?;
    }
    Ok(tally)
}

/// A step to a zoned item of so many digits.
#[derive(Drop)]
struct NearStep {
    step: LongStep,
    digits: usize,
    ghost most: { digits ≤ 31 },
}

/// The most digits of an item at a scale.
fn digits_at(scale: i32) -> u32
    ensures { result ≤ 31 }
{
    if scale < 0 {
        31u32.saturating_sub(scale.unsigned_abs())
    } else {
        31
    }
}

/// Moves a text in which one byte is each of those of symbols, and counts what came of it.
fn tally_place(near: &NearStep, record: &mut [u8], place: usize, tally: &mut Tally) {
    for byte in NEAR {
        put(record, place, byte);
        let mut bytes = [UNWRITTEN; 31];
        let moved = near.step.run(record, &mut bytes[..near.digits]);
        tally.count(moved, &bytes[..near.digits]);
    }
}

/// Moves the text of so many bytes that ends a record, with each byte another in turn.
fn tally_near(near: &NearStep, record: &mut [u8], size: usize, tally: &mut Tally) {
    let first = record.len().saturating_sub(size);
    for number in 0..size {
        let place = first.saturating_add(number);
        if place < record.len() {
            let kept = record[place];
            tally_place(near, record, place, tally);
            put(record, place, kept);
        }
    }
}

/// Tries such moves by a step: of the texts of zero, of the least and of the greatest number, and of drawn ones.
fn try_step(
    alloc: Global,
    sender: &Item,
    near: &NearStep,
    draws: &mut Draws,
    tally: &mut Tally,
) -> Result<(), AllocError> {
    let size = usize::from(sender.size());
    let minus = sender.picture.signed();
    for digits in [&[0u8; 31][..1], &[1u8; 31][..1], &[9u8; 31][..31]] {
        let mut text = text_of(alloc, sender, minus, digits)?;
        tally_near(near, text.as_mut_slice(), size, tally);
    }
    for _ in 0..TRIES {
        let mut record = drawn_text(alloc, sender, draws)?;
        tally_near(near, record.as_mut_slice(), size, tally);
    }
    Ok(())
}

/// Tries such moves of edited items of a kind to an item that has places for all digits.
pub fn try_long_near(
    alloc: Global,
    from: &EditedKind,
    draws: &mut Draws,
) -> Result<Tally, AllocError> {
    let mut tally = Tally::new();
    let [_, zoned, _, _, _, _, _] = kinds();
    if let Some(sender) = item_of(from) {
        let scale = i32::from(sender.picture.scale());
        let digits = digits_at(scale);
        if let Some(receiver) = item_at(alloc, &zoned, digits, scale)? {
            if let Some(step) = LongStep::prepare(alloc, &sender, &receiver)? {
                let near = NearStep {
                    step,
                    digits: digits as usize,
                };
                try_step(alloc, &sender, &near, draws, &mut tally)?;
            }
        }
    }
    Ok(tally)
}

/// Tries a move of an item of so many digits to one of so many characters.
fn try_shown(
    alloc: Global,
    from: &ItemKind,
    justified: bool,
    sent: u32,
    received: u32,
    draws: &mut Draws,
    tally: &mut Tally,
) -> Result<(), AllocError>
    requires some { 0 < sent }
    requires most { sent ≤ 31 }
{
    let sender = drawn_item(alloc, from, sent, draws)?;
    let record = drawn_record(alloc, from, sent as usize, draws)?;
    let receiver = characters_item(alloc, received, justified)?;
    if let (Some(sender), Some(receiver)) = (&sender, &receiver) {
        return tally_long_move(alloc, sender, receiver, record.as_slice(), tally);
    }
    tally.count_none();
    Ok(())
}

/// Tries the moves of items of a kind, of each number of digits, to items of characters, JUSTIFIED or not.
pub fn try_long_shown(
    alloc: Global,
    from: &ItemKind,
    justified: bool,
    draws: &mut Draws,
) -> Result<Tally, AllocError> {
    let mut tally = Tally::new();
    for sent in 1..from.most_long_digits() + 1 {
        for received in 1..LONGEST + 1 {
            try_shown(alloc, from, justified, sent, received, draws, &mut tally)?;
        }
    }
    Ok(tally)
}
