//! Moves of the numbers that characters and edited items give.

ghost use Rattle.std.specs.Prelude.{◌<◌, ◌≤◌};

use crate::characters::characters_item;
use crate::draws::Draws;
use crate::edited::{EditedKind, edited_kinds, item_of, long_kinds};
use crate::kinds::{ItemKind, all_kinds};
use crate::moves::tally_move;
use crate::numbers::{TRIES, drawn_item};
use crate::tally::Tally;
use crate::texts::drawn_text;
use cob_copybook_tree::Item;
use std::alloc::{AllocError, Global};

/// No characters that give a number here are more.
const MOST: u32 = 16;

/// Tries a move to an item.
fn try_move(
    alloc: Global,
    sender: &Item,
    receiver: &Item,
    draws: &mut Draws,
    tally: &mut Tally,
) -> Result<(), AllocError> {
    let record = drawn_text(alloc, sender, draws)?;
    tally_move(alloc, sender, receiver, record.as_slice(), tally)
}

/// Tries a move to a number of a kind, of so many digits.
fn try_to_number(
    alloc: Global,
    sender: &Item,
    to: &ItemKind,
    received: u32,
    draws: &mut Draws,
    tally: &mut Tally,
) -> Result<(), AllocError>
    requires some { 0 < received }
    requires most { received ≤ 31 }
{
    match drawn_item(alloc, to, received, draws)? {
        Some(receiver) => try_move(alloc, sender, &receiver, draws, tally),
        None => {
            tally.count_none();
            Ok(())
        }
    }
}

/// Tries the moves of an item to edited items of some kinds.
fn try_to_edited(
    alloc: Global,
    sender: &Item,
    kinds: &[EditedKind],
    draws: &mut Draws,
    tally: &mut Tally,
) -> Result<(), AllocError> {
    for to in kinds {
        if let Some(receiver) = item_of(to) {
            try_move(alloc, sender, &receiver, draws, tally)?;
        }
    }
    Ok(())
}

/// Tries the moves of characters to numbers of a kind.
pub fn try_characters_to_numbers(
    alloc: Global,
    to: &ItemKind,
    draws: &mut Draws,
) -> Result<Tally, AllocError> {
    let mut tally = Tally::new();
    for sent in 1..MOST + 1 {
        if let Some(sender) = characters_item(alloc, sent, false)? {
            for received in 1..to.most_digits() + 1 {
                for _ in 0..TRIES {
                    try_to_number(alloc, &sender, to, received, draws, &mut tally)?;
                }
            }
        }
    }
    Ok(tally)
}

/// Tries the moves of characters to edited items of a kind.
pub fn try_characters_to_edited(
    alloc: Global,
    to: &EditedKind,
    draws: &mut Draws,
) -> Result<Tally, AllocError> {
    let mut tally = Tally::new();
    if let Some(receiver) = item_of(to) {
        for sent in 1..MOST + 1 {
            if let Some(sender) = characters_item(alloc, sent, false)? {
                try_move(alloc, &sender, &receiver, draws, &mut tally)?;
            }
        }
    }
    Ok(tally)
}

/// Tries the moves of edited items of a kind to numbers of all kinds, of about half of the lengths.
pub fn try_edited_to_numbers(
    alloc: Global,
    from: &EditedKind,
    draws: &mut Draws,
) -> Result<Tally, AllocError> {
    let mut tally = Tally::new();
    if let Some(sender) = item_of(from) {
        for to in &all_kinds() {
            for received in 1..to.most_digits() + 1 {
                if draws.below(2) == 0 {
                    try_to_number(alloc, &sender, to, received, draws, &mut tally)?;
                }
            }
        }
    }
    Ok(tally)
}

/// Tries the moves of edited items of a kind to edited items of all kinds.
pub fn try_edited_to_edited(
    alloc: Global,
    from: &EditedKind,
    draws: &mut Draws,
) -> Result<Tally, AllocError> {
    let mut tally = Tally::new();
    if let Some(sender) = item_of(from) {
        try_to_edited(alloc, &sender, &edited_kinds(), draws, &mut tally)?;
        try_to_edited(alloc, &sender, &long_kinds(), draws, &mut tally)?;
    }
    Ok(tally)
}
