//! Moves of numbers of any number of digits.

ghost use Rattle.std.specs.Prelude.{◌<◌, ◌≤◌};

use crate::characters::characters_item;
use crate::draws::Draws;
use crate::edited::{EditedKind, item_of};
use crate::kinds::{ItemKind, all_kinds, edge_scales};
use crate::moves::tally_long_move;
use crate::numbers::{drawn_item, item_at};
use crate::senders::{SIGN_CODES, drawn_record, signed_record};
use crate::tally::Tally;
use crate::texts::drawn_text;
use cob_copybook_tree::Item;
use std::alloc::{AllocError, Global};

/// No characters are a number of more digits.
const MOST: u32 = 31;

/// Moves what a record ends with to an item.
fn tally_pair(
    alloc: Global,
    sender: &Option<Item>,
    receiver: &Option<Item>,
    record: &[u8],
    tally: &mut Tally,
) -> Result<(), AllocError> {
    match (sender, receiver) {
        (Some(sender), Some(receiver)) => {
            tally_long_move(alloc, sender, receiver, record, tally)
        }
        _ => {
            tally.count_none();
            Ok(())
        }
    }
}

/// Moves it to an item of a kind, of so many digits.
fn try_to(
    alloc: Global,
    sender: &Option<Item>,
    record: &[u8],
    to: &ItemKind,
    received: u32,
    draws: &mut Draws,
    tally: &mut Tally,
) -> Result<(), AllocError>
    requires some { 0 < received }
    requires most { received ≤ 31 }
{
    let receiver = drawn_item(alloc, to, received, draws)?;
    tally_pair(alloc, sender, &receiver, record, tally)
}

/// Tries the moves between items of two kinds, of each number of digits.
pub fn try_long_kinds(
    alloc: Global,
    from: &ItemKind,
    to: &ItemKind,
    draws: &mut Draws,
) -> Result<Tally, AllocError> {
    let mut tally = Tally::new();
    for sent in 1..from.most_long_digits() + 1 {
        for received in 1..to.most_long_digits() + 1 {
            let sender = drawn_item(alloc, from, sent, draws)?;
            let record = drawn_record(alloc, from, sent as usize, draws)?;
            try_to(
                alloc,
                &sender,
                record.as_slice(),
                to,
                received,
                draws,
                &mut tally,
            )?;
        }
    }
    Ok(tally)
}

/// Tries the moves of characters, of each number, to items of a kind, of each number of digits.
pub fn try_long_characters(
    alloc: Global,
    to: &ItemKind,
    draws: &mut Draws,
) -> Result<Tally, AllocError> {
    let mut tally = Tally::new();
    for sent in 1..MOST + 1 {
        for received in 1..to.most_long_digits() + 1 {
            let sender = characters_item(alloc, sent, false)?;
            let record = match &sender {
                Some(sender) => drawn_text(alloc, sender, draws)?,
                None => Vec::new(alloc),
            };
            try_to(
                alloc,
                &sender,
                record.as_slice(),
                to,
                received,
                draws,
                &mut tally,
            )?;
        }
    }
    Ok(tally)
}

/// Tries the moves of items of all kinds, of each number of digits, to edited items of a kind.
pub fn try_long_edited(
    alloc: Global,
    to: &EditedKind,
    draws: &mut Draws,
) -> Result<Tally, AllocError> {
    let mut tally = Tally::new();
    let Some(receiver) = item_of(to) else {
        return Ok(tally);
    };
    for from in &all_kinds() {
        for sent in 1..from.most_long_digits() + 1 {
            let sender = drawn_item(alloc, from, sent, draws)?;
            let record = drawn_record(alloc, from, sent as usize, draws)?;
            match &sender {
                Some(sender) => {
                    tally_long_move(alloc, sender, &receiver, record.as_slice(), &mut tally)?;
                }
                None => tally.count_none(),
            }
        }
    }
    Ok(tally)
}

/// Tries the moves of characters, of each number, to edited items of a kind.
pub fn try_long_numerals(
    alloc: Global,
    to: &EditedKind,
    draws: &mut Draws,
) -> Result<Tally, AllocError> {
    let mut tally = Tally::new();
    let receiver = item_of(to);
    for sent in 1..MOST + 1 {
        let sender = characters_item(alloc, sent, false)?;
        let record = match &sender {
            Some(sender) => drawn_text(alloc, sender, draws)?,
            None => Vec::new(alloc),
        };
        tally_pair(alloc, &sender, &receiver, record.as_slice(), &mut tally)?;
    }
    Ok(tally)
}

/// Tries the moves of numbers with each sign, between items of so many digits at two scales.
fn try_signs(
    alloc: Global,
    from: &ItemKind,
    sent: u32,
    sender: &Option<Item>,
    receiver: &Option<Item>,
    draws: &mut Draws,
    tally: &mut Tally,
) -> Result<(), AllocError>
    requires { sent ≤ 31 }
{
    for code in SIGN_CODES {
        let record = signed_record(alloc, from, sent as usize, code, draws)?;
        tally_pair(alloc, sender, receiver, record.as_slice(), tally)?;
    }
    Ok(())
}

/// Tries the moves between items of two kinds and the same number of digits, each from 1 to 31 or the most that one of them has, at each two scales at
/// the edges, with each sign.
pub fn try_long_edges(
    alloc: Global,
    from: &ItemKind,
    to: &ItemKind,
    draws: &mut Draws,
) -> Result<Tally, AllocError> {
    let mut tally = Tally::new();
    for digits in 1..MOST + 1 {
        let sent = from.long_digits(digits);
        let received = to.long_digits(digits);
        for scale in edge_scales(sent) {
            let sender = item_at(alloc, from, sent, scale)?;
            for other in edge_scales(received) {
                let receiver = item_at(alloc, to, received, other)?;
                try_signs(alloc, from, sent, &sender, &receiver, draws, &mut tally)?;
            }
        }
    }
    Ok(tally)
}
