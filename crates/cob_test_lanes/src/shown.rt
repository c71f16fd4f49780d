//! Moves of numbers to characters.

ghost use Rattle.std.specs.Prelude.{◌<◌, ◌≤◌};

use crate::characters::{LONGEST, characters_item};
use crate::draws::Draws;
use crate::kinds::{ItemKind, drawn_short_scale};
use crate::moves::UNWRITTEN;
use crate::numbers::item_at;
use crate::senders::drawn_record;
use crate::tally::Tally;
use cob_move_steps::NumeralsStep;
use std::alloc::{AllocError, Global};

/// Moves the number at the end of a record to so many characters, and counts what came of it.
fn tally_move(step: &NumeralsStep, record: &[u8], size: usize, tally: &mut Tally) {
    if size > 40 {
        return;
    }
    let mut bytes = [UNWRITTEN; 40];
    let moved = step.run(record, &mut bytes[..size]);
    tally.count(moved, &bytes[..size]);
}

/// Tries a move of an item of so many digits to one of so many characters.
fn try_move(
    alloc: Global,
    from: &ItemKind,
    justified: bool,
    sent: u32,
    received: u32,
    draws: &mut Draws,
    tally: &mut Tally,
) -> Result<(), AllocError>
    requires some { 0 < sent }
    requires most { sent ≤ 16 }
{
    let scale = drawn_short_scale(draws, sent);
    let sender = item_at(alloc, from, sent, scale)?;
    let record = drawn_record(alloc, from, sent as usize, draws)?;
    let receiver = characters_item(alloc, received, justified)?;
    if let (Some(sender), Some(receiver)) = (&sender, &receiver) {
        if let Some(step) = NumeralsStep::prepare(sender, receiver) {
            tally_move(&step, record.as_slice(), received as usize, tally);
            return Ok(());
        }
    }
    tally.count_none();
    Ok(())
}

/// Tries the moves of items of a kind to items of characters, JUSTIFIED or not.
pub fn try_shown(
    alloc: Global,
    from: &ItemKind,
    justified: bool,
    draws: &mut Draws,
) -> Result<Tally, AllocError> {
    let mut tally = Tally::new();
    for sent in 1..from.most_digits() + 1 {
        for received in 1..LONGEST + 1 {
            try_move(alloc, from, justified, sent, received, draws, &mut tally)?;
        }
    }
    Ok(tally)
}
