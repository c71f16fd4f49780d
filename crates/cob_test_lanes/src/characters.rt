//! Moves of characters and of constants.

ghost use Rattle.std.specs.Prelude.{◌≡◌, ◌≤◌, IsTrue, length, vec_len};
ghost use Rattle.cob_copybook_tree.specs.Items.{IsStorable};
ghost use Rattle.cob_move_receive.specs.Sent.{Occupies};

use crate::draws::Draws;
use crate::moves::UNWRITTEN;
use crate::tally::Tally;
use cob_copybook_entry::Usage;
use cob_copybook_tree::{Figurative, Item, Kind, Value, is_number, is_number_item};
use cob_move_steps::{CharactersStep, ConstantStep};
use cob_picture::Picture;
use std::alloc::{AllocError, Global};
use std::fmt::Write;

/// No item of characters here is longer.
pub const LONGEST: u32 = 40;

/// Entries between which characters are moved.
#[derive(Clone, Copy)]
pub enum CharacterMove {
    /// From an item to another.
    Plain,
    /// From an item to one that is JUSTIFIED.
    Justified,
    /// From a group to an item that is JUSTIFIED.
    FromGroup,
    /// From an item to a group.
    ToGroup,
}

/// An item of this picture.
fn item_of(picture: &str, justified: bool) -> Option<Item> {
    match Picture::read(picture.as_bytes()) {
        Ok(picture) => Some(Item {
            picture,
            usage: Usage::Display,
            sign: None,
            justified,
            blank: false,
        }),
        Err(_) => None,
    }
}

/// An item of so many characters.
pub fn characters_item(
    alloc: Global,
    count: u32,
    justified: bool,
) -> Result<Option<Item>, AllocError> {
    let mut picture = String::new(alloc);
    write!(picture, "X({count})")?;
    Ok(item_of(picture.as_str(), justified))
}

/// The same as what may be a group.
fn characters(alloc: Global, count: u32, justified: bool) -> Result<Option<Kind>, AllocError> {
    match characters_item(alloc, count, justified)? {
        Some(item) => Ok(Some(Kind::Item(item))),
        None => Ok(None),
    }
}

/// What sends so many characters.
fn sender_of(alloc: Global, which: CharacterMove, count: u32) -> Result<Option<Kind>, AllocError> {
    match which {
        CharacterMove::FromGroup => Ok(Some(Kind::Group)),
        CharacterMove::Plain | CharacterMove::Justified | CharacterMove::ToGroup => {
            characters(alloc, count, false)
        }
    }
}

/// What receives so many.
fn receiver_of(
    alloc: Global,
    which: CharacterMove,
    count: u32,
) -> Result<Option<Kind>, AllocError> {
    match which {
        CharacterMove::ToGroup => Ok(Some(Kind::Group)),
        CharacterMove::Plain => characters(alloc, count, false),
        CharacterMove::Justified | CharacterMove::FromGroup => characters(alloc, count, true),
    }
}

/// Moves the characters at the end of a record to a receiver, and counts what came of it.
fn tally_move(step: &CharactersStep, record: &[u8], size: usize, tally: &mut Tally) {
    if size > 40 || record.len() < step.sent {
        return;
    }
    let mut bytes = [UNWRITTEN; 40];
    step.run(record, &mut bytes[..size]);
    tally.count(true, &bytes[..size]);
}

/// Tries a move of so many characters to a receiver of so many.
fn try_move(
    alloc: Global,
    which: CharacterMove,
    sent: u32,
    received: u32,
    draws: &mut Draws,
    tally: &mut Tally,
) -> Result<(), AllocError> {
    let sender = sender_of(alloc, which, sent)?;
    let receiver = receiver_of(alloc, which, received)?;
    let mut record = Vec::new(alloc);
    for place in 0..draws.below(24) {
        record.push(draws.byte())?;
    }
    for place in 0..sent {
        record.push(draws.byte())?;
    }
    if let (Some(sender), Some(receiver)) = (&sender, &receiver) {
        if let Some(step) = CharactersStep::prepare(sender, sent as usize, receiver) {
            tally_move(&step, record.as_slice(), received as usize, tally);
            return Ok(());
        }
    }
    tally.count_none();
    Ok(())
}

/// Tries the moves of characters between such entries.
pub fn try_characters(
    alloc: Global,
    which: CharacterMove,
    draws: &mut Draws,
) -> Result<Tally, AllocError> {
    let mut tally = Tally::new();
    for sent in 1..LONGEST + 1 {
        for received in 1..LONGEST + 1 {
            try_move(alloc, which, sent, received, draws, &mut tally)?;
        }
    }
    Ok(tally)
}

/// Whether bytes can hold what an item describes.
fn is_storable(item: &Item) -> bool
    ensures { IsTrue result → IsStorable item.now }
{
    if is_number(item) {
        is_number_item(item)
    } else {
        item.size() == item.picture.size()
    }
}

/// Whether so many bytes are those of an item, or of a group.
fn has_bytes(kind: &Kind, length: usize) -> bool
    ensures { IsTrue result → Occupies kind.now length }
{
    match kind {
        Kind::Group => true,
        Kind::Item(item) => length == usize::from(item.size()) && is_storable(item),
    }
}

/// Writes a constant into so many bytes, and counts what came of it.
fn tally_constant(
    alloc: Global,
    value: &Value,
    receiver: &Kind,
    size: usize,
    tally: &mut Tally,
) -> Result<(), AllocError> {
    if has_bytes(receiver, size) {
        if let Some(step) = ConstantStep::prepare(alloc, value, receiver, size)? {
            let mut bytes = vec![in alloc; UNWRITTEN; step.bytes.len()]?;
            step.run(bytes.as_mut_slice());
            tally.count(true, bytes.as_slice());
            return Ok(());
        }
    }
    tally.count_none();
    Ok(())
}

/// The figurative constants.
pub fn figuratives() -> [(&'static str, Figurative); 5] {
    [
        ("SPACE", Figurative::Space),
        ("ZERO", Figurative::Zero),
        ("HIGH-VALUE", Figurative::HighValue),
        ("LOW-VALUE", Figurative::LowValue),
        ("QUOTE", Figurative::Quote),
    ]
}

/// Tries the moves of a figurative constant: to characters from the left and from the right and to a group, of each length; to a number and to
/// an edited one.
pub fn try_figurative(alloc: Global, figurative: Figurative) -> Result<Tally, AllocError> {
    let value = Value::Figurative(figurative);
    let mut tally = Tally::new();
    for count in 1..LONGEST + 1 {
        for which in [
            CharacterMove::Plain,
            CharacterMove::Justified,
            CharacterMove::ToGroup,
        ] {
            if let Some(receiver) = receiver_of(alloc, which, count)? {
                tally_constant(alloc, &value, &receiver, count as usize, &mut tally)?;
            }
        }
    }
    for picture in ["S9(5)V99", "$$,$$9.99CR"] {
        if let Some(item) = item_of(picture, false) {
            let size = usize::from(item.size());
            tally_constant(alloc, &value, &Kind::Item(item), size, &mut tally)?;
        }
    }
    Ok(tally)
}
