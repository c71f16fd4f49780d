//! The first byte of a receiver that is not described as what it gets.

ghost use Rattle.std.specs.Prelude.{◌≡◌, ◌<◌, ℕ, IsFalse, IsTrue, false, get_or, length, map};
ghost use Rattle.std.specs.List.{slice_get};
ghost use Rattle.cob_back_losses.specs.Bytes.{item_byte};
ghost use Rattle.cob_back_losses.specs.Keeping.{HoldsSent, KeepsByte, IsMarked, IsUnkept, TellsAmong, byte_sense, gets_byte, gets_character, gets_of, sent_element, sent_sense};
ghost use Rattle.cob_back_losses.specs.Senses.{sense};

use crate::bytes::ItemByte;
use crate::senses::{Sense, constant_sense, is_kept, item_sense};
use cob_copybook_tree::{Node, Value};

/// What a byte gets that does not keep its description.
#[derive(Clone, Copy, PartialEq, Eq)]
pub enum Gets {
    /// A space behind the end of what is sent.
    Space,
    /// A byte of the sender's item whose entry has this number.
    Item(usize),
    /// A character of a literal or figurative constant.
    Character,
}

/// The first byte of a receiver that is not described as what it gets.
#[derive(Clone, Copy, PartialEq, Eq)]
pub struct Unkept {
    /// Its place from the beginning of the receiver, from 0.
    pub at: usize,
    /// The number of the receiver's item that has it, or of the receiver, which may be the item.
    pub item: usize,
    /// What it gets.
    pub gets: Gets,
}

/// What is sent.
#[derive(Clone, Copy)]
pub enum JudgedSent<'a> {
    /// An element of an entry of a record, with those beneath it.
    Entry(&'a Node),
    /// A literal, or a figurative constant.
    Constant(&'a Value),
}

/// What the byte at this place is described as; a space where there is none.
fn sense_at<'a>(bytes: &[ItemByte<'a>], at: usize) -> Sense<'a>
    ensures { sense result ≡ byte_sense (slice_get (map item_byte bytes.now) at) }
{
    match bytes.get(at) {
        Some(byte) => item_sense(byte.item, byte.at),
        None => Sense::Fill,
    }
}

/// What the byte at this place that is sent is described as. These are the bytes of an entry that is sent.
fn sent_sense<'a>(from: &JudgedSent<'a>, bytes: &[ItemByte<'a>], at: usize) -> Sense<'a>
    ensures { (limit : ℕ) → HoldsSent (sent_element from.now) bytes.now limit → at < limit
        → sense result ≡ sent_sense (sent_element from.now) at }
{
    match from {
        JudgedSent::Constant(value) => constant_sense(value, at),
        JudgedSent::Entry(_) => sense_at(bytes, at),
    }
}

/// What a byte gets that an item sends at this place.
fn gets_byte(bytes: &[ItemByte<'_>], at: usize) -> Gets
    ensures { result ≡ gets_byte (slice_get (map item_byte bytes.now) at) }
{
    match bytes.get(at) {
        Some(byte) => Gets::Item(byte.number),
        None => Gets::Space,
    }
}

/// What a byte gets that is described so in a constant.
fn gets_character(character: Sense<'_>) -> Gets
    ensures { result ≡ gets_character (sense character.entry) }
{
    match character {
        Sense::Fill => Gets::Space,
        Sense::Text => Gets::Character,
        Sense::Digit => Gets::Character,
        Sense::Part { .. } => Gets::Character,
    }
}

/// What the byte at this place gets. These are the bytes of an entry that is sent.
fn gets_of(from: &JudgedSent<'_>, bytes: &[ItemByte<'_>], at: usize) -> Gets
    ensures { (limit : ℕ) → HoldsSent (sent_element from.now) bytes.now limit → at < limit
        → result ≡ gets_of (sent_element from.now) at }
{
    match from {
        JudgedSent::Constant(value) => gets_character(constant_sense(value, at)),
        JudgedSent::Entry(_) => gets_byte(bytes, at),
    }
}

/// Whether the byte at this place is marked.
pub(crate) fn is_marked(marks: &[bool], at: usize) -> bool
    ensures { result ≡ get_or marks.now at false }
{
    match marks.get(at) {
        Some(mark) => *mark,
        None => false,
    }
}

/// Whether the byte at this place of those that receive is not covered, and not described as what it gets.
fn is_unkept(
    from: &JudgedSent<'_>,
    bytes: &[ItemByte<'_>],
    received: &[ItemByte<'_>],
    covered: &[bool],
    at: usize,
) -> bool
    requires sent { HoldsSent (sent_element from.now) bytes.now (length received.now) }
    requires there { at < length received.now }
    ensures unkept { IsTrue result → IsUnkept (sent_element from.now) (map item_byte received.now)
        (IsMarked covered.now) at }
    ensures kept { IsFalse result → KeepsByte (sent_element from.now) (map item_byte received.now)
        (IsMarked covered.now) at }
{
    let byte = received[at];
    !is_marked(covered, at) && !is_kept(sent_sense(from, bytes, at), item_sense(byte.item, byte.at))
}

/// The first byte of those that receive that is not covered, and not described as what it gets.
pub(crate) fn first_unkept(
    from: &JudgedSent<'_>,
    bytes: &[ItemByte<'_>],
    received: &[ItemByte<'_>],
    covered: &[bool],
) -> Option<Unkept>
    requires sent { HoldsSent (sent_element from.now) bytes.now (length received.now) }
    ensures { TellsAmong (sent_element from.now) (map item_byte received.now)
        (IsMarked covered.now) result }
{
    for at in 0..received.len() {
        if is_unkept(from, bytes, received, covered, at) {
            return Some(Unkept {
                at,
                item: received[at].number,
                gets: gets_of(from, bytes, at),
            });
        }
    }
    None
}
