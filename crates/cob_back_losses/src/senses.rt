//! What a byte is described as.

ghost use Rattle.std.specs.Prelude.{◌≡◌, ℕ, Bool};
ghost use Rattle.std.specs.Bool.{Decides};
ghost use Rattle.std.specs.List.{slice_get};
ghost use Rattle.cob_copybook_entry.specs.Described.{plain_value};
ghost use Rattle.cob_back_losses.specs.Senses.{KeepsSense, Part, character_sense, constant_sense, figurative_sense, is_digit_sense, is_plain_digits, is_shown, is_whole, item_sense, repeated_sense, sense, sense_if};

use cob_back_moves::is_same_item;
use cob_copybook_tree::{Figurative, Item, Value, is_number};

/// What a byte is described as.
#[derive(Clone, Copy)]
pub(crate) enum Sense<'a> {
    /// A character.
    Text,
    /// A digit of a number that has a byte for each of its digits, no sign and no fraction.
    Digit,
    /// The byte at this place, from 0, of another item that shows a number, stored or edited.
    Part { item: &'a Item, byte: u16 },
    /// A space behind the end of what is sent.
    Fill,
}

/// Whether no digit stands behind the point, and the last one before it is the ones.
fn is_whole(scale: i8) -> bool
    ensures { result ≡ is_whole scale }
{
    scale == 0
}

/// Whether each byte of an item is a digit: it is a zoned number without a sign, all of whose digits stand before the point, down to the ones.
fn is_plain_digits(item: &Item) -> bool
    ensures { result ≡ is_plain_digits item.now }
{
    is_number(item)
        && item.storage_kind().is_zoned()
        && !item.picture.signed()
        && is_whole(item.picture.scale())
}

/// What the byte at this place of an item is described as.
pub(crate) fn item_sense(item: &Item, byte: u16) -> Sense<'_>
    ensures { sense result ≡ item_sense item.now byte }
{
    if is_plain_digits(item) {
        return Sense::Digit;
    }
    if item.picture.category().shows_number() {
        return Sense::Part { item, byte };
    }
    Sense::Text
}

/// What a character of a text is described as.
fn character_sense(character: u8) -> Sense<'static>
    ensures { sense result ≡ character_sense character }
{
    if character.is_ascii_digit() {
        Sense::Digit
    } else {
        Sense::Text
    }
}

/// What each byte of a figurative constant is described as.
fn figurative_sense(figurative: Figurative) -> Sense<'static>
    ensures { sense result ≡ figurative_sense figurative }
{
    match figurative {
        Figurative::Zero => Sense::Digit,
        Figurative::Space => Sense::Text,
        Figurative::HighValue => Sense::Text,
        Figurative::LowValue => Sense::Text,
        Figurative::Quote => Sense::Text,
    }
}

/// What the character at this place of a literal is described as.
fn literal_sense(text: &[u8], at: usize) -> Sense<'static>
    ensures { sense result ≡ sense_if (slice_get text.now at) }
{
    match text.get(at) {
        Some(character) => character_sense(*character),
        None => Sense::Fill,
    }
}

/// What the byte at this place of a literal that is repeated is described as.
fn repeated_sense(text: &[u8], at: usize) -> Sense<'static>
    ensures { sense result ≡ repeated_sense text.now at }
{
    if text.is_empty() {
        return Sense::Fill;
    }
    literal_sense(text, at % text.len())
}

/// What the byte at this place of a constant that is moved to a group is described as.
pub(crate) fn constant_sense(value: &Value, at: usize) -> Sense<'static>
    ensures { sense result ≡ constant_sense (plain_value value.now) at }
{
    match value {
        Value::Number { number, .. } => {
            if at < number.digits().as_slice().len() {
                Sense::Digit
            } else {
                Sense::Fill
            }
        }
        Value::Literal(text) => literal_sense(text.as_bytes(), at),
        Value::Figurative(figurative) => figurative_sense(*figurative),
        Value::All(text) => repeated_sense(text.as_bytes(), at),
    }
}

/// Whether a byte is a character as it stands.
fn is_shown(sent: Sense<'_>) -> bool
    ensures { result ≡ is_shown (sense sent.entry) }
{
    match sent {
        Sense::Text => true,
        Sense::Digit => true,
        Sense::Fill => true,
        Sense::Part { .. } => false,
    }
}

/// Whether a byte is a plain digit.
fn is_digit(sent: Sense<'_>) -> bool
    ensures { result ≡ is_digit_sense (sense sent.entry) }
{
    match sent {
        Sense::Digit => true,
        Sense::Text => false,
        Sense::Fill => false,
        Sense::Part { .. } => false,
    }
}

/// Whether a byte is the one at this place of an item of this description.
fn is_part(sent: Sense<'_>, item: &Item, byte: u16) -> bool
    ensures { Decides result (sense sent.entry ≡ Part item.now byte) }
{
    match sent {
        Sense::Part {
            item: other,
            byte: place,
        } => place == byte && is_same_item(other, item),
        Sense::Text => false,
        Sense::Digit => false,
        Sense::Fill => false,
    }
}

/// Whether a byte that is described as the second and gets the first keeps its description.
pub(crate) fn is_kept(sent: Sense<'_>, received: Sense<'_>) -> bool
    ensures { Decides result (KeepsSense (sense sent.entry) (sense received.entry)) }
{
    match received {
        Sense::Text => is_shown(sent),
        Sense::Digit => is_digit(sent),
        Sense::Part { item, byte } => is_part(sent, item, byte),
        Sense::Fill => false,
    }
}
