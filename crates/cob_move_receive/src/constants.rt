//! Constants put into receivers as characters.

ghost use Rattle.std.specs.Prelude.{◌≡◌, ◌≤◌, ℕ, List, length, IsTrue};
ghost use Rattle.cob_limits.specs.Limits.{longest_literal};
ghost use Rattle.cob_copybook_entry.specs.Described.{Repeated, plain_value};
ghost use Rattle.cob_copybook_tree.specs.Lengths.{item_size};
ghost use Rattle.cob_copybook_tree.specs.Items.{IsStorable};
ghost use Rattle.cob_move_receive.specs.Characters.{figurative_byte, has_insertions, padded, placement_in, AreBytesOf, Arranged, GivesConstant, IsByteOf, IsRepeated};

use crate::characters::{put, put_left};
use crate::numerals::numerals;
use cob_copybook_tree::{Figurative, Item, Value};
use cob_cp037::{QUOTE, SPACE, ZERO, encode_char};
use cob_limits::{MAX_EDITED_SIZE, MAX_LITERAL};
use cob_picture::Category;

/// The byte of a character: its own in code page 037, and a space for one that has none there.
fn byte_of(character: u8) -> u8
    ensures { IsByteOf character result }
{
    encode_char(character).unwrap_or(SPACE)
}

/// Writes the byte of each character at its place. The two have one length.
fn encode(text: &[u8], bytes: &mut [u8])
    requires long { length text.now ≡ length bytes.old }
    ensures { AreBytesOf text.now bytes.new }
{
    for (at, character) in text.iter().enumerate() {
        bytes[at] = byte_of(*character);
    }
}

/// Writes a quoted literal from the left.
fn put_literal_left(text: &[u8], bytes: &mut [u8])
    requires { length text.now ≤ longest_literal }
    ensures { (coded : List ℕ)
        × AreBytesOf text.now coded × (bytes.new ≡ padded (length bytes.old) coded) }
{
    let mut buffer = [0u8; MAX_LITERAL];
    let coded = &mut buffer[..text.len()];
    encode(text, coded);
    put_left(coded, bytes);
}

/// Writes a quoted literal as it stands in an item.
fn put_literal(item: &Item, text: &[u8], bytes: &mut [u8])
    requires short { length text.now ≤ longest_literal }
    requires storable { IsStorable item.now }
    requires long { length bytes.old ≡ item_size item.now }
    ensures { (coded : List ℕ) × AreBytesOf text.now coded
        × Arranged (placement_in item.now) (length bytes.old) coded bytes.new }
{
    let mut buffer = [0u8; MAX_LITERAL];
    let coded = &mut buffer[..text.len()];
    encode(text, coded);
    put(item, coded, bytes);
}

/// The byte of a figurative constant.
fn figurative_byte(figurative: Figurative) -> u8
    ensures { result ≡ figurative_byte figurative }
{
    match figurative {
        Figurative::Space => SPACE,
        Figurative::Zero => ZERO,
        Figurative::HighValue => 0xFF,
        Figurative::LowValue => 0x00,
        Figurative::Quote => QUOTE,
    }
}

/// Writes a literal one time after another, up to the last byte; spaces for a literal without characters.
fn repeat_literal(text: &[u8], bytes: &mut [u8])
    ensures { GivesConstant (Repeated text.now) (length bytes.old) bytes.new }
{
    if text.is_empty() {
        bytes.fill(SPACE);
        return;
    }
    for at in 0..bytes.len() {
        bytes[at] = byte_of(text[at % text.len()]);
    }
}

/// Writes a figurative constant, or ALL and a literal, one time after another, up to the last byte.
fn repeat(value: &Value, bytes: &mut [u8])
    requires repeated { IsRepeated (plain_value value.now) }
    ensures gives { GivesConstant (plain_value value.now) (length bytes.old) bytes.new }
    ensures room { length bytes.new ≡ length bytes.old }
{
    match value {
        Value::Figurative(figurative) => bytes.fill(figurative_byte(*figurative)),
        Value::All(text) => repeat_literal(text.as_bytes(), bytes),
        // The caller has no other constant here.
        Value::Number { .. } | Value::Literal(_) => {}
    }
}

/// Fills a group with a figurative constant, or ALL and a literal.
fn fill_left(value: &Value, bytes: &mut [u8])
    requires { IsRepeated (plain_value value.now) }
    ensures { (text : List ℕ) × GivesConstant (plain_value value.now) (length bytes.old) text
        × (bytes.new ≡ padded (length bytes.old) text) }
{
    repeat(value, bytes);
}

/// Whether an item has insertions between characters.
fn has_insertions(item: &Item) -> bool
    ensures { result ≡ has_insertions item.now.picture.category }
{
    matches!(item.picture.category(), Category::AlphanumericEdited)
}

/// Fills an item with a figurative constant, or ALL and a literal.
fn fill(item: &Item, value: &Value, bytes: &mut [u8])
    requires repeated { IsRepeated (plain_value value.now) }
    requires storable { IsStorable item.now }
    requires long { length bytes.old ≡ item_size item.now }
    ensures { (text : List ℕ) × GivesConstant (plain_value value.now) (length bytes.old) text
        × Arranged (placement_in item.now) (length bytes.old) text bytes.new }
{
    if has_insertions(item) {
        fill_among(item, value, bytes);
    } else {
        repeat(value, bytes);
    }
}

/// The same in an item with insertions: the constant is repeated to the item's size first.
fn fill_among(item: &Item, value: &Value, bytes: &mut [u8])
    requires repeated { IsRepeated (plain_value value.now) }
    requires storable { IsStorable item.now }
    requires edited { IsTrue (has_insertions item.now.picture.category) }
    requires long { length bytes.old ≡ item_size item.now }
    ensures { (text : List ℕ) × GivesConstant (plain_value value.now) (length bytes.old) text
        × Arranged (placement_in item.now) (length bytes.old) text bytes.new }
{
    let mut buffer = [0u8; MAX_EDITED_SIZE as usize];
    let size = usize::from(item.picture.size());
    let text = &mut buffer[..size];
    repeat(value, text);
    put(item, text, bytes);
}

/// Writes a constant into a group.
pub(crate) fn constant_left(value: &Value, bytes: &mut [u8])
    ensures { (text : List ℕ) × GivesConstant (plain_value value.now) (length bytes.old) text
        × (bytes.new ≡ padded (length bytes.old) text) }
{
    match value {
        Value::Number { number, .. } => put_left(numerals(number).as_slice(), bytes),
        Value::Literal(text) => put_literal_left(text.as_bytes(), bytes),
        Value::Figurative(_) | Value::All(_) => fill_left(value, bytes),
    }
}

/// Writes the characters of a constant into an item.
pub(crate) fn constant_in(item: &Item, value: &Value, bytes: &mut [u8])
    requires storable { IsStorable item.now }
    requires long { length bytes.old ≡ item_size item.now }
    ensures { (text : List ℕ) × GivesConstant (plain_value value.now) (length bytes.old) text
        × Arranged (placement_in item.now) (length bytes.old) text bytes.new }
{
    match value {
        Value::Number { number, .. } => put(item, numerals(number).as_slice(), bytes),
        Value::Literal(text) => put_literal(item, text.as_bytes(), bytes),
        Value::Figurative(_) | Value::All(_) => fill(item, value, bytes),
    }
}
