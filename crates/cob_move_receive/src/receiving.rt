//! One receiver.

ghost use Rattle.std.specs.Prelude.{◌≡◌, ◌≤◌, ℕ, List, length, false, IsTrue, Some};
ghost use Rattle.cob_copybook_entry.specs.Described.{plain_value};
ghost use Rattle.cob_picture.specs.Positions.{shows_number};
ghost use Rattle.cob_copybook_tree.specs.Lengths.{item_size};
ghost use Rattle.cob_copybook_tree.specs.declared.node.Kind.TheVariants.{Group, Item as ItemKind};
ghost use Rattle.cob_copybook_tree.specs.Items.{IsStorable};
ghost use Rattle.cob_move_receive.specs.Sent.{sent, Entry, Literal, Occupies, HasAllBytes};
ghost use Rattle.cob_move_receive.specs.Characters.{GivesConstant, GivesCharacters, IsRepeated, Arranged, placement_in};
ghost use Rattle.cob_move_receive.specs.Received.{is_group, outcome, GetsNumber, GetsCharacters, ItemGets, Received};

use crate::characters::{put, put_left};
use crate::constants::{constant_in, constant_left};
use crate::numbers::{hold, number_given};
use crate::numerals::numerals_to_point;
use crate::sent::Sent;
use cob_codec::Reading;
use cob_copybook_tree::{Item, Kind, is_number, read_sent};

/// Writes what a group holds after the move of a sender to it, into all its bytes: the sender's bytes, from the left.
pub fn receive_in_group(given: &Sent<'_>, bytes: &mut [u8])
    ensures { Received (sent given.now) Group (length bytes.old) (Some bytes.new) }
{
    match given {
        Sent::Constant(value) => constant_left(value, bytes),
        Sent::Entry { bytes: from, .. } => put_left(from, bytes),
    }
}

/// Writes what an item of characters gets of another item: its bytes, and of a number its digits. False where a number's bytes represent
/// none.
fn receive_item(from: &Item, source: &[u8], reading: Reading, item: &Item, bytes: &mut [u8]) -> bool
    requires from { IsStorable from.now }
    requires source { length source.now ≡ item_size from.now }
    requires storable { IsStorable item.now }
    requires long { length bytes.old ≡ item_size item.now }
    ensures gets { GetsCharacters (Entry (ItemKind from.now) source.now reading)
        (ItemKind item.now) (length bytes.old) (outcome result bytes.new) }
    ensures same { result ≡ false → bytes.new ≡ bytes.old }
{
    if !is_number(from) {
        put(item, source, bytes);
        return true;
    }
    match read_sent(reading, from, source) {
        Some(number) => {
            put(item, numerals_to_point(&number).as_slice(), bytes);
            true
        }
        None => false,
    }
}

/// Writes what an item gets of a group, and an item of characters of any sender. False where a number's bytes represent none.
fn receive_text(given: &Sent<'_>, item: &Item, bytes: &mut [u8]) -> bool
    requires given { HasAllBytes (sent given.now) }
    requires storable { IsStorable item.now }
    requires long { length bytes.old ≡ item_size item.now }
    ensures gets { GetsCharacters (sent given.now) (ItemKind item.now) (length bytes.old)
        (outcome result bytes.new) }
    ensures same { result ≡ false → bytes.new ≡ bytes.old }
{
    match given {
        Sent::Constant(value) => {
            constant_in(item, value, bytes);
            true
        }
        Sent::Entry {
            kind,
            bytes: source,
            reading,
        } => match kind {
            Kind::Group => {
                put_left(source, bytes);
                true
            }
            Kind::Item(from) => receive_item(from, source, *reading, item, bytes),
        },
    }
}

/// Writes what an item that shows a number gets. False where the sender's bytes represent none.
fn receive_number(given: &Sent<'_>, item: &Item, bytes: &mut [u8]) -> bool
    requires given { HasAllBytes (sent given.now) }
    requires storable { IsStorable item.now }
    requires shows { IsTrue (shows_number item.now.picture.category) }
    requires long { length bytes.old ≡ item_size item.now }
    ensures gets { GetsNumber (sent given.now) item.now (outcome result bytes.new) }
    ensures same { result ≡ false → bytes.new ≡ bytes.old }
{
    match number_given(given) {
        Some(number) => {
            hold(item, &number, bytes);
            true
        }
        None => false,
    }
}

/// Whether a sender is a group.
fn is_group(given: &Sent<'_>) -> bool
    ensures { result ≡ is_group (sent given.now) }
{
    match given {
        Sent::Entry {
            kind: Kind::Group,
            ..
        } => true,
        Sent::Entry { .. } | Sent::Constant(_) => false,
    }
}

/// Writes what an item holds after the move of a sender to it, into all its bytes.
///
/// False where the sender's bytes represent no value that the item asks for: its bytes are as they were then.
pub fn receive_in_item(given: &Sent<'_>, item: &Item, bytes: &mut [u8]) -> bool
    requires given { HasAllBytes (sent given.now) }
    requires storable { IsStorable item.now }
    requires long { length bytes.old ≡ item_size item.now }
    ensures gets { Received (sent given.now) (ItemKind item.now) (length bytes.old)
        (outcome result bytes.new) }
    ensures same { result ≡ false → bytes.new ≡ bytes.old }
{
    if !is_group(given) && item.picture.category().shows_number() {
        receive_number(given, item, bytes)
    } else {
        receive_text(given, item, bytes)
    }
}

/// Writes what a receiver holds after the move of a sender to it, into all its bytes.
///
/// False where the sender's bytes represent no value that the receiver asks for: the receiver's bytes are as they were then. The move is
/// one of those that `may_move` allows; of another one a number comes as none.
pub fn receive(given: &Sent<'_>, receiver: &Kind, bytes: &mut [u8]) -> bool
    requires given { HasAllBytes (sent given.now) }
    requires receiver { Occupies receiver.now (length bytes.old) }
    ensures gets { Received
        (sent given.now) receiver.now (length bytes.old) (outcome result bytes.new) }
    ensures same { result ≡ false → bytes.new ≡ bytes.old }
{
    match receiver {
        Kind::Item(item) => receive_in_item(given, item, bytes),
        Kind::Group => {
            receive_in_group(given, bytes);
            true
        }
    }
}
