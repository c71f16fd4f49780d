//! The characters that operands give beside each other.

ghost use Rattle.std.specs.Prelude.{◌≡◌, ℕ, List, length};
ghost use Rattle.cob_copybook_entry.specs.Described.{plain_value};
ghost use Rattle.cob_move_receive.specs.Characters.{GivesConstant};
ghost use Rattle.cob_move_receive.specs.Sent.{Occupies};
ghost use Rattle.cob_copybook_tree.specs.declared.node.Kind.TheVariants.{Item as ItemKind};
ghost use Rattle.cob_copybook_tree.specs.Items.{IsStorable};
ghost use Rattle.cob_copybook_tree.specs.Lengths.{item_size};
ghost use Rattle.cob_move_condition.specs.Compared.{GivesBeside, text_order};
ghost use Rattle.cob_move_condition.specs.Given.{text_given};

use crate::numerals::{Numerals, numerals, numerals_to_point};
use crate::texts::{figurative_order, literal_order, repeated_order, text_order};
use cob_codec::Reading;
use cob_copybook_tree::{Item, Kind, Value, is_number, read_sent};
use std::cmp::Ordering;

/// The characters that an entry gives: its bytes, or the digits of its number.
#[derive(Drop)]
pub(crate) enum Characters<'a> {
    Bytes(&'a [u8]),
    Digits(Numerals),
}

impl Characters<'_> {
    /// All of them.
    pub(crate) fn as_slice(&self) -> &[u8]
        ensures { result.now ≡ text_given self.now }
    {
        match self {
            Characters::Bytes(bytes) => bytes,
            Characters::Digits(digits) => digits.as_slice(),
        }
    }
}

/// The characters that an item gives beside a group, or beside anything else.
fn item_beside<'a>(group: bool, item: &Item, bytes: &'a [u8], reading: Reading) -> Characters<'a>
    requires storable { IsStorable item.now }
    requires long { length bytes.now ≡ item_size item.now }
    ensures { GivesBeside group (ItemKind item.now) bytes.now reading (text_given result) }
{
    if group || !is_number(item) {
        return Characters::Bytes(bytes);
    }
    match read_sent(reading.keeping_zones(), item, bytes) {
        Some(number) => Characters::Digits(numerals_to_point(&number)),
        None => Characters::Bytes(bytes),
    }
}

/// The characters that an entry gives beside a group, or beside anything else.
pub(crate) fn entry_beside<'a>(
    group: bool,
    kind: &Kind,
    bytes: &'a [u8],
    reading: Reading,
) -> Characters<'a>
    requires { Occupies kind.now (length bytes.now) }
    ensures { GivesBeside group kind.now bytes.now reading (text_given result) }
{
    match kind {
        Kind::Group => Characters::Bytes(bytes),
        Kind::Item(item) => item_beside(group, item, bytes, reading),
    }
}

/// The order of a text and the characters of a constant beside it.
pub(crate) fn constant_order(text: &[u8], value: &Value) -> Ordering
    ensures { (coded : List ℕ) × GivesConstant (plain_value value.now) (length text.now) coded
        × (result ≡ text_order text.now coded) }
{
    match value {
        Value::Number { number, .. } => text_order(text, numerals(number).as_slice()),
        Value::Literal(literal) => literal_order(text, literal.as_bytes()),
        Value::Figurative(figurative) => figurative_order(text, *figurative),
        Value::All(literal) => repeated_order(text, literal.as_bytes()),
    }
}
