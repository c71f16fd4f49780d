//! Whether parts of two entries are one: names, constants, items and how often an entry occurs.

ghost use Rattle.std.specs.Prelude.{◌≡◌, option_map};
ghost use Rattle.std.specs.Bool.{Decides};
ghost use Rattle.cob_copybook_entry.specs.Described.{plain_value};

use crate::same_pictures::is_same_picture;
use cob_copybook_entry::Name;
use cob_copybook_tree::{Item, Kind, ResolvedOccurs, Sign, Value};
use cob_decimal::Number;

/// Whether two lists of characters or digits are one.
fn are_same_bytes(bytes: &[u8], others: &[u8]) -> bool
    ensures { Decides result (bytes.now ≡ others.now) }
{
    bytes == others
}

/// Whether two names are one, or there is none.
pub(crate) fn is_same_name(name: &Option<Name>, other: &Option<Name>) -> bool
    ensures { Decides result (name.now ≡ other.now) }
{
    match name {
        None => other.is_none(),
        Some(name) => match other {
            None => false,
            Some(other) => are_same_bytes(name.as_bytes(), other.as_bytes()),
        },
    }
}

/// Whether two numbers are one, with the zeros in front that they were written with.
fn is_same_number(number: &Number, other: &Number) -> bool
    ensures { Decides result ((number.now.negative ≡ other.now.negative)
        × (number.now.digits ≡ other.now.digits) × (number.now.scale ≡ other.now.scale)) }
{
    number.negative() == other.negative()
        && number.scale() == other.scale()
        && are_same_bytes(number.digits().as_slice(), other.digits().as_slice())
}

/// Whether two constants are one.
fn is_same_constant(value: &Value, other: &Value) -> bool
    ensures { Decides result (plain_value value.now ≡ plain_value other.now) }
{
    match (value, other) {
        (
            Value::Number { signed, number },
            Value::Number {
                signed: also,
                number: second,
            },
        ) => { *signed == *also && is_same_number(number, second) }
        (Value::Literal(text), Value::Literal(second)) => {
            are_same_bytes(text.as_bytes(), second.as_bytes())
        }
        (Value::Figurative(figurative), Value::Figurative(second)) => *figurative == *second,
        (Value::All(text), Value::All(second)) => are_same_bytes(
            text.as_bytes(),
            second.as_bytes(),
        ),
        _ => false,
    }
}

/// Whether two values are one, or there is none.
pub(crate) fn is_same_value(value: &Option<Value>, other: &Option<Value>) -> bool
    ensures { Decides result (option_map plain_value value.now ≡ option_map plain_value other.now) }
{
    match value {
        None => other.is_none(),
        Some(value) => match other {
            None => false,
            Some(other) => is_same_constant(value, other),
        },
    }
}

/// Whether a sign stands at the same place, or there is none.
fn is_same_sign(sign: Option<Sign>, other: Option<Sign>) -> bool
    ensures { Decides result (sign ≡ other) }
{
    match (sign, other) {
        (None, None) => true,
        (Some(sign), Some(other)) => {
            sign.leading == other.leading && sign.separate == other.separate
        }
        _ => false,
    }
}

/// Whether two items are one.
pub fn is_same_item(item: &Item, other: &Item) -> bool
    ensures { Decides result (item.now ≡ other.now) }
{
    is_same_picture(&item.picture, &other.picture)
        && item.usage == other.usage
        && is_same_sign(item.sign, other.sign)
        && item.justified == other.justified
        && item.blank == other.blank
}

/// Whether two entries describe the same: a group, or one item.
pub(crate) fn is_same_kind(kind: &Kind, other: &Kind) -> bool
    ensures { Decides result (kind.now ≡ other.now) }
{
    match (kind, other) {
        (Kind::Group, Kind::Group) => true,
        (Kind::Item(item), Kind::Item(other)) => is_same_item(item, other),
        _ => false,
    }
}

/// Whether two entries occur as often, and if they vary, by the count of the same entry.
pub(crate) fn is_same_number_of(occurs: ResolvedOccurs, other: ResolvedOccurs) -> bool
    ensures { Decides result (occurs ≡ other) }
{
    match (occurs, other) {
        (ResolvedOccurs::Once, ResolvedOccurs::Once) => true,
        (ResolvedOccurs::Fixed(times), ResolvedOccurs::Fixed(second)) => times == second,
        (
            ResolvedOccurs::Varying { least, most, count },
            ResolvedOccurs::Varying {
                least: low,
                most: high,
                count: by,
            },
        ) => least == low && most == high && count == by,
        _ => false,
    }
}
