//! Which operands are compared by their values, and which may be compared at all.

ghost use Rattle.std.specs.Prelude.{◌≡◌};
ghost use Rattle.cob_copybook_entry.specs.Described.{plain_value};
ghost use Rattle.cob_move_receive.specs.Sent.{sent};
ghost use Rattle.cob_move_receive.specs.Table.{sender_kind, has_fraction};
ghost use Rattle.cob_move_condition.specs.Comparable.{compares_numbers, has_characters_beside, has_characters_constant, have_characters, is_entry_operand, is_group_operand, is_number_constant, is_number_operand, is_whole_display, kind_of_sent, may_compare};

use cob_copybook_tree::{Figurative, Item, Kind, Value, is_number};
use cob_move_receive::{SenderKind, Sent};

/// What is known of an operand before a record comes.
pub(crate) fn kind_of<'a>(given: &Sent<'a>) -> SenderKind<'a>
    ensures { sender_kind result ≡ kind_of_sent (sent given.now) }
{
    match *given {
        Sent::Entry { kind, .. } => SenderKind::Entry(kind),
        Sent::Constant(value) => SenderKind::Constant(value),
    }
}

/// Whether a constant is a number: a numeric literal, or ZERO.
fn is_number_constant(value: &Value) -> bool
    ensures { result ≡ is_number_constant (plain_value value.now) }
{
    match value {
        Value::Number { .. } => true,
        Value::Literal(_) | Value::All(_) => false,
        Value::Figurative(figurative) => matches!(figurative, Figurative::Zero),
    }
}

/// Whether an operand is a number.
pub(crate) fn is_number_operand(operand: &SenderKind<'_>) -> bool
    ensures { result ≡ is_number_operand (sender_kind operand.now) }
{
    match operand {
        SenderKind::Entry(Kind::Group) => false,
        SenderKind::Entry(Kind::Item(item)) => is_number(item),
        SenderKind::Constant(value) => is_number_constant(value),
    }
}

/// Whether two operands are compared by their values.
pub(crate) fn compares_numbers(first: &SenderKind<'_>, second: &SenderKind<'_>) -> bool
    ensures { result ≡ compares_numbers (sender_kind first.now) (sender_kind second.now) }
{
    is_number_operand(first) && is_number_operand(second)
}

/// Whether an operand is a group.
fn is_group_operand(operand: &SenderKind<'_>) -> bool
    ensures { result ≡ is_group_operand (sender_kind operand.now) }
{
    matches!(operand, SenderKind::Entry(Kind::Group))
}

/// Whether an operand is an entry.
fn is_entry_operand(operand: &SenderKind<'_>) -> bool
    ensures { result ≡ is_entry_operand (sender_kind operand.now) }
{
    matches!(operand, SenderKind::Entry(_))
}

/// Whether a number has places behind the point.
fn has_fraction(scale: i8) -> bool
    ensures { result ≡ has_fraction scale }
{
    scale > 0
}

/// Whether an item's digits are characters, and none of them stands behind the point.
fn is_whole_display(item: &Item) -> bool
    ensures { result ≡ is_whole_display item.now }
{
    item.usage.is_display() && !has_fraction(item.picture.scale())
}

/// Whether a constant has characters.
fn has_characters_constant(value: &Value) -> bool
    ensures { result ≡ has_characters_constant (plain_value value.now) }
{
    match value {
        Value::Number { signed, number } => !*signed && !has_fraction(number.scale()),
        Value::Literal(_) | Value::Figurative(_) | Value::All(_) => true,
    }
}

/// Whether an operand has characters beside a group, or beside anything else.
fn has_characters_beside(group: bool, operand: &SenderKind<'_>) -> bool
    ensures { result ≡ has_characters_beside group (sender_kind operand.now) }
{
    match operand {
        SenderKind::Entry(Kind::Group) => true,
        SenderKind::Entry(Kind::Item(item)) => group
            || (!is_number(item) || is_whole_display(item)),
        SenderKind::Constant(value) => has_characters_constant(value),
    }
}

/// Whether two operands have characters beside each other.
fn have_characters(first: &SenderKind<'_>, second: &SenderKind<'_>) -> bool
    ensures { result ≡ have_characters (sender_kind first.now) (sender_kind second.now) }
{
    has_characters_beside(is_group_operand(second), first)
        && has_characters_beside(is_group_operand(first), second)
}

/// Whether two operands may be compared: one of them is an entry, and both are numbers or have characters. (ANSI X3.23-1985, Nucleus: relation conditions.)
pub fn may_compare(first: &SenderKind<'_>, second: &SenderKind<'_>) -> bool
    ensures { result ≡ may_compare (sender_kind first.now) (sender_kind second.now) }
{
    (is_entry_operand(first) || is_entry_operand(second))
        && (compares_numbers(first, second) || have_characters(first, second))
}
