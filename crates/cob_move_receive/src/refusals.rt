//! The rules that the move of a sender to one receiver keeps.

ghost use Rattle.std.specs.Prelude.{◌≡◌, true, IfNone, IfSome};
ghost use Rattle.std.specs.List.{list_all};
ghost use Rattle.cob_copybook_entry.specs.Described.{plain_value};
ghost use Rattle.cob_move_receive.specs.Table.{sender_kind};
ghost use Rattle.cob_move_receive.specs.Refusals.{is_digit_character, is_refused, is_empty_literal, is_longer_than_number, is_too_long, is_wrong_literal, IsAllowed};

use crate::table::{SenderKind, has_fraction, may_move};
use cob_copybook_tree::{Item, Kind, Value};
use cob_limits::MAX_DIGITS;
use cob_picture::Category;

/// Why the move of a sender to a receiver is refused.
#[derive(Clone, Copy, PartialEq, Eq)]
pub enum Refusal {
    /// The table of categories doesn't have the move (M6).
    NotAllowed,
    /// A literal that isn't as its receiver asks (M7).
    Literal,
    /// An alphanumeric sender of more than 31 characters to a numeric or numeric edited item (M10).
    TooLong,
}

/// Whether each character is a digit.
fn are_digits(text: &[u8]) -> bool
    ensures { result ≡ list_all is_digit_character text.now }
{
    text.iter().all(|character| character.is_ascii_digit())
}

/// Whether a literal has no character.
fn is_empty_literal(text: &[u8]) -> bool
    ensures { result ≡ is_empty_literal text.now }
{
    text.is_empty()
}

/// Whether a literal isn't as its receiver asks.
fn is_wrong_literal(value: &Value, to: &Kind) -> bool
    ensures { result ≡ is_wrong_literal (plain_value value.now) to.now }
{
    match value {
        Value::Number { signed, number } => to.is_group()
            && (*signed || has_fraction(number.scale())),
        Value::Literal(text) => {
            is_empty_literal(text.as_bytes()) || (to.shows_number() && !are_digits(text.as_bytes()))
        }
        Value::Figurative(_) => false,
        Value::All(text) => is_empty_literal(text.as_bytes()),
    }
}

/// Whether an item is alphanumeric, and has more characters than a number has digits.
fn is_longer_than_number(item: &Item) -> bool
    ensures { result ≡ is_longer_than_number item.now.picture.category item.now }
{
    matches!(item.picture.category(), Category::Alphanumeric)
        && usize::from(item.size()) > MAX_DIGITS
}

/// Whether a sender is of characters, and has more than a number has digits.
fn is_too_long(from: &SenderKind<'_>) -> bool
    ensures { result ≡ is_too_long (sender_kind from.now) }
{
    match from {
        SenderKind::Constant(Value::Literal(text)) => text.as_bytes().len() > MAX_DIGITS,
        SenderKind::Entry(Kind::Item(item)) => is_longer_than_number(item),
        SenderKind::Constant(_) | SenderKind::Entry(Kind::Group) => false,
    }
}

/// Whether the literal of a move isn't as its receiver asks.
fn has_wrong_literal(from: &SenderKind<'_>, to: &Kind) -> bool
    ensures { result ≡ is_refused Refusal.Literal (sender_kind from.now) to.now }
{
    match from {
        SenderKind::Constant(value) => is_wrong_literal(value, to),
        SenderKind::Entry(_) => false,
    }
}

/// The rule that the move of a sender to a receiver breaks. None exactly where it breaks none.
pub fn refusal_of(from: &SenderKind<'_>, to: &Kind) -> Option<Refusal>
    ensures broken { IfSome result (λ r. is_refused r (sender_kind from.now) to.now ≡ true) }
    ensures fine { IfNone result (IsAllowed (sender_kind from.now) to.now) }
{
    if to.shows_number() && is_too_long(from) {
        Some(Refusal::TooLong)
    } else if has_wrong_literal(from, to) {
        Some(Refusal::Literal)
    } else if !may_move(from, to) {
        Some(Refusal::NotAllowed)
    } else {
        None
    }
}
