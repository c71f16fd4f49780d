//! Two operands compared.

ghost use Rattle.std.specs.Prelude.{◌≡◌, ◌||◌, true, ℕ, List, IfSome, IfOk, IfErr, IsSomeAnd, IsTrue};
ghost use Rattle.cob_copybook_entry.specs.Described.{plain_value};
ghost use Rattle.cob_move_receive.specs.Sent.{Amount, HasAllBytes, amount, sent};
ghost use Rattle.cob_move_receive.specs.Numbers.{ConstantGives, GivesNumber};
ghost use Rattle.cob_move_condition.specs.Comparable.{compares_numbers, is_entry_operand, is_number_constant, is_number_operand, kind_of_sent, may_compare};
ghost use Rattle.cob_move_condition.specs.Compared.{IsCompared, IsWithoutValue, NumbersCompared, TextsCompared};

use crate::characters::{constant_order, entry_beside};
use crate::comparable::{compares_numbers, kind_of};
use crate::numbers::number_order;
use crate::texts::{reversed, text_order};
use cob_copybook_tree::{Figurative, Kind, Value, read_sent};
use cob_decimal::{Digits, Number};
use cob_move_receive::Sent;
use std::cmp::Ordering;

/// Which of two operands that are compared as numbers gives none.
#[derive(Clone, Copy, Debug, PartialEq, Eq)]
pub enum WithoutValue {
    First,
    Second,
}

/// The number that a constant is.
fn constant_number(value: &Value) -> Option<Number>
    requires { IsTrue (is_number_constant (plain_value value.now)) }
    ensures found { IfSome result (λ n. ConstantGives (plain_value value.now) (amount n)) }
    ensures only { (v : Amount)
        → ConstantGives (plain_value value.now) v → IsSomeAnd result (λ n. amount n ≡ v) }
{
    match value {
        Value::Number { number, .. } => Some(number.clone()),
        Value::Figurative(Figurative::Zero) => Some(Number::new(false, Digits::new(), 0)),
        _ => None,
    }
}

/// The number that an operand gives. None exactly where it gives none.
pub(crate) fn number_of_operand(given: &Sent<'_>) -> Option<Number>
    requires bytes { HasAllBytes (sent given.now) }
    requires number { IsTrue (is_number_operand (kind_of_sent (sent given.now))) }
    ensures found { IfSome result (λ n. GivesNumber (sent given.now) (amount n)) }
    ensures only { (v : Amount)
        → GivesNumber (sent given.now) v → IsSomeAnd result (λ n. amount n ≡ v) }
{
    match given {
        Sent::Constant(value) => constant_number(value),
        Sent::Entry {
            kind,
            bytes,
            reading,
        } => match kind {
            Kind::Group => None,
            Kind::Item(item) => read_sent(*reading, item, bytes),
        },
    }
}

/// The order of two numbers that operands give.
///
/// # Errors
///
/// Which of them gives none.
fn compare_numbers(first: &Sent<'_>, second: &Sent<'_>) -> Result<Ordering, WithoutValue>
    requires first { HasAllBytes (sent first.now) }
    requires second { HasAllBytes (sent second.now) }
    requires numbers { compares_numbers (kind_of_sent (sent first.now))
        (kind_of_sent (sent second.now)) ≡ true }
    ensures order { IfOk result (NumbersCompared (sent first.now) (sent second.now)) }
    ensures without { IfErr result (IsWithoutValue (sent first.now) (sent second.now)) }
{
    let Some(one) = number_of_operand(first) else {
        return Err(WithoutValue::First);
    };
    let Some(other) = number_of_operand(second) else {
        return Err(WithoutValue::Second);
    };
    Ok(number_order(&one, &other))
}

/// The order of the characters that two operands give.
fn compare_texts(first: &Sent<'_>, second: &Sent<'_>) -> Ordering
    requires first { HasAllBytes (sent first.now) }
    requires second { HasAllBytes (sent second.now) }
    requires entry { IsTrue (is_entry_operand (kind_of_sent (sent first.now))
        || is_entry_operand (kind_of_sent (sent second.now))) }
    ensures { TextsCompared (sent first.now) (sent second.now) result }
{
    match (*first, *second) {
        (
            Sent::Entry {
                kind,
                bytes,
                reading,
            },
            Sent::Entry {
                kind: other,
                bytes: others,
                reading: by,
            },
        ) => {
            let text = entry_beside(other.is_group(), kind, bytes, reading);
            let beside = entry_beside(kind.is_group(), other, others, by);
            text_order(text.as_slice(), beside.as_slice())
        }
        (
            Sent::Entry {
                kind,
                bytes,
                reading,
            },
            Sent::Constant(value),
        ) => constant_order(entry_beside(false, kind, bytes, reading).as_slice(), value),
        (
            Sent::Constant(value),
            Sent::Entry {
                kind,
                bytes,
                reading,
            },
        ) => reversed(constant_order(entry_beside(false, kind, bytes, reading).as_slice(), value)),
        // The caller has an entry on one side.
        (Sent::Constant(_), Sent::Constant(_)) => Ordering::Equal,
    }
}

/// The order of two operands: the first is less than the second, equal to it or greater.
///
/// # Errors
///
/// Which of two operands that are compared as numbers gives none: the first that doesn't.
pub fn compare(first: &Sent<'_>, second: &Sent<'_>) -> Result<Ordering, WithoutValue>
    requires first { HasAllBytes (sent first.now) }
    requires second { HasAllBytes (sent second.now) }
    requires may { may_compare (kind_of_sent (sent first.now))
        (kind_of_sent (sent second.now)) ≡ true }
    ensures order { IfOk result (IsCompared (sent first.now) (sent second.now)) }
    ensures without { IfErr result (IsWithoutValue (sent first.now) (sent second.now)) }
{
    if compares_numbers(&kind_of(first), &kind_of(second)) {
        return compare_numbers(first, second);
    }
    Ok(compare_texts(first, second))
}
