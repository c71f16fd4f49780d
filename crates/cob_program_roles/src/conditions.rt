//! Whether two texts have the same condition-names.

ghost use Rattle.std.specs.Prelude.{◌≡◌, List, map, IfNone, IfOk, IfSome};
ghost use Rattle.std.specs.Bool.{Decides};
ghost use Rattle.cob_copybook_conditions.specs.Names.{
  AreConditionNamesOf,
  PlainConditionName,
  plain_condition_name,
  plain_condition_names,
  plain_span,
};
ghost use Rattle.cob_copybook_entry.specs.Described.{plain_value};
ghost use Rattle.cob_program_roles.specs.Named.{HaveSameConditionNames};

use crate::reading::is_memory;
use cob_copybook_conditions::{ConditionName, Span, condition_names};
use cob_copybook_entry::Value;
use cob_decimal::Number;
use std::alloc::{AllocError, Global};

/// Whether two lists of characters or digits are one.
fn are_same_bytes(bytes: &[u8], others: &[u8]) -> bool
    ensures { Decides result (bytes.now ≡ others.now) }
{
    bytes == others
}

/// Whether two numbers are one, with the zeros in front that they were written with.
fn is_same_number(number: &Number, other: &Number) -> bool
    ensures { Decides result ((number.now.negative ≡ other.now.negative)
        × (number.now.digits ≡ other.now.digits) × (number.now.scale ≡ other.now.scale)) }
{
    number.negative() == other.negative()
        && number.scale() == other.scale()
        && are_same_bytes(number.digits().as_slice(), other.digits().as_slice())
}

/// Whether two constants are one.
fn is_same_constant(value: &Value, other: &Value) -> bool
    ensures { Decides result (plain_value value.now ≡ plain_value other.now) }
{
    match (value, other) {
        (
            Value::Number { signed, number },
            Value::Number {
                signed: also,
                number: second,
            },
        ) => { *signed == *also && is_same_number(number, second) }
        (Value::Literal(text), Value::Literal(second)) => {
            are_same_bytes(text.as_bytes(), second.as_bytes())
        }
        (Value::Figurative(figurative), Value::Figurative(second)) => *figurative == *second,
        (Value::All(text), Value::All(second)) => are_same_bytes(
            text.as_bytes(),
            second.as_bytes(),
        ),
        _ => false,
    }
}

/// Whether two values of a condition-name are one, or the values from one to another.
fn is_same_span(span: &Span, other: &Span) -> bool
    ensures { Decides result (plain_span span.now ≡ plain_span other.now) }
{
    match (span, other) {
        (Span::One(value), Span::One(second)) => is_same_constant(value, second),
        (Span::FromTo(low, high), Span::FromTo(least, most)) => {
            is_same_constant(low, least) && is_same_constant(high, most)
        }
        _ => false,
    }
}

/// Whether the values of two condition-names are one list.
fn are_same_spans(spans: &[Span], others: &[Span]) -> bool
    ensures { Decides result (map plain_span spans.now ≡ map plain_span others.now) }
{
    let mut rest = others;
    for span in spans {
        let Some((other, after)) = rest.split_first() else {
            return false;
        };
        if !is_same_span(span, other) {
            return false;
        }
        rest = after;
    }
    rest.is_empty()
}

/// Whether two condition-names are one: behind one entry, with one name and the same values.
fn is_same_condition_name(name: &ConditionName, other: &ConditionName) -> bool
    ensures { Decides result (plain_condition_name name.now ≡ plain_condition_name other.now) }
{
    name.entry == other.entry
        && are_same_bytes(name.name.as_bytes(), other.name.as_bytes())
        && are_same_spans(name.values.as_slice(), other.values.as_slice())
}

/// Whether two lists of condition-names are one.
fn are_same_condition_names(names: &[ConditionName], others: &[ConditionName]) -> bool
    ensures { Decides result (plain_condition_names names.now ≡ plain_condition_names others.now) }
{
    let mut rest = others;
    for name in names {
        let Some((other, after)) = rest.split_first() else {
            return false;
        };
        if !is_same_condition_name(name, other) {
            return false;
        }
        rest = after;
    }
    rest.is_empty()
}

/// The condition-names of a text, if it is one of entries.
///
/// # Errors
///
/// Where no memory is left.
fn names_of(alloc: Global, text: &[u8]) -> Result<Option<Vec<ConditionName>>, AllocError>
    ensures found { IfOk result (λ o. IfSome o (λ v. AreConditionNamesOf text.now (plain_condition_names v.items))) }
    ensures one { IfOk result (λ o. IfSome o (λ v. (ns : List PlainConditionName)
        → AreConditionNamesOf text.now ns → plain_condition_names v.items ≡ ns)) }
    ensures none { IfOk result (λ o. IfNone o ((ns : List PlainConditionName)
        → AreConditionNamesOf text.now ns → ⊥)) }
{
    match condition_names(alloc, text) {
        Ok(names) => Ok(Some(names)),
        Err(fault) => {
            if is_memory(fault.rule) {
                return Err(AllocError);
            }
            Ok(None)
        }
    }
}

/// Whether a text has these condition-names.
///
/// # Errors
///
/// Where no memory is left.
fn has_names(alloc: Global, names: &[ConditionName], text: &[u8]) -> Result<bool, AllocError>
    ensures { IfOk result (λ yes. Decides yes (AreConditionNamesOf text.now (plain_condition_names names.now))) }
{
    match names_of(alloc, text)? {
        Some(own) => Ok(are_same_condition_names(names, own.as_slice())),
        None => Ok(false),
    }
}

/// Whether two texts have the same condition-names: behind the same entries, with the same names and values.
///
/// # Errors
///
/// Where no memory is left.
pub(crate) fn have_same_condition_names(
    alloc: Global,
    text: &[u8],
    named: &[u8],
) -> Result<bool, AllocError>
    ensures { IfOk result (λ yes. Decides yes (HaveSameConditionNames text.now named.now)) }
{
    match names_of(alloc, text)? {
        Some(names) => has_names(alloc, names.as_slice(), named),
        None => Ok(false),
    }
}
