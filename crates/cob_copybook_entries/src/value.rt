//! What the constants of VALUE clauses mean.

ghost use Rattle.std.specs.Prelude.{◌≡◌, ◌<◌, ◌≤◌, ◌↔◌, false, length, IfOk, IfErr, IsOkAnd, IsTrue, IsFalse};
ghost use Rattle.cob_limits.specs.Limits.{longest_literal};
ghost use Rattle.cob_decimal.specs.Literals.{Literal, AreDigits};
ghost use Rattle.cob_copybook_clauses.specs.Written.{Word, written_value};
ghost use Rattle.cob_copybook_entry.specs.declared.fault.BookRule.TheVariants as rule;
ghost use Rattle.cob_copybook_entry.specs.Described.{PlainValue as Meant, Numeric, plain_value};
ghost use Rattle.cob_copybook_entries.specs.Meaning.{IsConstantOf, IsShortLiteral};
ghost use Rattle.cob_copybook_entries.specs.Parts.{IsLiteralOf, behind_sign, IsUnsigned};
ghost use Rattle.cob_copybook_entries.specs.Breaks.{IsConstantFault};
ghost use Rattle.cob_copybook_entries.specs.Signs.{begins_with_sign};

use cob_copybook_clauses::ValueClause;
use cob_copybook_entry::{BookRule, Text, Value};
use cob_decimal::{Number, are_digits};
use cob_limits::MAX_LITERAL;

/// What a constant of a VALUE clause or a statement means.
///
/// # Errors
///
/// `Grammar` for a word that is no numeric literal; `Value` where a quoted literal is too long, or is empty behind ALL, or a numeric
/// one has too many digits.
pub fn value_of(written: &ValueClause<'_>) -> Result<Value, BookRule>
    ensures found { IfOk result (λ v. IsConstantOf (written_value written.now) (plain_value v)) }
    ensures only { (c : Meant)
        → IsConstantOf (written_value written.now) c → IsOkAnd result (λ v. plain_value v ≡ c) }
    ensures fault { IfErr result (λ r. IsConstantFault r (written_value written.now)) }
{
    match *written {
        ValueClause::Word(text) => Ok(Value::Number {
            signed: is_signed(text),
            number: number_of(text)?,
        }),
        ValueClause::Literal(text) => Ok(Value::Literal(literal_of(text)?)),
        ValueClause::Figurative(figurative) => Ok(Value::Figurative(figurative)),
        ValueClause::All(text) => {
            if text.is_empty() {
                return Err(BookRule::Value);
            }
            Ok(Value::All(literal_of(text)?))
        }
    }
}

/// The number that a word is.
///
/// # Errors
///
/// `Grammar` for a word that is no numeric literal, and `Value` for one of too many digits.
fn number_of(text: &[u8]) -> Result<Number, BookRule>
    ensures found { IfOk result (λ n. IsConstantOf
        (Word text.now) (Numeric (begins_with_sign text.now) n.negative n.digits n.scale)) }
    ensures only { (c : Meant) → IsConstantOf (Word text.now) c → IsOkAnd result
        (λ n. Numeric (begins_with_sign text.now) n.negative n.digits n.scale ≡ c) }
    ensures fault { IfErr result (λ r. IsConstantFault r (Word text.now)) }
{
    match Number::of_text(text) {
        Some(number) => Ok(number),
        None if is_numeric_literal(text) => Err(BookRule::Value),
        None => Err(BookRule::Grammar),
    }
}

/// Whether a text begins with a sign.
fn is_signed(text: &[u8]) -> bool
    ensures { result ≡ begins_with_sign text.now }
{
    matches!(text.first(), Some(b'+' | b'-'))
}

/// Whether a word is a numeric literal, of however many digits.
pub fn is_numeric_literal(text: &[u8]) -> bool
    ensures yes { IsTrue result → (l : Literal) × IsLiteralOf l text.now }
    ensures no { IsFalse result → (l : Literal) → IsLiteralOf l text.now → ⊥ }
{
    is_unsigned(without_sign(text))
}

/// What stands behind the sign of a text, or the whole text.
fn without_sign(text: &[u8]) -> &[u8]
    ensures { result.now ≡ behind_sign text.now }
{
    match text.split_first() {
        Some((b'+' | b'-', behind)) => behind,
        _ => text,
    }
}

/// Whether a text is a numeric literal without a sign: digits, and perhaps a point and digits, or a point and digits.
fn is_unsigned(text: &[u8]) -> bool
    ensures { IsTrue result ↔ IsUnsigned false text.now }
{
    let mut rest = text;
    let mut some = false;
    while let Some((character, behind)) = rest.split_first() {
        if *character == b'.' {
            return is_fraction(behind);
        }
        if !character.is_ascii_digit() {
            return false;
        }
        some = true;
        rest = behind;
    }
    some
}

/// Whether a text is what stands behind a point: digits, and one at least.
fn is_fraction(text: &[u8]) -> bool
    ensures { IsTrue result ↔ (0 < length text.now) × AreDigits text.now }
{
    !text.is_empty() && are_digits(text)
}

/// The characters of a quoted literal.
///
/// # Errors
///
/// `Value` where there are too many.
fn literal_of(text: &[u8]) -> Result<Text, BookRule>
    ensures found { IfOk result (λ t. IsShortLiteral text.now × (t ≡ text.now)) }
    ensures only { IsShortLiteral text.now → IsOkAnd result (λ t. t ≡ text.now) }
    ensures fault { IfErr result (λ r. (r ≡ rule.Value) × (longest_literal < length text.now)) }
{
    if text.len() > MAX_LITERAL {
        return Err(BookRule::Value);
    }
    Ok(Text::of(text))
}
