//! The values of a condition-name.

ghost use Rattle.std.specs.Prelude.{◌≡◌, ◌++◌, List, map, IfOk, IfSome, IsSomeAnd};
ghost use Rattle.cob_source.specs.Tokens.{Lexeme, lexemes};
ghost use Rattle.cob_copybook_entry.specs.Described.{PlainValue, plain_value};
ghost use Rattle.cob_copybook_clauses.specs.Reading.{Answers, EachCut, StandInFront};
ghost use Rattle.cob_copybook_conditions.specs.Names.{PlainSpan, plain_span};
ghost use Rattle.cob_copybook_conditions.specs.Reading.{AreSpansMeant, IsSpanMeant, IsValueMeant, NotThroughFirst};

use crate::words::behind_through;
use cob_copybook_clauses::constant_at;
use cob_copybook_entries::value_of;
use cob_copybook_entry::Value;
use cob_source::Token;
use std::alloc::{AllocError, Global};

/// A value of a condition-name, or two with THROUGH between them: all from the one to the other.
#[derive(Drop)]
pub enum Span {
    One(Value),
    FromTo(Value, Value),
}

/// The value in front, and what is behind it.
fn value_at(words: &[Token]) -> Option<(Value, &[Token])>
    ensures found { IfSome result
        (λ r. StandInFront (IsValueMeant (plain_value r.0)) (lexemes words.now) (lexemes r.1.now)) }
    ensures only { (c : PlainValue) (ws more : List Lexeme)
        → IsValueMeant c ws → lexemes words.now ≡ ws ++ more → Answers plain_value result c more }
{
    let (constant, more) = constant_at(words)?;
    match value_of(&constant) {
        Ok(value) => Some((value, more)),
        Err(_) => None,
    }
}

/// The value in front, or two with THROUGH between them, and what is behind.
fn span_at(words: &[Token]) -> Option<(Span, &[Token])>
    ensures found { IfSome result
        (λ r. StandInFront (IsSpanMeant (plain_span r.0)) (lexemes words.now) (lexemes r.1.now)) }
    ensures only { (s : PlainSpan) → EachCut (IsSpanMeant s) NotThroughFirst
        (lexemes words.now) (Answers plain_span result s) }
{
    let (first, more) = value_at(words)?;
    let Some(through) = behind_through(more) else {
        return Some((Span::One(first), more));
    };
    let (last, rest) = value_at(through)?;
    Some((Span::FromTo(first, last), rest))
}

/// The values that these words are, one behind another; `None` where they are none.
///
/// # Errors
/// Want of memory.
pub(crate) fn spans_of(alloc: Global, words: &[Token]) -> Result<Option<Vec<Span>>, AllocError>
    ensures found { IfOk result (λ values. IfSome values
        (λ v. AreSpansMeant (map plain_span v.items) (lexemes words.now))) }
    ensures only { (ss : List PlainSpan) → AreSpansMeant ss (lexemes words.now)
        → IfOk result (λ values. IsSomeAnd values (λ v. map plain_span v.items ≡ ss)) }
{
    let mut values: Vec<Span> = Vec::new(alloc);
    let mut rest = words;
    while !rest.is_empty() {
        let Some((value, more)) = span_at(rest) else {
            return Ok(None);
        };
        values.push(value)?;
        rest = more;
    }
    Ok(Some(values))
}
