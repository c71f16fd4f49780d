//! Conditions, with what joins them.

ghost use Rattle.std.specs.Prelude.{◌≡◌, IfErr, IfOk, IfSome, IsSomeAnd};
ghost use Rattle.cob_copybook_clauses.specs.Reading.{Answers, EachCut, NotFirstWord};
ghost use Rattle.cob_copybook_clauses.specs.declared.term.WordClass.TheVariants as term;
ghost use Rattle.cob_source.specs.Tokens.{lexemes};
ghost use Rattle.cob_move_loops.specs.Words.{first_line};
ghost use Rattle.cob_move_statements.specs.Reading.{IsOrLacksMemory};
ghost use Rattle.cob_move_statements.specs.declared.fault.MoveRule.TheVariants.{Grammar, Memory};
ghost use Rattle.cob_move_conditions.specs.Conditions.{Alone, ByAnd, ByNot, ByOr, IsWholeCondition, IsConditionBy};
ghost use Rattle.cob_move_conditions.specs.Reading.{AnswersCondition, ConditionInFront, EndsTest, RefusesCondition};
ghost use Rattle.cob_move_conditions.specs.Written.{
  BehindNot,
  InBrackets,
  WithAnd,
  WithOr,
  WrittenCondition,
  written_condition,
};

use crate::phrases::{ConditionPhrase, TestPhrase};
use crate::tests::{related_at, test_at};
use crate::words::{ConditionWord, behind_condition_word};
use cob_copybook_clauses::{WordClass, behind};
use cob_move_loops::first_line;
use cob_move_statements::{MoveFault, MoveRule};
use cob_source::Token;
use std::alloc::{AllocError, Global};

/// A condition in brackets.
///
/// # Errors
///
/// Memory was refused.
fn in_brackets(alloc: Global, inner: ConditionPhrase<'_>) -> Result<ConditionPhrase<'_>, AllocError>
    ensures { IfOk result (λ c. written_condition c ≡ InBrackets (written_condition inner.entry)) }
{
    Ok(ConditionPhrase::InBrackets(Box::new(alloc, inner)?))
}

/// A condition behind NOT.
///
/// # Errors
///
/// Memory was refused.
fn behind_not(alloc: Global, inner: ConditionPhrase<'_>) -> Result<ConditionPhrase<'_>, AllocError>
    ensures { IfOk result (λ c. written_condition c ≡ BehindNot (written_condition inner.entry)) }
{
    Ok(ConditionPhrase::BehindNot(Box::new(alloc, inner)?))
}

/// Two conditions with AND between them.
///
/// # Errors
///
/// Memory was refused.
fn with_and<'a>(
    alloc: Global,
    first: ConditionPhrase<'a>,
    second: ConditionPhrase<'a>,
) -> Result<ConditionPhrase<'a>, AllocError>
    ensures { IfOk result (λ c. written_condition c
        ≡ WithAnd (written_condition first.entry) (written_condition second.entry)) }
{
    let first = Box::new(alloc, first)?;
    let second = Box::new(alloc, second)?;
    Ok(ConditionPhrase::WithAnd(first, second))
}

/// Two conditions with OR between them.
///
/// # Errors
///
/// Memory was refused.
fn with_or<'a>(
    alloc: Global,
    first: ConditionPhrase<'a>,
    second: ConditionPhrase<'a>,
) -> Result<ConditionPhrase<'a>, AllocError>
    ensures { IfOk result (λ c. written_condition c
        ≡ WithOr (written_condition first.entry) (written_condition second.entry)) }
{
    let first = Box::new(alloc, first)?;
    let second = Box::new(alloc, second)?;
    Ok(ConditionPhrase::WithOr(first, second))
}

/// The simple condition in front, and what is behind it.
fn simple_at(words: &[Token]) -> Option<(ConditionPhrase<'_>, &[Token])>
    requires { NotFirstWord term.OpenBracket (lexemes words.now) }
    ensures found { IfSome result
        (λ r. ConditionInFront Alone r.0 (lexemes words.now) (lexemes r.1.now)) }
    ensures only { (c : WrittenCondition) → EachCut (IsConditionBy Alone c) EndsTest
        (lexemes words.now) (Answers written_condition result c) }
{
    let (test, more) = test_at(words)?;
    Some((ConditionPhrase::Simple(test), more))
}

/// The condition in front that is a simple one or stands in brackets, and what is behind it.
///
/// # Errors
///
/// Memory was refused.
#[cycle(reading)]
fn single_at(
    alloc: Global,
    words: &[Token],
) -> Result<Option<(ConditionPhrase<'_>, &[Token])>, AllocError>
    ensures found { IfOk result
        (λ o. IfSome o (λ r. ConditionInFront Alone r.0 (lexemes words.now) (lexemes r.1.now))) }
    ensures only { AnswersCondition result Alone (lexemes words.now) }
{
    let Some(inside) = behind(words, WordClass::OpenBracket) else {
        return Ok(simple_at(words));
    };
    let Some((inner, rest)) = condition_at(alloc, inside)? else {
        return Ok(None);
    };
    let Some(more) = behind(rest, WordClass::CloseBracket) else {
        return Ok(None);
    };
    let condition = in_brackets(alloc, inner)?;
    Ok(Some((condition, more)))
}

/// The condition in front that may stand behind NOT, and what is behind it.
///
/// # Errors
///
/// Memory was refused.
#[cycle(reading)]
fn negated_at(
    alloc: Global,
    words: &[Token],
) -> Result<Option<(ConditionPhrase<'_>, &[Token])>, AllocError>
    ensures found { IfOk result
        (λ o. IfSome o (λ r. ConditionInFront ByNot r.0 (lexemes words.now) (lexemes r.1.now))) }
    ensures only { AnswersCondition result ByNot (lexemes words.now) }
{
    if let Some((relation, operand, more)) = related_at(words) {
        let test = TestPhrase::RelatesTo(relation, operand);
        return Ok(Some((ConditionPhrase::Simple(test), more)));
    }
    let Some(own) = behind_condition_word(words, ConditionWord::Not) else {
        return single_at(alloc, words);
    };
    let Some((inner, more)) = single_at(alloc, own)? else {
        return Ok(None);
    };
    let condition = behind_not(alloc, inner)?;
    Ok(Some((condition, more)))
}

/// The condition in front that AND may join, and what is behind it.
///
/// # Errors
///
/// Memory was refused.
#[cycle(reading)]
fn conjunction_at(
    alloc: Global,
    words: &[Token],
) -> Result<Option<(ConditionPhrase<'_>, &[Token])>, AllocError>
    ensures found { IfOk result
        (λ o. IfSome o (λ r. ConditionInFront ByAnd r.0 (lexemes words.now) (lexemes r.1.now))) }
    ensures only { AnswersCondition result ByAnd (lexemes words.now) }
{
    let Some((first, behind)) = negated_at(alloc, words)? else {
        return Ok(None);
    };
    let mut joined = first;
    let mut rest = behind;
    while let Some(own) = behind_condition_word(rest, ConditionWord::And) {
        let Some((next, more)) = negated_at(alloc, own)? else {
            return Ok(None);
        };
        joined = with_and(alloc, joined, next)?;
        rest = more;
    }
    Ok(Some((joined, rest)))
}

/// The condition in front, and what is behind it.
///
/// # Errors
///
/// Memory was refused.
#[cycle(reading)]
fn condition_at(
    alloc: Global,
    words: &[Token],
) -> Result<Option<(ConditionPhrase<'_>, &[Token])>, AllocError>
    ensures found { IfOk result
        (λ o. IfSome o (λ r. ConditionInFront ByOr r.0 (lexemes words.now) (lexemes r.1.now))) }
    ensures only { AnswersCondition result ByOr (lexemes words.now) }
{
    let Some((first, behind)) = conjunction_at(alloc, words)? else {
        return Ok(None);
    };
    let mut joined = first;
    let mut rest = behind;
    while let Some(own) = behind_condition_word(rest, ConditionWord::Or) {
        let Some((next, more)) = conjunction_at(alloc, own)? else {
            return Ok(None);
        };
        joined = with_or(alloc, joined, next)?;
        rest = more;
    }
    Ok(Some((joined, rest)))
}

/// The most words of a condition.
const MAX_CONDITION_WORDS: usize = 2_000;

/// The condition that words are, if they are one.
///
/// # Errors
///
/// Memory was refused.
fn whole_condition(
    alloc: Global,
    words: &[Token],
) -> Result<Option<ConditionPhrase<'_>>, AllocError>
    ensures found { IfOk result
        (λ o. IfSome o (λ c. IsWholeCondition (written_condition c) (lexemes words.now))) }
    ensures only { (c : WrittenCondition) → IsWholeCondition c (lexemes words.now)
        → IfOk result (λ o. IsSomeAnd o (λ d. written_condition d ≡ c)) }
{
    if words.len() > MAX_CONDITION_WORDS {
        return Ok(None);
    }
    let Some((condition, more)) = condition_at(alloc, words)? else {
        return Ok(None);
    };
    if !more.is_empty() {
        return Ok(None);
    }
    Ok(Some(condition))
}

/// The condition that words are.
///
/// # Errors
///
/// The words are no condition (M1), on the line of the first of them; or memory was refused.
pub fn condition(alloc: Global, words: &[Token]) -> Result<ConditionPhrase<'_>, MoveFault>
    // What is read is what the words say.
    ensures found { IfOk result (λ c. IsWholeCondition (written_condition c) (lexemes words.now)) }
    // The words of a condition are read, memory aside, and say nothing else.
    ensures only { (c : WrittenCondition) → IsWholeCondition c (lexemes words.now)
        → IsOrLacksMemory (λ d. written_condition d ≡ c) result }
    // A refusal is for want of memory, or the words are no condition.
    ensures fault { IfErr result (RefusesCondition (lexemes words.now)) }
{
    match whole_condition(alloc, words)? {
        Some(condition) => Ok(condition),
        None => Err(MoveFault {
            rule: MoveRule::Grammar,
            line: first_line(words),
        }),
    }
}
