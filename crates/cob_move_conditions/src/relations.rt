//! Relations.

ghost use Rattle.std.specs.Prelude.{◌≡◌, ◌++◌, IfNone, IfSome};
ghost use Rattle.std.specs.declared.cmp.Ordering.{Ordering as Orders};
ghost use Rattle.cob_copybook_clauses.specs.Reading.{Answers, EachCut, Leaves, StandInFront};
ghost use Rattle.cob_source.specs.Tokens.{lexemes};
ghost use Rattle.cob_move_conditions.specs.declared.relations.Relation.{Relation as Relations};
ghost use Rattle.cob_move_conditions.specs.Relations.{
  IsBehindOpposite,
  IsBehindOrder,
  IsNotOrder,
  IsOppositeWritten,
  IsOrEqual,
  IsOrderWritten,
  IsRelationBy,
  opposite_of_word,
  order_of_word,
};
ghost use Rattle.cob_move_conditions.specs.Fronts.{OperandFirst};

use crate::words::{
    ConditionWord, behind_condition_word, condition_word, without_condition_word, without_word,
};
use cob_copybook_clauses::WordClass;
use cob_source::Token;
use std::cmp::Ordering;

/// A relation of two operands as it is written.
#[derive(Clone, Copy)]
pub struct Relation {
    /// It is the opposite of the order: `<=` is that of greater.
    pub opposite: bool,
    pub order: Ordering,
}

/// The order that a word names.
fn order_of_word(word: Option<ConditionWord>) -> Option<Ordering>
    ensures { result ≡ order_of_word word }
{
    match word? {
        ConditionWord::Equals | ConditionWord::Equal => Some(Ordering::Equal),
        ConditionWord::LessSign | ConditionWord::Less => Some(Ordering::Less),
        ConditionWord::GreaterSign | ConditionWord::Greater => Some(Ordering::Greater),
        _ => None,
    }
}

/// The words without those that may stand behind the word of an order.
fn without_noise(word: Option<ConditionWord>, words: &[Token]) -> &[Token]
    ensures found { StandInFront (IsBehindOrder word) (lexemes words.now) (lexemes result.now) }
    ensures only { EachCut (IsBehindOrder word) OperandFirst
        (lexemes words.now) (λ more. lexemes result.now ≡ more) }
{
    match word {
        Some(ConditionWord::Equal) => without_word(words, WordClass::To),
        Some(ConditionWord::Less) | Some(ConditionWord::Greater) => {
            without_condition_word(words, ConditionWord::Than)
        }
        _ => words,
    }
}

/// The order in front, and what is behind it.
fn order_at(words: &[Token]) -> Option<(Ordering, &[Token])>
    ensures found { IfSome result
        (λ r. StandInFront (IsOrderWritten r.0) (lexemes words.now) (lexemes r.1.now)) }
    ensures only { (order : Orders) → EachCut (IsOrderWritten order) OperandFirst
        (lexemes words.now) (Answers (λ o. o) result order) }
{
    let (first, behind) = words.split_first()?;
    let word = condition_word(first);
    let order = order_of_word(word)?;
    Some((order, without_noise(word, behind)))
}

/// The order whose opposite a word names.
fn opposite_of_word(word: Option<ConditionWord>) -> Option<Ordering>
    ensures { result ≡ opposite_of_word word }
{
    match word? {
        ConditionWord::AtMost | ConditionWord::Less => Some(Ordering::Greater),
        ConditionWord::AtLeast | ConditionWord::Greater => Some(Ordering::Less),
        _ => None,
    }
}

/// The words behind OR EQUAL in front, with THAN before it or TO behind it where these stand there.
fn behind_or_equal(words: &[Token]) -> Option<&[Token]>
    ensures found { IfSome result
        (λ r. StandInFront IsOrEqual (lexemes words.now) (lexemes r.now)) }
    ensures only { EachCut IsOrEqual OperandFirst (lexemes words.now) (Leaves result) }
{
    let either = without_condition_word(words, ConditionWord::Than);
    let equal = behind_condition_word(either, ConditionWord::Or)?;
    let more = behind_condition_word(equal, ConditionWord::Equal)?;
    Some(without_word(more, WordClass::To))
}

/// The words behind what has to stand behind the word of an opposite.
fn behind_opposite(word: Option<ConditionWord>, words: &[Token]) -> Option<&[Token]>
    ensures found { IfSome result
        (λ r. StandInFront (IsBehindOpposite word) (lexemes words.now) (lexemes r.now)) }
    ensures only { EachCut (IsBehindOpposite word) OperandFirst
        (lexemes words.now) (Leaves result) }
{
    match word {
        Some(ConditionWord::Less) | Some(ConditionWord::Greater) => behind_or_equal(words),
        _ => Some(words),
    }
}

/// The order in front whose opposite is said without NOT, and what is behind it.
fn opposite_at(words: &[Token]) -> Option<(Ordering, &[Token])>
    ensures found { IfSome result
        (λ r. StandInFront (IsOppositeWritten r.0) (lexemes words.now) (lexemes r.1.now)) }
    ensures only { (order : Orders) → EachCut (IsOppositeWritten order) OperandFirst
        (lexemes words.now) (Answers (λ o. o) result order) }
{
    let (first, behind) = words.split_first()?;
    let word = condition_word(first);
    let order = opposite_of_word(word)?;
    let more = behind_opposite(word, behind)?;
    Some((order, more))
}

/// The order behind NOT in front, and what is behind it.
fn not_order_at(words: &[Token]) -> Option<(Ordering, &[Token])>
    ensures found { IfSome result
        (λ r. StandInFront (IsNotOrder r.0) (lexemes words.now) (lexemes r.1.now)) }
    ensures only { (order : Orders) → EachCut (IsNotOrder order) OperandFirst
        (lexemes words.now) (Answers (λ o. o) result order) }
{
    let own = behind_condition_word(words, ConditionWord::Not)?;
    let (order, more) = order_at(own)?;
    Some((order, more))
}

/// The relation in front, and what is behind it.
pub(crate) fn relation_at(words: &[Token]) -> Option<(Relation, &[Token])>
    ensures found { IfSome result (λ r. StandInFront
        (IsRelationBy r.0.opposite r.0.order) (lexemes words.now) (lexemes r.1.now)) }
    ensures only { (relation : Relations)
        → EachCut (IsRelationBy relation.opposite relation.order) OperandFirst
        (lexemes words.now) (Answers (λ r. r) result relation) }
{
    if let Some((order, more)) = not_order_at(words) {
        return Some((
            Relation {
                opposite: true,
                order,
            },
            more,
        ));
    }
    if let Some((order, more)) = opposite_at(words) {
        return Some((
            Relation {
                opposite: true,
                order,
            },
            more,
        ));
    }
    let (order, more) = order_at(words)?;
    Some((
        Relation {
            opposite: false,
            order,
        },
        more,
    ))
}
