//! Simple conditions.

ghost use Rattle.std.specs.Prelude.{◌≡◌, ◌++◌, Bool, IfSome, List, Some};
ghost use Rattle.cob_copybook_clauses.specs.Reading.{Answers, EachCut, NotFirstWord, StandInFront};
ghost use Rattle.cob_copybook_clauses.specs.declared.term.WordClass.TheVariants as term;
ghost use Rattle.cob_source.specs.Tokens.{Lexeme, lexeme, lexemes};
ghost use Rattle.cob_move_statements.specs.Written.{WrittenSender, written_sender};
ghost use Rattle.cob_move_conditions.specs.Fronts.{NotConditionWordFirst};
ghost use Rattle.cob_move_conditions.specs.declared.words.ConditionWord.TheVariants.{Not};
ghost use Rattle.cob_move_conditions.specs.declared.phrases.Quality.{Quality as Qualities};
ghost use Rattle.cob_move_conditions.specs.declared.relations.Relation.{Relation as Relations};
ghost use Rattle.cob_move_conditions.specs.Conditions.{
  BeginsWithOperand,
  IsNegation,
  IsQualified,
  IsQualityWord,
  IsRelated,
  GoesBehind,
  quality_of_word,
};
ghost use Rattle.cob_move_conditions.specs.Reading.{AnswersQualified, AnswersQuality, AnswersRelated, EndsTest, QualifiedBehind};
ghost use Rattle.cob_move_conditions.specs.Written.{WrittenTest, written_test};

use crate::operands::operand_at;
use crate::phrases::{Quality, TestPhrase};
use crate::relations::{Relation, relation_at};
use crate::words::{ConditionWord, behind_condition_word, condition_word, without_word};
use cob_copybook_clauses::{WordClass, is_term};
use cob_move_condition::Class;
use cob_move_statements::StatementSender;
use cob_source::Token;
use std::cmp::Ordering;

/// The relation in front and the operand behind it, and what is behind that.
pub(crate) fn related_at(words: &[Token]) -> Option<(Relation, StatementSender<'_>, &[Token])>
    ensures found { IfSome result (λ r. StandInFront (IsRelated r.0 (written_sender r.1))
        (lexemes words.now) (lexemes r.2.now)) }
    ensures only { (relation : Relations) (s : WrittenSender) (ws more : List Lexeme)
        → IsRelated relation s ws → NotFirstWord term.Of more → NotFirstWord term.OpenBracket more
        → lexemes words.now ≡ ws ++ more → AnswersRelated result relation s more }
{
    let related = without_word(words, WordClass::Is);
    let (relation, compared) = relation_at(related)?;
    let (operand, more) = operand_at(compared)?;
    Some((relation, operand, more))
}

/// The class or the sign that a word of conditions names.
fn quality_of_word(word: Option<ConditionWord>) -> Option<Quality>
    ensures { result ≡ quality_of_word word }
{
    match word? {
        ConditionWord::Numeric => Some(Quality::Class(Class::Numeric)),
        ConditionWord::Alphabetic => Some(Quality::Class(Class::Alphabetic)),
        ConditionWord::AlphabeticLower => Some(Quality::Class(Class::AlphabeticLower)),
        ConditionWord::AlphabeticUpper => Some(Quality::Class(Class::AlphabeticUpper)),
        ConditionWord::Positive => Some(Quality::Sign(Ordering::Greater)),
        ConditionWord::Negative => Some(Quality::Sign(Ordering::Less)),
        _ => None,
    }
}

/// The class or the sign that a word names.
fn quality_of(word: &Token) -> Option<Quality>
    ensures found { IfSome result (λ q. IsQualityWord q (lexeme word.now)) }
    ensures only { (q : Qualities) → IsQualityWord q (lexeme word.now) → result ≡ Some q }
{
    if is_term(word, WordClass::Zero) {
        return Some(Quality::Sign(Ordering::Equal));
    }
    quality_of_word(condition_word(word))
}

/// Whether NOT stands in front, and what is behind it.
fn negation_at(words: &[Token]) -> (bool, &[Token])
    ensures found { StandInFront (IsNegation result.0) (lexemes words.now) (lexemes result.1.now) }
    ensures only { (opposite : Bool) → EachCut (IsNegation opposite) (NotConditionWordFirst Not)
        (lexemes words.now) (λ more. (result.0 ≡ opposite) × (lexemes result.1.now ≡ more)) }
{
    match behind_condition_word(words, ConditionWord::Not) {
        Some(more) => (true, more),
        None => (false, words),
    }
}

/// The class or the sign in front, and what is behind it.
fn quality_at(words: &[Token]) -> Option<(bool, Quality, &[Token])>
    ensures found { IfSome result
        (λ r. StandInFront (IsQualified r.0 r.1) (lexemes words.now) (lexemes r.2.now)) }
    ensures only { (opposite : Bool) (quality : Qualities) (ws more : List Lexeme)
        → IsQualified opposite quality ws → lexemes words.now ≡ ws ++ more
        → AnswersQualified result opposite quality more }
{
    let (opposite, named) = negation_at(without_word(words, WordClass::Is));
    let (first, more) = named.split_first()?;
    let quality = quality_of(first)?;
    Some((opposite, quality, more))
}

/// The simple condition whose first operand this is, where a class or a sign stands in front, and what is behind it.
fn with_quality<'a>(
    first: StatementSender<'a>,
    words: &'a [Token],
) -> Option<(TestPhrase<'a>, &'a [Token])>
    ensures found { IfSome result (λ r. StandInFront
        (QualifiedBehind (written_sender first.entry) (written_test r.0)) (lexemes words.now)
        (lexemes r.1.now)) }
    ensures only { AnswersQuality result (written_sender first.entry) (lexemes words.now) }
{
    let StatementSender::Reference(entry) = first else {
        return None;
    };
    let (opposite, quality, more) = quality_at(words)?;
    Some((
        TestPhrase::Has {
            entry,
            opposite,
            quality,
        },
        more,
    ))
}

/// The simple condition that begins with an operand before these words, and what is behind it.
fn test_behind<'a>(
    first: StatementSender<'a>,
    words: &'a [Token],
) -> Option<(TestPhrase<'a>, &'a [Token])>
    ensures found { IfSome result (λ r. StandInFront
        (GoesBehind (written_sender first.entry) (written_test r.0)) (lexemes words.now)
        (lexemes r.1.now)) }
    ensures only { (t : WrittenTest) → EachCut (GoesBehind (written_sender first.entry) t) EndsTest
        (lexemes words.now) (Answers written_test result t) }
{
    if let Some((relation, second, more)) = related_at(words) {
        return Some((TestPhrase::Relates(first, relation, second), more));
    }
    if let Some((test, more)) = with_quality(first, words) {
        return Some((test, more));
    }
    Some((TestPhrase::StandsAlone(first), words))
}

/// The simple condition in front that begins with an operand, and what is behind it.
pub(crate) fn test_at(words: &[Token]) -> Option<(TestPhrase<'_>, &[Token])>
    ensures found { IfSome result (λ r. StandInFront (BeginsWithOperand (written_test r.0))
        (lexemes words.now) (lexemes r.1.now)) }
    ensures only { (t : WrittenTest) → EachCut (BeginsWithOperand t) EndsTest
        (lexemes words.now) (Answers written_test result t) }
{
    let (first, behind) = operand_at(words)?;
    let (test, more) = test_behind(first, behind)?;
    Some((test, more))
}
