//! The words of conditions.

ghost use Rattle.std.specs.Prelude.{◌≡◌, ◌↔◌, ◌∷◌, List, IfSome, IsSomeAnd, IsTrue, Some};
ghost use Rattle.cob_copybook_clauses.specs.Clauses.{IsOptionalWord};
ghost use Rattle.cob_copybook_clauses.specs.Reading.{EachCut, NotFirstWord, StandInFront};
ghost use Rattle.cob_source.specs.Tokens.{Lexeme, lexeme, lexemes};
ghost use Rattle.cob_move_conditions.specs.Fronts.{NotConditionWordFirst};
ghost use Rattle.cob_move_conditions.specs.Words.{
  IsConditionWord,
  IsPerhapsWord,
  class_word_in,
  condition_word,
  condition_word_in,
  joining_word_in,
};

use cob_copybook_clauses::{WordClass, behind, word_class};
use cob_source::Token;

/// A word of conditions, which is no name in one.
#[derive(Clone, Copy, PartialEq, Eq)]
pub enum ConditionWord {
    /// AND.
    And,
    /// OR.
    Or,
    /// NOT.
    Not,
    /// `=` or EQUALS.
    Equals,
    /// EQUAL, which may have TO behind it.
    Equal,
    /// `<`.
    LessSign,
    /// LESS, which may have THAN behind it.
    Less,
    /// `>`.
    GreaterSign,
    /// GREATER, which may have THAN behind it.
    Greater,
    /// `<=`.
    AtMost,
    /// `>=`.
    AtLeast,
    /// THAN.
    Than,
    /// NUMERIC.
    Numeric,
    /// ALPHABETIC.
    Alphabetic,
    /// ALPHABETIC-LOWER.
    AlphabeticLower,
    /// ALPHABETIC-UPPER.
    AlphabeticUpper,
    /// POSITIVE.
    Positive,
    /// NEGATIVE.
    Negative,
}

/// The word that a text is, if it is one of those that join conditions.
fn joining_word_in(text: &[u8]) -> Option<ConditionWord>
    ensures { result ≡ joining_word_in text.now }
{
    if text == b"AND".as_slice() {
        return Some(ConditionWord::And);
    }
    if text == b"OR".as_slice() {
        return Some(ConditionWord::Or);
    }
    if text == b"NOT".as_slice() {
        return Some(ConditionWord::Not);
    }
    None
}

/// The word that a text is, if it is one of those or names a class or a sign.
fn class_word_in(text: &[u8]) -> Option<ConditionWord>
    ensures { result ≡ class_word_in text.now }
{
    if text == b"NUMERIC".as_slice() {
        return Some(ConditionWord::Numeric);
    }
    if text == b"ALPHABETIC".as_slice() {
        return Some(ConditionWord::Alphabetic);
    }
    if text == b"ALPHABETIC-LOWER".as_slice() {
        return Some(ConditionWord::AlphabeticLower);
    }
    if text == b"ALPHABETIC-UPPER".as_slice() {
        return Some(ConditionWord::AlphabeticUpper);
    }
    if text == b"POSITIVE".as_slice() {
        return Some(ConditionWord::Positive);
    }
    if text == b"NEGATIVE".as_slice() {
        return Some(ConditionWord::Negative);
    }
    joining_word_in(text)
}

/// The word of conditions that a text is, if it is one.
fn condition_word_in(text: &[u8]) -> Option<ConditionWord>
    ensures { result ≡ condition_word_in text.now }
{
    if text == b"=".as_slice() {
        return Some(ConditionWord::Equals);
    }
    if text == b"EQUALS".as_slice() {
        return Some(ConditionWord::Equals);
    }
    if text == b"EQUAL".as_slice() {
        return Some(ConditionWord::Equal);
    }
    if text == b"<".as_slice() {
        return Some(ConditionWord::LessSign);
    }
    if text == b"LESS".as_slice() {
        return Some(ConditionWord::Less);
    }
    if text == b">".as_slice() {
        return Some(ConditionWord::GreaterSign);
    }
    if text == b"GREATER".as_slice() {
        return Some(ConditionWord::Greater);
    }
    if text == b"<=".as_slice() {
        return Some(ConditionWord::AtMost);
    }
    if text == b">=".as_slice() {
        return Some(ConditionWord::AtLeast);
    }
    if text == b"THAN".as_slice() {
        return Some(ConditionWord::Than);
    }
    class_word_in(text)
}

/// The word of conditions that a token is, if it is one.
pub fn condition_word(token: &Token) -> Option<ConditionWord>
    ensures { result ≡ condition_word (lexeme token.now) }
{
    match word_class(token) {
        WordClass::Plain => condition_word_in(token.text.as_slice()),
        _ => None,
    }
}

/// Whether a token is this word of conditions.
fn is_condition_word(token: &Token, word: ConditionWord) -> bool
    ensures { IsTrue result ↔ IsConditionWord word (lexeme token.now) }
{
    match condition_word(token) {
        Some(found) => found == word,
        None => false,
    }
}

/// The words behind this word of conditions, if it comes first.
pub(crate) fn behind_condition_word(words: &[Token], word: ConditionWord) -> Option<&[Token]>
    ensures found { IfSome result (λ r. (w : Lexeme) × IsConditionWord word w
        × (lexemes words.now ≡ w ∷ lexemes r.now)) }
    ensures only { (w : Lexeme) (more : List Lexeme) → IsConditionWord word w
        → lexemes words.now ≡ w ∷ more → IsSomeAnd result (λ r. lexemes r.now ≡ more) }
{
    let (first, more) = words.split_first()?;
    if !is_condition_word(first, word) {
        return None;
    }
    Some(more)
}

/// The words without this word of conditions in front, if it comes first.
pub(crate) fn without_condition_word(words: &[Token], word: ConditionWord) -> &[Token]
    ensures found { StandInFront (IsPerhapsWord word) (lexemes words.now) (lexemes result.now) }
    ensures only { EachCut (IsPerhapsWord word) (NotConditionWordFirst word)
        (lexemes words.now) (λ more. lexemes result.now ≡ more) }
{
    match behind_condition_word(words, word) {
        Some(more) => more,
        None => words,
    }
}

/// The words without this one in front, if it comes first.
pub(crate) fn without_word(words: &[Token], term: WordClass) -> &[Token]
    ensures found { StandInFront (IsOptionalWord term) (lexemes words.now) (lexemes result.now) }
    ensures only { EachCut (IsOptionalWord term) (NotFirstWord term)
        (lexemes words.now) (λ more. lexemes result.now ≡ more) }
{
    match behind(words, term) {
        Some(more) => more,
        None => words,
    }
}
