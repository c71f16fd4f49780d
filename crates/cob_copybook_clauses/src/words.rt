ghost use Rattle.cob_copybook_clauses.specs.Clauses.{
  AreNames,
  AreQualifiers,
  IsFree,
  IsNameWord,
  IsOrAre,
  IsPrefix,
  IsWord,
  IsOptionalWord,
};
ghost use Rattle.cob_copybook_clauses.specs.Reading.{AnswersText, EachCut, EachCutNeither, NotFirstWord, ReadsOtherWord, StandInFront};
ghost use Rattle.cob_copybook_clauses.specs.Terms.{word_class};
ghost use Rattle.cob_source.specs.Tokens.{Lexeme, lexeme, lexemes};
ghost use Rattle.std.specs.Prelude.{
  ◌++◌,
  ◌∷◌,
  ◌≡◌,
  ◌≢◌,
  ◌↔◌,
  List,
  ℕ,
  IfSome,
  IsSomeAnd,
  IsTrue,
};

use crate::names::is_name;
use crate::term::{WordClass, word_class};
use cob_source::{Token, TokenKind};

/// Whether a token is this to the grammar.
pub fn is_term(token: &Token, term: WordClass) -> bool
    ensures { IsTrue result ↔ word_class (lexeme token.now) ≡ term }
{
    word_class(token) == term
}

/// Whether a token is a word.
pub fn is_word(token: &Token) -> bool
    ensures { IsTrue result ↔ (lexeme token.now).kind ≡ TokenKind.Word }
{
    token.kind == TokenKind::Word
}

/// Whether a token is a quoted literal.
pub fn is_literal(token: &Token) -> bool
    ensures { IsTrue result ↔ (lexeme token.now).kind ≡ TokenKind.Literal }
{
    token.kind == TokenKind::Literal
}

/// Whether a token is a name.
pub fn is_name_word(token: &Token) -> bool
    ensures { IsTrue result ↔ IsNameWord (lexeme token.now) }
{
    is_word(token) && is_name(token.text.as_slice())
}

/// The words behind this one, if it comes first.
pub fn behind(words: &[Token], term: WordClass) -> Option<&[Token]>
    ensures found { IfSome result
        (λ r. (w : Lexeme) × (word_class w ≡ term) × (lexemes words.now ≡ w ∷ lexemes r.now)) }
    ensures only { (w : Lexeme) (more : List Lexeme) → word_class w ≡ term
        → lexemes words.now ≡ w ∷ more → IsSomeAnd result (λ r. lexemes r.now ≡ more) }
{
    let (first, more) = words.split_first()?;
    if is_term(first, term) {
        Some(more)
    } else {
        None
    }
}

/// The words without the optional one in front.
pub fn skip(words: &[Token], term: WordClass) -> &[Token]
    ensures found { StandInFront (IsOptionalWord term) (lexemes words.now) (lexemes result.now) }
    ensures only { EachCut (IsOptionalWord term) (NotFirstWord term)
        (lexemes words.now) (λ more. lexemes result.now ≡ more) }
{
    match behind(words, term) {
        Some(more) => more,
        None => words,
    }
}

/// The words without the first, if it is one of two.
pub fn skip_is_or_are(words: &[Token]) -> &[Token]
    ensures found { StandInFront IsOrAre (lexemes words.now) (lexemes result.now) }
    ensures only { EachCutNeither IsOrAre WordClass.Is WordClass.Are
        (lexemes words.now) (λ more. lexemes result.now ≡ more) }
{
    match behind(words, WordClass::Is) {
        Some(more) => more,
        None => skip(words, WordClass::Are),
    }
}

/// The words behind this one and IS, which may both be absent, but IS stands only behind it.
pub fn skip_prefix(words: &[Token], term: WordClass) -> &[Token]
    ensures found { StandInFront (IsPrefix term) (lexemes words.now) (lexemes result.now) }
    ensures only { EachCutNeither (IsPrefix term) term WordClass.Is
        (lexemes words.now) (λ more. lexemes result.now ≡ more) }
{
    match behind(words, term) {
        Some(more) => skip(more, WordClass::Is),
        None => words,
    }
}

/// The text of the word in front, and what is behind it.
pub fn word_at(words: &[Token]) -> Option<(&[u8], &[Token])>
    ensures found { IfSome result
        (λ r. (w : Lexeme) × IsWord r.0.now w × (lexemes words.now ≡ w ∷ lexemes r.1.now)) }
    ensures only { (text : List ℕ) (w : Lexeme) (more : List Lexeme)
        → IsWord text w → lexemes words.now ≡ w ∷ more → AnswersText result text more }
{
    let (first, more) = words.split_first()?;
    if !is_word(first) {
        return None;
    }
    Some((first.text.as_slice(), more))
}

/// The text of the word in front, which isn't this one, and what is behind it.
pub fn other_word_at(words: &[Token], term: WordClass) -> Option<(&[u8], &[Token])>
    ensures found { IfSome result (λ r. (w : Lexeme)
        × IsWord r.0.now w × (word_class w ≢ term) × (lexemes words.now ≡ w ∷ lexemes r.1.now)) }
    ensures only { ReadsOtherWord term (lexemes words.now) result }
{
    let (first, more) = words.split_first()?;
    if !is_word(first) || is_term(first, term) {
        return None;
    }
    Some((first.text.as_slice(), more))
}

/// The text of the word in front, which isn't reserved, and what is behind it.
pub fn free_at(words: &[Token]) -> Option<(&[u8], &[Token])>
    ensures found { IfSome result
        (λ r. (w : Lexeme) × IsFree r.0.now w × (lexemes words.now ≡ w ∷ lexemes r.1.now)) }
    ensures only { (text : List ℕ) (w : Lexeme) (more : List Lexeme)
        → IsFree text w → lexemes words.now ≡ w ∷ more → AnswersText result text more }
{
    let (first, more) = words.split_first()?;
    if !is_term(first, WordClass::Plain) {
        return None;
    }
    Some((first.text.as_slice(), more))
}
