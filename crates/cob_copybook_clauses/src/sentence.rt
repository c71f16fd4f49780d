ghost use Rattle.cob_copybook_clauses.specs.Entries.{
  FirstSentence,
  HasNoStop,
  IsCondition,
  IsLeftOut,
  IsLeftOutConstant,
  IsLeftOutLevel,
  IsLeftOutWord,
  is_condition,
  is_constant_first,
  is_word_kind,
  looked_at,
  names_constant,
};
ghost use Rattle.cob_copybook_clauses.specs.Reading.{StopFirst};
ghost use Rattle.cob_source.specs.Tokens.{Lexeme, lexeme, lexemes};
ghost use Rattle.cob_source.specs.declared.token.TokenKind.TheVariants as kind;
ghost use Rattle.std.specs.List.{AllByRecursion};
ghost use Rattle.std.specs.Prelude.{
  ◌++◌,
  ◌∷◌,
  ◌≡◌,
  ◌↔◌,
  ◌<◌,
  ◌≤◌,
  ◌&&◌,
  IfNone,
  IfSome,
  IsSomeAnd,
  IsTrue,
  List,
  bytes_eq,
  drop,
  length,
  take,
  true,
  ℕ,
};

use crate::entry::starts_clause;
use crate::term::WordClass;
use crate::words::{behind, is_term, is_word, word_at};
use cob_source::{Token, TokenKind};

/// Whether a token is a Stop.
fn is_stop(token: &Token) -> bool
    ensures { IsTrue result ↔ (lexeme token.now).kind ≡ kind.Stop }
{
    token.kind == TokenKind::Stop
}

/// How many words stand before the first Stop.
fn sentence_len(tokens: &[Token]) -> usize
    ensures within { result ≤ length tokens.now }
    ensures each { HasNoStop (lexemes (take result tokens.now)) }
    ensures other { StopFirst (lexemes (drop result tokens.now)) }
{
    for (at, token) in tokens.iter().enumerate() {
        if is_stop(token) {
            return at;
        }
    }
    tokens.len()
}

/// The words up to the first Stop, and what stands behind it.
pub fn sentence_at(tokens: &[Token]) -> Option<(&[Token], &[Token])>
    ensures found { IfSome result
        (λ r. FirstSentence (lexemes r.0.now) (lexemes tokens.now) (lexemes r.1.now)) }
    ensures none { IfNone result (HasNoStop (lexemes tokens.now)) }
{
    let (sentence, rest) = tokens.split_at(sentence_len(tokens));
    let (_, behind) = rest.split_first()?;
    Some((sentence, behind))
}

/// Whether a token is a word with this text.
fn is_that_word(token: &Token, text: &[u8]) -> bool
    ensures { result ≡ (is_word_kind
        (lexeme token.now).kind && bytes_eq (lexeme token.now).text text.now) }
{
    token.kind == TokenKind::Word && token.text.as_slice() == text
}

/// Whether a sentence is an entry of level 88.
pub fn is_condition(sentence: &[Token]) -> bool
    ensures { result ≡ is_condition (lexemes sentence.now) }
{
    match sentence.split_first() {
        Some((level, _)) => is_that_word(level, b"88"),
        None => false,
    }
}

/// Whether a text is this one.
fn is_text(text: &[u8], other: &[u8]) -> bool
    ensures { IsTrue result ↔ text.now ≡ other.now }
{
    text == other
}

/// The name that a level 88 entry gives a value; what stands behind VALUE isn't looked at.
pub fn read_condition_name(sentence: &[Token]) -> Option<&[u8]>
    ensures found { IfSome result (λ n. IsCondition (lexemes sentence.now) n.now) }
    ensures only { (n : List ℕ)
        → IsCondition (lexemes sentence.now) n → IsSomeAnd result (λ m. m.now ≡ n) }
{
    let (level, named) = word_at(sentence)?;
    if !is_text(level, b"88") {
        return None;
    }
    let (name, more) = word_at(named)?;
    behind(more, WordClass::Value)?;
    Some(name)
}

/// The level of an entry that is left out by name: 66, 77 or 78.
fn left_out_level(sentence: &[Token]) -> Option<&[u8]>
    ensures found { IfSome result (λ w. IsLeftOutLevel w.now (lexemes sentence.now)) }
    ensures none { IfNone result ((w : List ℕ) → IsLeftOutLevel w (lexemes sentence.now) → ⊥) }
    ensures short { IfSome result (λ w. length w.now ≤ 20) }
    ensures ascii { IfSome result (λ w. AllByRecursion (λ c. c < 128) w.now) }
{
    let (level, _) = word_at(sentence)?;
    if is_text(level, b"66") || (is_text(level, b"77") || is_text(level, b"78")) {
        return Some(level);
    }
    None
}

/// Whether the word CONSTANT stands in front.
fn starts_with_constant(words: &[Token]) -> bool
    ensures { result ≡ is_constant_first (lexemes words.now) }
{
    match words.split_first() {
        Some((first, _)) => is_that_word(first, b"CONSTANT"),
        None => false,
    }
}

/// Whether the word CONSTANT stands behind a level and a word that begins no clause.
fn names_constant(sentence: &[Token]) -> bool
    ensures { IsTrue result ↔ names_constant (lexemes sentence.now) ≡ true }
{
    let Some((_, more)) = sentence.split_first() else {
        return false;
    };
    let Some((named, rest)) = more.split_first() else {
        return false;
    };
    if starts_clause(named) {
        return false;
    }
    starts_with_constant(rest)
}

/// The word CONSTANT, where an entry is that of a constant, which is left out by it.
fn left_out_constant(sentence: &[Token]) -> Option<&[u8]>
    ensures found { IfSome result (λ w. IsLeftOutConstant w.now (lexemes sentence.now)) }
    ensures none { IfNone result ((w : List ℕ) → IsLeftOutConstant w (lexemes sentence.now) → ⊥) }
    ensures short { IfSome result (λ w. length w.now ≤ 20) }
    ensures ascii { IfSome result (λ w. AllByRecursion (λ c. c < 128) w.now) }
{
    if names_constant(sentence) {
        return Some(b"CONSTANT".as_slice());
    }
    None
}

/// The first of the words that is left out by name.
fn left_out_word(words: &[Token]) -> Option<&[u8]>
    ensures found { IfSome result (λ w. IsLeftOutWord w.now (lexemes words.now)) }
    ensures none { IfNone result ((w : List ℕ) → IsLeftOutWord w (lexemes words.now) → ⊥) }
    ensures short { IfSome result (λ w. length w.now ≤ 20) }
    ensures ascii { IfSome result (λ w. AllByRecursion (λ c. c < 128) w.now) }
{
    for token in words {
        if is_term(token, WordClass::LeftOut) {
            return Some(token.text.as_slice());
        }
    }
    None
}

/// The words of an entry that are looked at: of a level 88 entry those to VALUE.
fn looked_at(sentence: &[Token]) -> &[Token]
    ensures { lexemes result.now ≡ looked_at (lexemes sentence.now) }
{
    if is_condition(sentence) && sentence.len() > 3 {
        return &sentence[..3];
    }
    sentence
}

/// The word of a sentence, or its level, that is left out by name: of the entry of a constant its word CONSTANT.
///
/// A level 88 entry is looked at up to its word VALUE. The answer is at most 20 characters of ASCII.
pub fn left_out(sentence: &[Token]) -> Option<&[u8]>
    ensures found { IfSome result (λ w. IsLeftOut w.now (lexemes sentence.now)) }
    ensures none { IfNone result ((w : List ℕ) → IsLeftOut w (lexemes sentence.now) → ⊥) }
    ensures short { IfSome result (λ w. length w.now ≤ 20) }
    ensures ascii { IfSome result (λ w. AllByRecursion (λ c. c < 128) w.now) }
{
    if let Some(level) = left_out_level(sentence) {
        return Some(level);
    }
    if let Some(word) = left_out_constant(sentence) {
        return Some(word);
    }
    let word = left_out_word(looked_at(sentence))?;
    Some(word)
}
