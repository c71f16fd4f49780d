ghost use Rattle.cob_copybook_clauses.specs.Clauses.{IsConstant, IsFigurativeWord, figurative_of};
ghost use Rattle.cob_copybook_clauses.specs.Reading.{Answers, AnswersText, ReadsRepeated, RepeatedInFront, StandInFront};
ghost use Rattle.cob_copybook_clauses.specs.Terms.{word_class};
ghost use Rattle.cob_copybook_clauses.specs.Written.{WrittenValue, written_value};
ghost use Rattle.cob_source.specs.declared.token.TokenKind.TheVariants as kind;
ghost use Rattle.cob_source.specs.Tokens.{Lexeme, lexemes};
ghost use Rattle.std.specs.Prelude.{◌++◌, ◌∷◌, ◌≡◌, IfSome, IsSomeAnd, List};

use crate::parts::ValueClause;
use crate::term::{WordClass, word_class};
use crate::words::{behind, free_at, is_literal};
use cob_copybook_entry::Figurative;
use cob_source::Token;

/// The figurative constant that a word is.
fn figurative_of(term: WordClass) -> Option<Figurative>
    ensures { result ≡ figurative_of term }
{
    match term {
        WordClass::Space => Some(Figurative::Space),
        WordClass::Zero => Some(Figurative::Zero),
        WordClass::HighValue => Some(Figurative::HighValue),
        WordClass::LowValue => Some(Figurative::LowValue),
        WordClass::Quote => Some(Figurative::Quote),
        _ => None,
    }
}

/// The figurative constant in front, and what is behind it.
fn figurative_at(words: &[Token]) -> Option<(Figurative, &[Token])>
    ensures found { IfSome result (λ r. (w : Lexeme)
        × IsFigurativeWord r.0 w × (lexemes words.now ≡ w ∷ lexemes r.1.now)) }
    ensures only { (f : Figurative) (w : Lexeme) (more : List Lexeme)
        → IsFigurativeWord f w → lexemes words.now ≡ w ∷ more
        → Answers (λ c. c) result f more }
{
    let (first, more) = words.split_first()?;
    let figurative = figurative_of(word_class(first))?;
    Some((figurative, more))
}

/// The quoted literal in front, and what is behind it.
fn literal_at(words: &[Token]) -> Option<(&[u8], &[Token])>
    ensures found { IfSome result (λ r. (w : Lexeme) × (w.kind ≡ kind.Literal)
        × (w.text ≡ r.0.now) × (lexemes words.now ≡ w ∷ lexemes r.1.now)) }
    ensures only { (w : Lexeme) (more : List Lexeme)
        → w.kind ≡ kind.Literal → lexemes words.now ≡ w ∷ more → AnswersText result w.text more }
{
    let (first, more) = words.split_first()?;
    if !is_literal(first) {
        return None;
    }
    Some((first.text.as_slice(), more))
}

/// The constant behind ALL, and what is behind it.
fn repeated_at(words: &[Token]) -> Option<(ValueClause<'_>, &[Token])>
    ensures found { IfSome result
        (λ r. RepeatedInFront (written_value r.0) (lexemes words.now) (lexemes r.1.now)) }
    ensures only { (c : WrittenValue) → ReadsRepeated c (lexemes words.now) result }
{
    if let Some((text, more)) = literal_at(words) {
        return Some((ValueClause::All(text), more));
    }
    let (figurative, more) = figurative_at(words)?;
    Some((ValueClause::Figurative(figurative), more))
}

/// The constant of a VALUE clause, and what is behind it.
pub fn constant_at(words: &[Token]) -> Option<(ValueClause<'_>, &[Token])>
    ensures found { IfSome result
        (λ r. StandInFront (IsConstant (written_value r.0)) (lexemes words.now) (lexemes r.1.now)) }
    ensures only { (c : WrittenValue) (ws more : List Lexeme)
        → IsConstant c ws → lexemes words.now ≡ ws ++ more → Answers written_value result c more }
{
    if let Some((text, more)) = free_at(words) {
        return Some((ValueClause::Word(text), more));
    }
    if let Some((text, more)) = literal_at(words) {
        return Some((ValueClause::Literal(text), more));
    }
    if let Some(more) = behind(words, WordClass::All) {
        let (constant, rest) = repeated_at(more)?;
        return Some((constant, rest));
    }
    let (figurative, more) = figurative_at(words)?;
    Some((ValueClause::Figurative(figurative), more))
}
