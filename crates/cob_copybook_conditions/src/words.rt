//! The words of a list of values.

ghost use Rattle.std.specs.Prelude.{◌≡◌, ◌↔◌, ◌∷◌, List, IfSome, IsSomeAnd, IsTrue};
ghost use Rattle.cob_source.specs.Tokens.{Lexeme, lexeme, lexemes};
ghost use Rattle.cob_copybook_clauses.specs.Clauses.{IsOrAre};
ghost use Rattle.cob_copybook_clauses.specs.Reading.{EachCutNeither, StandInFront};
ghost use Rattle.cob_copybook_conditions.specs.Entries.{IsThroughWord};

use cob_copybook_clauses::{WordClass, behind, is_term};
use cob_source::Token;

/// The words without IS or ARE in front, if one of them comes first.
pub(crate) fn without_is_or_are(words: &[Token]) -> &[Token]
    ensures found { StandInFront IsOrAre (lexemes words.now) (lexemes result.now) }
    ensures only { EachCutNeither IsOrAre WordClass.Is WordClass.Are
        (lexemes words.now) (λ more. lexemes result.now ≡ more) }
{
    if let Some(more) = behind(words, WordClass::Is) {
        return more;
    }
    match behind(words, WordClass::Are) {
        Some(more) => more,
        None => words,
    }
}

/// Whether a token is THROUGH or THRU.
fn is_through(token: &Token) -> bool
    ensures { IsTrue result ↔ IsThroughWord (lexeme token.now) }
{
    if !is_term(token, WordClass::Plain) {
        return false;
    }
    let text = token.text.as_slice();
    text == b"THROUGH".as_slice() || text == b"THRU".as_slice()
}

/// The words behind THROUGH or THRU, if one of them comes first.
pub(crate) fn behind_through(words: &[Token]) -> Option<&[Token]>
    ensures found { IfSome result
        (λ r. (w : Lexeme) × IsThroughWord w × (lexemes words.now ≡ w ∷ lexemes r.now)) }
    ensures only { (w : Lexeme) (more : List Lexeme) → IsThroughWord w
        → lexemes words.now ≡ w ∷ more → IsSomeAnd result (λ r. lexemes r.now ≡ more) }
{
    let (first, more) = words.split_first()?;
    if !is_through(first) {
        return None;
    }
    Some(more)
}
