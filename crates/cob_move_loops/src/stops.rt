//! The periods behind statements.

ghost use Rattle.std.specs.Prelude.{◌≡◌, ◌↔◌, ◌∷◌, ◌++◌, List, IfSome, IsSomeAnd, IsTrue};
ghost use Rattle.std.specs.List.{AllByRecursion};
ghost use Rattle.cob_source.specs.Tokens.{Lexeme, lexeme, lexemes};
ghost use Rattle.cob_move_loops.specs.Words.{IsPeriod, NoPeriod};

use cob_source::{Token, TokenKind};

/// Whether a token is a period.
pub fn is_stop(token: &Token) -> bool
    ensures { IsTrue result ↔ IsPeriod (lexeme token.now) }
{
    token.kind == TokenKind::Stop
}

/// The words behind the period in front, if there is one.
pub fn behind_stop(words: &[Token]) -> Option<&[Token]>
    ensures found { IfSome result (λ r. (w : Lexeme) × IsPeriod w
        × (lexemes words.now ≡ w ∷ lexemes r.now)) }
    ensures only { (w : Lexeme) (more : List Lexeme) → IsPeriod w → lexemes words.now ≡ w ∷ more
        → IsSomeAnd result (λ r. lexemes r.now ≡ more) }
{
    let (first, more) = words.split_first()?;
    if !is_stop(first) {
        return None;
    }
    Some(more)
}

/// The words behind the periods in front.
pub fn behind_stops(words: &[Token]) -> &[Token]
    ensures found { (stops : List Lexeme) × AllByRecursion IsPeriod stops
        × (lexemes words.now ≡ stops ++ lexemes result.now) }
    ensures only { (stops more : List Lexeme) → AllByRecursion IsPeriod stops → NoPeriod more
        → lexemes words.now ≡ stops ++ more → lexemes result.now ≡ more }
    ensures none { NoPeriod (lexemes result.now) }
{
    let mut rest = words;
    while let Some(more) = behind_stop(rest) {
        rest = more;
    }
    rest
}
