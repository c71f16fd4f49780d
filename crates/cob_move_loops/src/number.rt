//! Numbers of loops.

ghost use Rattle.std.specs.Prelude.{◌≡◌, ◌↔◌, ℕ, ◌∷◌, List, Some, IfSome, IsTrue};
ghost use Rattle.cob_copybook_clauses.specs.Reading.{Answers};
ghost use Rattle.cob_source.specs.Tokens.{Lexeme, lexeme, lexemes};
ghost use Rattle.cob_move_loops.specs.Words.{IsNumber};

use cob_copybook_entries::whole;
use cob_limits::MAX_COUNTER_DIGITS;
use cob_source::{Token, TokenKind};

/// Whether a token is a word.
fn is_word(token: &Token) -> bool
    ensures { IsTrue result ↔ (lexeme token.now).kind ≡ TokenKind.Word }
{
    token.kind == TokenKind::Word
}

/// The number that a word is, if it is one that a loop may have.
fn number_of_word(token: &Token) -> Option<u32>
    ensures found { IfSome result (λ n. IsNumber n (lexeme token.now)) }
    ensures only { (n : ℕ) → IsNumber n (lexeme token.now) → result ≡ Some n }
{
    if !is_word(token) {
        return None;
    }
    let number = whole(token.text.as_slice(), MAX_COUNTER_DIGITS)?;
    if number == 0 {
        return None;
    }
    Some(number)
}

/// The number in front, and what is behind it.
pub(crate) fn number_at(words: &[Token]) -> Option<(u32, &[Token])>
    ensures found { IfSome result (λ r. (w : Lexeme) × IsNumber r.0 w
        × (lexemes words.now ≡ w ∷ lexemes r.1.now)) }
    ensures only { (n : ℕ) (w : Lexeme) (more : List Lexeme) → IsNumber n w
        → lexemes words.now ≡ w ∷ more → Answers (λ m. m) result n more }
{
    let (first, more) = words.split_first()?;
    let number = number_of_word(first)?;
    Some((number, more))
}
