//! Statements as they are written, whether they are any or not.

ghost use Rattle.std.specs.Prelude.{◌≡◌, ◌↔◌, ◌<◌, ◌++◌, List, length, IsTrue};
ghost use Rattle.std.specs.List.{AllByRecursion};
ghost use Rattle.cob_source.specs.Tokens.{Lexeme, lexemes};
ghost use Rattle.cob_move_statements.specs.Statements.{EndsStatement};
ghost use Rattle.cob_report_refused_moves.specs.Statements.{GoesOn, IsWrittenBefore};

use cob_copybook_clauses::{WordClass, is_term};
use cob_move_loops::{behind_stops, is_stop};
use cob_source::Token;

/// Whether a statement ends before these words.
fn ends(words: &[Token]) -> bool
    ensures { IsTrue result ↔ EndsStatement (lexemes words.now) }
{
    match words.split_first() {
        Some((first, _)) => is_stop(first) || is_term(first, WordClass::Move),
        None => true,
    }
}

/// The words from the first MOVE or period on.
fn behind_others(words: &[Token]) -> &[Token]
    ensures found { (others : List Lexeme) × AllByRecursion GoesOn others
        × (lexemes words.now ≡ others ++ lexemes result.now) }
    ensures ends { EndsStatement (lexemes result.now) }
{
    let mut rest = words;
    while let Some((_, more)) = rest.split_first() {
        if ends(rest) {
            return rest;
        }
        rest = more;
    }
    rest
}

/// The words behind the statement in front, as it is written, with all periods behind it.
fn behind_written(words: &[Token]) -> &[Token]
    requires { 0 < length words.now }
    ensures { (own : List Lexeme) × IsWrittenBefore own (lexemes result.now)
        × (lexemes words.now ≡ own ++ lexemes result.now) }
{
    match words.split_first() {
        Some((_, more)) => behind_stops(behind_others(more)),
        None => words,
    }
}

/// The words in front of these last ones.
fn in_front<'a>(words: &'a [Token], rest: &[Token]) -> &'a [Token]
    requires { (own : List Lexeme) × (lexemes words.now ≡ own ++ lexemes rest.now) }
    ensures { lexemes words.now ≡ lexemes result.now ++ lexemes rest.now }
{
    let (front, _) = words.split_at(words.len().saturating_sub(rest.len()));
    front
}

/// The statement in front, as it is written, and what is behind it.
pub(crate) fn written_at(words: &[Token]) -> (&[Token], &[Token])
    requires { 0 < length words.now }
    ensures cut { lexemes words.now ≡ lexemes result.0.now ++ lexemes result.1.now }
    ensures written { IsWrittenBefore (lexemes result.0.now) (lexemes result.1.now) }
    ensures shorter { length result.1.now < length words.now }
{
    let rest = behind_written(words);
    (in_front(words, rest), rest)
}
