//! Where a statement is pointed at.

ghost use Rattle.std.specs.Prelude.{◌≡◌, ◌⊎◌, IfSome, IsTrue, drop};
ghost use Rattle.cob_source.specs.Tokens.{lexeme, lexemes};
ghost use Rattle.cob_move_loops.specs.Words.{IsOther};
ghost use Rattle.cob_report_refusal_words.specs.Pointing.{BeginAt, GoesOn, IsUnderFirst, IsUnderLater, IsUnderStatement};

use crate::told::Caret;
use cob_copybook_clauses::{WordClass, is_term};
use cob_move_loops::{is_stop, passage_word};
use cob_report_refusals::MoveRefusal;
use cob_source::Token;

/// Whether a word is no word round statements.
fn is_other(word: &Token) -> bool
    ensures { IsTrue result → IsOther (lexeme word.now) }
{
    match passage_word(word) {
        Some(_) => false,
        None => true,
    }
}

/// Whether a statement goes on with a word, as it is written.
pub(crate) fn goes_on(word: &Token) -> bool
    ensures { IsTrue result → GoesOn (lexeme word.now) }
{
    !is_stop(word) && !is_term(word, WordClass::Move) && is_other(word)
}

/// Whether a caret is under a word.
fn is_under(caret: Caret, word: &Token) -> bool {
    caret.line == word.line && caret.column == u32::from(word.column)
}

/// Under that one of the words with which a statement goes on which a caret is under, or else under the last of them; where it goes on with none, where the caret
/// before is.
fn under_later(words: &[Token], caret: Caret, before: Caret) -> Caret
    ensures { result ≡ before ⊎ IsUnderLater result (lexemes words.now) }
{
    let mut last = before;
    let mut rest = words;
    while let Some((word, more)) = rest.split_first() {
        let here = Caret::under(word);
        if is_stop(word) {
            return here;
        }
        if !goes_on(word) {
            return last;
        }
        last = here;
        if is_under(caret, word) {
            return last;
        }
        rest = more;
    }
    last
}

/// Under that word of the statement in front which a caret is under, or else under its last word.
fn under_statement(words: &[Token], caret: Caret) -> Option<Caret>
    ensures { IfSome result (λ c. IsUnderFirst c (lexemes words.now)) }
{
    let Some((first, more)) = words.split_first() else {
        return None;
    };
    let start = Caret::under(first);
    if is_under(caret, first) {
        return Some(start);
    }
    Some(under_later(more, caret, start))
}

/// The words behind so many of them.
fn behind_count(words: &[Token], count: usize) -> &[Token]
    ensures { lexemes result.now ≡ drop count (lexemes words.now) }
{
    let (_, rest) = words.split_at(count.min(words.len()));
    rest
}

/// Whether words begin where a refusal is told, on its line where it has no place.
fn begin_there(words: &[Token], refusal: &MoveRefusal) -> bool
    ensures { IsTrue result → BeginAt refusal.now.at refusal.now.fault.line (lexemes words.now) }
{
    let Some((first, _)) = words.split_first() else {
        return false;
    };
    match refusal.at {
        Some(place) => first.line == place.line && first.column == place.column,
        None => first.line == refusal.fault.line,
    }
}

/// A caret at a word of the statement that a refusal is told of, which these last words of all begin with: at the one that it is under, or else at the last; none
/// where that statement does not begin where the refusal is told.
pub(crate) fn in_statement(
    words: &[Token],
    rest: &[Token],
    refusal: &MoveRefusal,
    at: Option<Caret>,
) -> Option<Caret>
    ensures { IfSome result (λ c. IsUnderStatement refusal.now c (lexemes words.now)) }
{
    let caret = at?;
    let own = behind_count(words, words.len().saturating_sub(rest.len()));
    if !begin_there(own, refusal) {
        return None;
    }
    under_statement(own, caret)
}
