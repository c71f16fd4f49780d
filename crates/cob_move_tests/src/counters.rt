//! Counters among the words of a condition.

ghost use Rattle.std.specs.Prelude.{◌≡◌, ◌||◌, false, is_some, not};
ghost use Rattle.cob_copybook_clauses.specs.Terms.{word_class};
ghost use Rattle.cob_source.specs.Tokens.{lexeme, lexemes};
ghost use Rattle.cob_move_loops.specs.Reading.{counters};
ghost use Rattle.cob_move_loops.specs.Turns.{counted_number, number_of_name};
ghost use Rattle.cob_move_tests.specs.Counters.{has_no_counter, may_be_name, subscripts_behind};

use cob_copybook_clauses::{WordClass, word_class};
use cob_move_conditions::condition_word;
use cob_move_loops::Counter;
use cob_source::{Token, TokenKind};

/// Whether a counter has this name.
fn is_counted(turn: &[Counter<'_>], name: &[u8]) -> bool
    ensures { result ≡ is_some (number_of_name (counters turn.now) name.now) }
{
    let Some((first, more)) = turn.split_first() else {
        return false;
    };
    first.name == name || is_counted(more, name)
}

/// Whether a word is a counter.
fn is_counter(turn: &[Counter<'_>], token: &Token) -> bool
    ensures { result ≡ is_some (counted_number (counters turn.now) (lexeme token.now)) }
{
    match token.kind {
        TokenKind::Word => is_counted(turn, token.text.as_slice()),
        TokenKind::Literal | TokenKind::Stop => false,
    }
}

/// Whether a word may be a name in a condition.
fn may_be_name(token: &Token) -> bool
    ensures { result ≡ may_be_name (lexeme token.now) }
{
    match word_class(token) {
        WordClass::Plain => condition_word(token).is_none(),
        _ => false,
    }
}

/// Whether subscripts go on behind a word.
fn subscripts_behind(inside: bool, named: bool, token: &Token) -> bool
    ensures { result ≡ subscripts_behind inside named (word_class (lexeme token.now)) }
{
    match word_class(token) {
        WordClass::OpenBracket => named,
        WordClass::CloseBracket => false,
        _ => inside,
    }
}

/// Whether a word may stand where it does: in subscripts, or as no counter.
fn may_stand(turn: &[Counter<'_>], inside: bool, token: &Token) -> bool
    ensures { result
        ≡ (inside || not (is_some (counted_number (counters turn.now) (lexeme token.now)))) }
{
    inside || !is_counter(turn, token)
}

/// Whether no counter stands among the words of a condition, outside of subscripts.
pub fn has_no_counter(turn: &[Counter<'_>], words: &[Token]) -> bool
    ensures { result ≡ has_no_counter (counters turn.now) false false (lexemes words.now) }
{
    let mut inside = false;
    let mut named = false;
    let mut rest = words;
    while let Some((first, more)) = rest.split_first() {
        if !may_stand(turn, inside, first) {
            return false;
        }
        inside = subscripts_behind(inside, named, first);
        named = may_be_name(first);
        rest = more;
    }
    true
}
