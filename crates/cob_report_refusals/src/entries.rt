//! The words of an entry in a text.

ghost use Rattle.std.specs.Prelude.{◌≡◌, List, drop, IfSome, IsTrue};
ghost use Rattle.cob_source.specs.Tokens.{Lexeme, lexemes};
ghost use Rattle.cob_report_refusals.specs.Refused.{BeginOn, IsEntryBehind, IsEntryOf};

use crate::refusal::Refusal;
use crate::sentences::with_stop;
use cob_copybook_clauses::sentence_at;
use cob_source::Token;

/// The words behind so many of them.
fn behind(words: &[Token], count: usize) -> &[Token]
    ensures { lexemes result.now ≡ drop count (lexemes words.now) }
{
    let (_, rest) = words.split_at(count.min(words.len()));
    rest
}

/// The words of the entry behind so many, up to its period, or all that are left where no period is among them.
pub fn entry_behind(words: &[Token], count: usize) -> &[Token]
    ensures { IsEntryBehind count (lexemes result.now) (lexemes words.now) }
{
    let rest = behind(words, count);
    match sentence_at(rest) {
        Some((sentence, _)) => with_stop(rest, sentence),
        None => rest,
    }
}

/// Whether the words behind so many begin on this line.
fn begin_on(words: &[Token], count: usize, line: u32) -> bool
    ensures { IsTrue result → BeginOn line (drop count (lexemes words.now)) }
{
    match behind(words, count).split_first() {
        Some((first, _)) => first.line == line,
        None => false,
    }
}

/// How many words stand before the first entry that begins on this line.
fn entry_on(words: &[Token], line: u32) -> Option<usize>
    ensures { IfSome result (λ n. BeginOn line (drop n (lexemes words.now))) }
{
    let mut rest = words;
    for _ in 0..words.len() {
        let count = words.len().saturating_sub(rest.len());
        if begin_on(words, count, line) {
            return Some(count);
        }
        let (_, others) = sentence_at(rest)?;
        rest = others;
    }
    None
}

/// How many words stand before the entry that a refusal is told of: before that which it tells, or else before the first that begins on its line.
pub fn entry_told(words: &[Token], refusal: &Refusal) -> Option<usize>
    ensures { IfSome result (λ n. (own : List Lexeme) → IsEntryBehind n own (lexemes words.now)
        → IsEntryOf refusal.now own (lexemes words.now)) }
{
    match refusal.from {
        Some(count) => Some(count),
        None => entry_on(words, refusal.fault.line),
    }
}
