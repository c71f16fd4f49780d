//! The refusals of sentences, each by itself.

ghost use Rattle.std.specs.Prelude.{◌≡◌, ◌++◌, ◌∷◌, ℕ, List, [], IfOk, IfSome, IsTrue, Some};
ghost use Rattle.std.specs.List.{AllByRecursion};
ghost use Rattle.cob_source.specs.Tokens.{Lexeme, lexemes};
ghost use Rattle.cob_copybook_clauses.specs.Entries.{FirstSentence, IsCondition, sentences};
ghost use Rattle.cob_copybook_entry.specs.declared.fault.BookRule.TheVariants.{Grammar};
ghost use Rattle.cob_copybook_entries.specs.Books.{BreaksEntryRule, BreaksSentence, HasNoLeftOut, OneBreaks};
ghost use Rattle.cob_report_refusals.specs.Refused.{AreToldOf, BreaksByItself, IsRefusedText};

use crate::refusal::Refusal;
use cob_copybook_clauses::{is_condition, left_out, read_condition_name, sentence_at};
use cob_copybook_entries::entries;
use cob_copybook_entry::{BookFault, BookRule};
use cob_source::Token;
use std::alloc::{AllocError, Global};
use std::slice;

/// The first sentence of these words, with its Stop.
pub(crate) fn with_stop<'a>(words: &'a [Token], sentence: &[Token]) -> &'a [Token]
    requires { (more : List Lexeme) × FirstSentence (lexemes sentence.now) (lexemes words.now) more }
    ensures first { FirstSentence (lexemes sentence.now) (lexemes result.now) [] }
    ensures cut { (more : List Lexeme)
        → FirstSentence (lexemes sentence.now) (lexemes words.now) more
        → lexemes words.now ≡ lexemes result.now ++ more }
{
    &words[..sentence.len() + 1]
}

/// Whether nothing in a sentence is left out by name.
fn leaves_nothing_out(sentence: &[Token]) -> bool
    ensures { IsTrue result → HasNoLeftOut (lexemes sentence.now) }
{
    match left_out(sentence) {
        Some(_) => false,
        None => true,
    }
}

/// Whether a level 88 entry names no value.
fn names_nothing(sentence: &[Token]) -> bool
    ensures { IsTrue result → (name : List ℕ) → IsCondition (lexemes sentence.now) name → ⊥ }
{
    match read_condition_name(sentence) {
        Some(_) => false,
        None => true,
    }
}

/// Whether a level 88 entry names no value, and nothing in it is left out by name.
fn names_no_value(sentence: &[Token]) -> bool
    ensures left { IsTrue result → HasNoLeftOut (lexemes sentence.now) }
    ensures none { IsTrue result → (name : List ℕ) → IsCondition (lexemes sentence.now) name → ⊥ }
{
    leaves_nothing_out(sentence) && names_nothing(sentence)
}

/// Whether a sentence that is all there is of a text breaks the grammar by itself where the text does: a text may not begin with level 88, but an entry of that
/// level may stand behind others.
fn has_own_grammar(sentence: &[Token]) -> bool
    ensures { IsTrue result → (words : List Lexeme) → FirstSentence (lexemes sentence.now) words []
        → BreaksEntryRule Grammar words → BreaksSentence Grammar (lexemes sentence.now) }
{
    !is_condition(sentence) || names_no_value(sentence)
}

/// The rule, where a sentence breaks it by itself that is all there is of a text which breaks it.
fn own_rule(sentence: &[Token], rule: BookRule) -> Option<BookRule>
    ensures { (words : List Lexeme) → FirstSentence (lexemes sentence.now) words []
        → BreaksEntryRule rule words → IfSome result (λ r. BreaksByItself r (lexemes sentence.now)) }
{
    match rule {
        BookRule::Grammar => {
            if has_own_grammar(sentence) {
                Some(rule)
            } else {
                None
            }
        }
        BookRule::Picture(_) => Some(rule),
        BookRule::LeftOut(_) => Some(rule),
        BookRule::Name => Some(rule),
        BookRule::Table => Some(rule),
        BookRule::Value => Some(rule),
        _ => None,
    }
}

/// The rule that a sentence breaks by itself, if it breaks one.
///
/// # Errors
///
/// Where no memory is left.
fn broken_rule(
    alloc: Global,
    sentence: &[Token],
    with_stop: &[Token],
) -> Result<Option<BookRule>, AllocError>
    requires { FirstSentence (lexemes sentence.now) (lexemes with_stop.now) [] }
    ensures { IfOk result (λ o. IfSome o (λ r. BreaksByItself r (lexemes sentence.now))) }
{
    let Err(fault) = entries(alloc, with_stop) else {
        return Ok(None);
    };
    if let BookRule::Memory = fault.rule {
        return Err(AllocError);
    }
    Ok(own_rule(sentence, fault.rule))
}

/// The line of the first of the words, and 1 where there is none.
fn line_of(words: &[Token]) -> u32 {
    match words.first() {
        Some(first) => first.line,
        None => 1,
    }
}

/// What is refused of the entry that these words begin with, before which so many others stand.
fn refusal_of(rule: BookRule, words: &[Token], from: usize) -> Refusal
    ensures rule { result.fault.rule ≡ rule }
    ensures entry { result.from ≡ Some from }
{
    Refusal {
        fault: BookFault {
            rule,
            line: line_of(words),
        },
        from: Some(from),
    }
}

/// Refusals, and one more behind them.
///
/// # Errors
///
/// Where no memory is left.
pub(crate) fn pushed(refusals: Vec<Refusal>, refusal: Refusal) -> Result<Vec<Refusal>, AllocError>
    ensures { IfOk result (λ v. v.items ≡ refusals.items ++ refusal ∷ []) }
{
    let mut out = refusals;
    out.extend_from_slice(slice::from_ref(&refusal))?;
    Ok(out)
}

/// Refusals, and behind them what is refused of the first sentence of these words, before which so many others stand.
///
/// # Errors
///
/// Where no memory is left.
fn with_first(
    alloc: Global,
    refusals: Vec<Refusal>,
    words: &[Token],
    sentence: &[Token],
    from: usize,
) -> Result<Vec<Refusal>, AllocError>
    requires { (more : List Lexeme) × FirstSentence (lexemes sentence.now) (lexemes words.now) more }
    ensures { (text : List ℕ)
        → ((r : Refusal) → r.from ≡ Some from → BreaksByItself r.fault.rule (lexemes sentence.now) → IsRefusedText text r)
        → AllByRecursion (IsRefusedText text) refusals.items
        → IfOk result (λ v. AllByRecursion (IsRefusedText text) v.items) }
{
    match broken_rule(alloc, sentence, with_stop(words, sentence))? {
        Some(rule) => pushed(refusals, refusal_of(rule, words, from)),
        None => Ok(refusals),
    }
}

/// What is refused of the sentences of these words, each by itself, and of words behind the last period.
///
/// # Errors
///
/// Where no memory is left.
pub(crate) fn sentence_refusals(alloc: Global, words: &[Token]) -> Result<Vec<Refusal>, AllocError>
    ensures { IfOk result (λ v. AreToldOf (lexemes words.now) v.items) }
{
    let mut out: Vec<Refusal> = Vec::new(alloc);
    let mut rest = words;
    let mut from: usize = 0;
    while let Some((sentence, behind)) = sentence_at(rest) {
        let more = with_first(alloc, out, rest, sentence, from)?;
        out = more;
        from = words.len().saturating_sub(behind.len());
        rest = behind;
    }
    if rest.is_empty() {
        return Ok(out);
    }
    pushed(out, refusal_of(BookRule::Grammar, rest, from))
}
