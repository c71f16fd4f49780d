//! The refusals of lines, each by itself.

ghost use Rattle.std.specs.Prelude.{◌≡◌, ◌≢◌, ◌<◌, ◌≤◌, ◌++◌, ◌∷◌, ℕ, List, length, take, drop, true, IfOk, None};
ghost use Rattle.std.specs.List.{AllByRecursion};
ghost use Rattle.cob_source.specs.Lines.{FeedFirst, lines};
ghost use Rattle.cob_source.specs.Words.{IsSourceRefusal};
ghost use Rattle.cob_copybook_entry.specs.declared.fault.BookRule.TheVariants.{Source};
ghost use Rattle.cob_report_refusals.specs.Refused.{IsOfLines, IsRefusedText};
ghost use Rattle.cob_report_refusals.specs.Behind.{IsBehind, StandsBehind};

use crate::refusal::Refusal;
use crate::sentences::pushed;
use cob_copybook_entry::{BookFault, BookRule};
use cob_source::{SourceFault, SourceRule, tokens};
use std::alloc::{AllocError, Global};

/// How many bytes stand before the first line feed.
fn line_len(text: &[u8]) -> usize
    ensures within { result ≤ length text.now }
    ensures none { AllByRecursion (λ b. b ≢ 10) (take result text.now) }
    ensures feed { FeedFirst (drop result text.now) }
{
    for (i, b) in text.iter().enumerate() {
        if *b == b'\n' {
            return i;
        }
    }
    text.len()
}

/// What stands behind the first line of a text.
fn behind_line(text: &[u8]) -> &[u8]
    requires { 0 < length text.now }
    ensures line { (line : List ℕ) × (lines text.now ≡ line ∷ lines result.now) }
    ensures shorter { length result.now < length text.now }
{
    let (_, rest) = text.split_at(line_len(text));
    match rest.split_first() {
        Some((_, more)) => more,
        None => rest,
    }
}

/// What stands behind so many lines of a text.
fn behind_lines(text: &[u8], count: u32) -> &[u8]
    ensures { StandsBehind count text.now result.now }
{
    let mut rest = text;
    for done in 0..count {
        if rest.is_empty() {
            return rest;
        }
        rest = behind_line(rest);
    }
    rest
}

/// Whether a line breaks the rule by itself.
fn is_of_lines(rule: SourceRule) -> bool
    ensures { result ≡ true → IsOfLines rule }
{
    matches!(
        rule,
        SourceRule::NotAscii | SourceRule::Tab | SourceRule::UnknownIndicator
    )
}

/// What is refused of a line.
fn line_refusal(rule: SourceRule, line: u32) -> Refusal
    ensures rule { result.fault.rule ≡ Source rule }
    ensures entry { result.from ≡ None }
    ensures line { result.fault.line ≡ line }
{
    Refusal {
        fault: BookFault {
            rule: BookRule::Source(rule),
            line,
        },
        from: None,
    }
}

/// Refusals, and behind them the fault of what is left of a text behind so many lines, where a line breaks its rule by itself.
///
/// # Errors
///
/// Where no memory is left.
fn with_line(
    refusals: Vec<Refusal>,
    fault: SourceFault,
    before: u32,
) -> Result<Vec<Refusal>, AllocError>
    ensures { (text rest : List ℕ) → IsBehind before text rest
        → IsSourceRefusal fault.rule fault.line rest
        → AllByRecursion (IsRefusedText text) refusals.items
        → IfOk result (λ v. AllByRecursion (IsRefusedText text) v.items) }
{
    if !is_of_lines(fault.rule) {
        return Ok(refusals);
    }
    match before.checked_add(fault.line) {
        Some(line) => pushed(refusals, line_refusal(fault.rule, line)),
        None => Ok(refusals),
    }
}

/// What is told of the lines of a text behind so many of them, each of which breaks a rule by itself.
///
/// # Errors
///
/// Where no memory is left.
pub(crate) fn line_refusals(
    alloc: Global,
    text: &[u8],
    before: u32,
) -> Result<Vec<Refusal>, AllocError>
    ensures { IfOk result (λ v. AllByRecursion (IsRefusedText text.now) v.items) }
{
    let mut out: Vec<Refusal> = Vec::new(alloc);
    let mut number = before;
    let mut rest = behind_lines(text, before);
    for done in 0..text.len() {
        if rest.is_empty() {
            return Ok(out);
        }
        let Err(fault) = tokens(alloc, rest) else {
            return Ok(out);
        };
        if let SourceRule::Memory = fault.rule {
            return Err(AllocError);
        }
        let passed = fault.line.max(1);
        let Some(now) = number.checked_add(passed) else {
            return Ok(out);
        };
        let more = with_line(out, fault, number)?;
        out = more;
        number = now;
        rest = behind_lines(rest, passed);
    }
    Ok(out)
}
