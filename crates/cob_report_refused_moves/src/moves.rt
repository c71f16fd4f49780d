//! The refusals of a paragraph.

ghost use Rattle.std.specs.Prelude.{◌≡◌, ◌↔◌, ◌++◌, ◌∷◌, ℕ, List, [], IfOk, IfSome, IsTrue, OnOk};
ghost use Rattle.std.specs.List.{AllByRecursion};
ghost use Rattle.cob_source.specs.Tokens.{lexeme, lexemes};
ghost use Rattle.cob_source.specs.Words.{AreParagraphWordsOf};
ghost use Rattle.cob_copybook_tree.specs.Forests.{Forest};
ghost use Rattle.cob_copybook_tree.specs.Nodes.{Resolved};
ghost use Rattle.cob_move_apply.specs.Some.{SomeOf};
ghost use Rattle.cob_move_deeds.specs.Deeds.{Deeds};
ghost use Rattle.cob_move_deeds.specs.Tests.{Test};
ghost use Rattle.cob_move_loops.specs.Passages.{IsPassage, Passage};
ghost use Rattle.cob_move_loops.specs.Reading.{all_runs, run_words};
ghost use Rattle.cob_move_loops.specs.Words.{IsOther};
ghost use Rattle.cob_move_names.specs.Valued.{PlainConditionNames, plain_names};
ghost use Rattle.cob_move.specs.Bodies.{IsBodyIn};
ghost use Rattle.cob_move.specs.Paragraphs.{IsParagraphOf, IsRefusalOf};
ghost use Rattle.cob_report_refused_moves.specs.Statements.{AddsOfBody, AddsOfRun, AddsOfRuns, AreMoveRefusals, FirstIsOf, IsMoveRefusal, IsRefusedThere};

use crate::statements::{add_run, add_statements, spot_of};
use cob_layout::Layout;
use cob_move::{ConditionNames, Paragraph};
use cob_move_loops::{Run, check, is_few, is_shallow, passage_word, write_out};
use cob_move_statements::{MoveFault, MoveRule, behind_heading};
use cob_report_refusals::{MoveRefusal, Spot};
use cob_source::{SourceRule, Token, paragraph_tokens};
use std::alloc::{AllocError, Global};

/// In how many turns a run is judged at most: to judge one statement costs as much as to judge many.
const MOST_TURNS: u32 = 100;

/// Which runs are judged.
#[derive(Clone, Copy)]
struct Judging {
    /// Where the run begins that stands last in the text, of those so far.
    furthest: Option<Spot>,
    /// How many are judged from this one on, up to one that stands behind all before.
    left: u32,
}

/// The words of a text, none where it breaks a rule of the reference format.
///
/// # Errors
///
/// Where no memory is left.
fn words_of(alloc: Global, text: &[u8]) -> Result<Option<Vec<Token>>, AllocError>
    ensures { IfOk result (λ o. IfSome o (λ v. AreParagraphWordsOf text.now (lexemes v.items))) }
{
    match paragraph_tokens(alloc, text) {
        Ok(words) => Ok(Some(words)),
        Err(fault) => match fault.rule {
            SourceRule::Memory => Err(AllocError),
            _ => Ok(None),
        },
    }
}

/// Whether a word is no word round statements.
fn is_other(word: &Token) -> bool
    ensures { IsTrue result ↔ IsOther (lexeme word.now) }
{
    match passage_word(word) {
        Some(_) => false,
        None => true,
    }
}

/// Whether no word round statements is among words.
fn are_others(words: &[Token]) -> bool
    ensures { IsTrue result → AllByRecursion IsOther (lexemes words.now) }
{
    let mut rest = words;
    while let Some((first, more)) = rest.split_first() {
        if !is_other(first) {
            return false;
        }
        rest = more;
    }
    true
}

/// The words behind the heading, if one comes first: the name of a paragraph is no word round statements.
fn body_of(words: &[Token]) -> &[Token]
    ensures { IsBodyIn (lexemes words.now) (lexemes result.now) }
{
    let Some((first, _)) = words.split_first() else {
        return words;
    };
    if !is_other(first) {
        return words;
    }
    behind_heading(words)
}

/// Whether words are a passage.
fn are_passage(body: &[Token]) -> bool
    ensures { IsTrue result → (p : Passage) × IsPassage p (lexemes body.now) }
{
    match check(body) {
        Ok(()) => true,
        Err(_) => false,
    }
}

/// Whether words are a passage that can be written out: few of its loops hold one another, and it comes to few statements.
fn can_be_written_out(body: &[Token]) -> bool
    ensures { IsTrue result → (p : Passage) × IsPassage p (lexemes body.now) }
{
    is_shallow(body) && are_passage(body) && is_few(body)
}

/// Whether one place stands behind another, if there are both, or is the first.
fn is_behind(place: Option<Spot>, other: Option<Spot>) -> bool {
    match (place, other) {
        (Some(place), Some(other)) => {
            place.line > other.line || (place.line == other.line && place.column > other.column)
        }
        (Some(_), None) => true,
        (None, _) => false,
    }
}

/// Whether this run is judged, and those behind it.
fn judging_of(before: Judging, run: &[Token]) -> Judging {
    let place = spot_of(run);
    if is_behind(place, before.furthest) {
        return Judging {
            furthest: place,
            left: MOST_TURNS,
        };
    }
    Judging {
        furthest: before.furthest,
        left: before.left.saturating_sub(1),
    }
}

/// Puts what is refused of the statements of a run, as they are in its turn, behind other refusals, where some are still to be judged.
///
/// # Errors
///
/// Where no memory is left.
fn add_judged(
    alloc: Global,
    input: &Layout,
    output: &Layout,
    run: &Run<'_>,
    left: u32,
    out: &mut Vec<MoveRefusal>,
) -> Result<(), AllocError>
    ensures { OnOk result (AddsOfRun input.now output.now (run_words run.now) out.old.items
        out.new.items) }
{
    if left == 0 {
        return Ok(());
    }
    add_run(alloc, input, output, run, out)
}

/// Puts what is refused of the statements of runs, as they are in their first turns, behind other refusals.
///
/// # Errors
///
/// Where no memory is left.
fn add_runs(
    alloc: Global,
    input: &Layout,
    output: &Layout,
    runs: &[Run<'_>],
    out: &mut Vec<MoveRefusal>,
) -> Result<(), AllocError>
    ensures { OnOk result (AddsOfRuns input.now output.now
        (λ run. SomeOf (λ ws. ws ≡ run) (all_runs runs.now)) out.old.items out.new.items) }
{
    let mut judging = Judging {
        furthest: None,
        left: 0,
    };
    for run in runs {
        judging = judging_of(judging, run.words);
        add_judged(alloc, input, output, run, judging.left, out)?;
    }
    Ok(())
}

/// Puts what is refused of the statements of a passage, those of all branches, as they are in the turns of its loops, behind other refusals.
///
/// # Errors
///
/// Where no memory is left.
fn add_looped(
    alloc: Global,
    input: &Layout,
    output: &Layout,
    body: &[Token],
    out: &mut Vec<MoveRefusal>,
) -> Result<(), AllocError>
    requires { (p : Passage) × IsPassage p (lexemes body.now) }
    ensures { OnOk result (AddsOfBody input.now output.now (lexemes body.now) out.old.items
        out.new.items) }
{
    let runs = write_out(alloc, body)?;
    add_runs(alloc, input, output, runs.as_slice(), out)
}

/// Puts what is refused of the statements of words behind a heading, each by itself, behind other refusals: nothing where loops or choices are among them
/// that can't be written out.
///
/// # Errors
///
/// Where no memory is left.
fn add_body(
    alloc: Global,
    input: &Layout,
    output: &Layout,
    body: &[Token],
    out: &mut Vec<MoveRefusal>,
) -> Result<(), AllocError>
    ensures { OnOk result (AddsOfBody input.now output.now (lexemes body.now) out.old.items
        out.new.items) }
{
    if are_others(body) {
        return add_statements(alloc, input, output, body, out);
    }
    if can_be_written_out(body) {
        return add_looped(alloc, input, output, body, out);
    }
    Ok(())
}

/// What is refused of the statements in a text with these words, each by itself.
///
/// # Errors
///
/// Where no memory is left.
fn statement_refusals(
    alloc: Global,
    input: &Layout,
    output: &Layout,
    words: &[Token],
) -> Result<Vec<MoveRefusal>, AllocError>
    ensures { IfOk result (λ v. (text : List ℕ) (names : PlainConditionNames)
        → AreParagraphWordsOf text (lexemes words.now)
        → AreMoveRefusals text input.now output.now names v.items) }
{
    let mut out: Vec<MoveRefusal> = Vec::new(alloc);
    add_body(alloc, input, output, body_of(words), &mut out)?;
    Ok(out)
}

/// Whether two faults are one.
fn is_same(fault: &MoveFault, other: &MoveFault) -> bool
    ensures { IsTrue result → fault.now ≡ other.now }
{
    *fault == *other
}

/// How many refusals stand before the first of this fault, if one is of it.
fn place_of(first: &MoveFault, found: &[MoveRefusal]) -> Option<usize> {
    for (at, refusal) in found.iter().enumerate() {
        if is_same(first, &refusal.fault) {
            return Some(at);
        }
    }
    None
}

/// Where the statement stands of a refusal, if it is of this fault.
fn place_in(first: &MoveFault, refusal: &MoveRefusal) -> Option<Spot>
    ensures { (text : List ℕ) (input output : Forest Resolved) (names : PlainConditionNames)
        → IsMoveRefusal text input output names refusal.now
        → IfSome result (IsRefusedThere first.now text input output) }
{
    if is_same(first, &refusal.fault) {
        return refusal.at;
    }
    None
}

/// Where the statement stands of the refusal with this number, if there are as many and it is of this fault, and the others: those before it, and those behind it.
fn parted_at<'a>(
    first: &MoveFault,
    found: &'a [MoveRefusal],
    number: usize,
) -> (Option<Spot>, &'a [MoveRefusal], &'a [MoveRefusal])
    ensures { (text : List ℕ) (input output : Forest Resolved) (names : PlainConditionNames)
        → AreMoveRefusals text input output names found.now
        → IfSome result.0 (IsRefusedThere first.now text input output)
        × AreMoveRefusals text input output names result.1.now
        × AreMoveRefusals text input output names result.2.now }
{
    let (before, rest) = found.split_at(number.min(found.len()));
    match rest.split_first() {
        Some((head, others)) => (place_in(first, head), before, others),
        None => (None, before, rest),
    }
}

/// Where the statement stands of the fault that is told first, if it is among these refusals, and the others: those before it, and those behind it.
fn parted<'a>(
    first: &MoveFault,
    found: &'a [MoveRefusal],
) -> (Option<Spot>, &'a [MoveRefusal], &'a [MoveRefusal])
    ensures { (text : List ℕ) (input output : Forest Resolved) (names : PlainConditionNames)
        → AreMoveRefusals text input output names found.now
        → IfSome result.0 (IsRefusedThere first.now text input output)
        × AreMoveRefusals text input output names result.1.now
        × AreMoveRefusals text input output names result.2.now }
{
    match place_of(first, found) {
        Some(number) => parted_at(first, found, number),
        None => (None, &[], found),
    }
}

/// A refusal, and others behind it.
///
/// # Errors
///
/// Where no memory is left.
fn followed(
    alloc: Global,
    first: MoveRefusal,
    before: &[MoveRefusal],
    behind: &[MoveRefusal],
) -> Result<Vec<MoveRefusal>, AllocError>
    ensures { IfOk result (λ v. v.items ≡ (first ∷ before.now) ++ behind.now) }
{
    let mut out = Vec::new(alloc);
    out.push(first)?;
    out.extend_from_slice(before)?;
    out.extend_from_slice(behind)?;
    Ok(out)
}

/// Refusals behind the fault that is told first, which may be one of them.
///
/// # Errors
///
/// Where no memory is left.
fn behind_first(
    alloc: Global,
    first: MoveFault,
    found: &[MoveRefusal],
) -> Result<Vec<MoveRefusal>, AllocError>
    ensures begins { IfOk result (λ v. FirstIsOf first v.items) }
    ensures each { (text : List ℕ) (input output : Forest Resolved) (names : PlainConditionNames)
        → IsRefusalOf first text input output names
        → AreMoveRefusals text input output names found.now
        → IfOk result (λ v. AreMoveRefusals text input output names v.items) }
{
    let (at, before, behind) = parted(&first, found);
    let refusal = MoveRefusal { fault: first, at };
    followed(alloc, refusal, before, behind)
}

/// The refusals of words that make no paragraph, this fault of which is told first.
///
/// # Errors
///
/// Where no memory is left.
fn refusals_of_words(
    alloc: Global,
    input: &Layout,
    output: &Layout,
    words: &[Token],
    first: MoveFault,
) -> Result<Vec<MoveRefusal>, AllocError>
    ensures begins { IfOk result (λ v. FirstIsOf first v.items) }
    ensures each { (text : List ℕ) (names : PlainConditionNames)
        → IsRefusalOf first text input.now output.now names
        → AreParagraphWordsOf text (lexemes words.now)
        → IfOk result (λ v. AreMoveRefusals text input.now output.now names v.items) }
{
    let found = statement_refusals(alloc, input, output, words)?;
    behind_first(alloc, first, found.as_slice())
}

/// The refusals of a text that is no paragraph, this fault of which is told first.
///
/// # Errors
///
/// Where no memory is left.
fn refusals_with(
    alloc: Global,
    input: &Layout,
    output: &Layout,
    text: &[u8],
    first: MoveFault,
) -> Result<Vec<MoveRefusal>, AllocError>
    ensures begins { IfOk result (λ v. FirstIsOf first v.items) }
    ensures each { (names : PlainConditionNames)
        → IsRefusalOf first text.now input.now output.now names
        → IfOk result (λ v. AreMoveRefusals text.now input.now output.now names v.items) }
{
    match words_of(alloc, text)? {
        Some(words) => refusals_of_words(alloc, input, output, words.as_slice(), first),
        None => behind_first(alloc, first, &[]),
    }
}

/// Why a text is no paragraph between the records of two layouts: the fault that [`Paragraph::read`] answers, and behind it those of the statements that are refused
/// by themselves, the first of each, as they are written. Of a paragraph there are none.
///
/// # Errors
///
/// Where no memory is left.
pub fn move_refusals(
    alloc: Global,
    input: &Layout,
    output: &Layout,
    names: ConditionNames<'_>,
    text: &[u8],
) -> Result<Vec<MoveRefusal>, AllocError>
    // Each names a rule that is broken, and no place but that of a statement which breaks it.
    ensures each { IfOk result
        (λ v. AreMoveRefusals text.now input.now output.now (plain_names names.entry) v.items) }
    // Of a text that is a paragraph nothing is told.
    ensures none { (d : Deeds Test)
        → IsParagraphOf text.now input.now output.now (plain_names names.entry) d
        → IfOk result (λ v. v.items ≡ []) }
    // A text of which nothing is told is a paragraph.
    ensures some { IfOk result (λ v. v.items ≡ []
        → (d : Deeds Test) × IsParagraphOf text.now input.now output.now (plain_names names.entry) d) }
{
    let Err(fault) = Paragraph::read(alloc, input, output, names, text) else {
        return Ok(Vec::new(alloc));
    };
    if let MoveRule::Memory = fault.rule {
        return Err(AllocError);
    }
    refusals_with(alloc, input, output, text, fault)
}
