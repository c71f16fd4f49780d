//! The refusals of statements, each by itself.

ghost use Rattle.std.specs.Prelude.{◌≡◌, ◌++◌, ◌∷◌, ℕ, List, [], IfOk, IfSome, OnOk};
ghost use Rattle.cob_source.specs.Tokens.{lexemes};
ghost use Rattle.cob_move_loops.specs.Reading.{run_words};
ghost use Rattle.cob_move_names.specs.Candidates.{all_entries};
ghost use Rattle.cob_move_names.specs.Valued.{PlainConditionNames};
ghost use Rattle.cob_move_statements.specs.Written.{written_statements};
ghost use Rattle.cob_move.specs.Bodies.{RunIsRefused};
ghost use Rattle.cob_move.specs.Refusals.{AreBroken};
ghost use Rattle.cob_report_refused_moves.specs.Statements.{AddsOfRun, AreMoveRefusals, BeginsThere, IsRefusedStatement};

use crate::written::written_at;
use cob_layout::Layout;
use cob_move::all_meant;
use cob_move_loops::{Run, in_turn};
use cob_move_statements::{MoveFault, MoveRule, Statement, ended_statements};
use cob_report_refusals::{MoveRefusal, Spot};
use cob_source::Token;
use std::alloc::{AllocError, Global};

/// How often a number of statements can be halved.
const HALVINGS: u32 = 64;

/// The fault of statements between two records, if one of them breaks a rule.
fn meaning_fault(
    alloc: Global,
    input: &Layout,
    output: &Layout,
    statements: &[Statement<'_>],
) -> Option<MoveFault>
    ensures { IfSome result (λ f. AreBroken f input.now output.now
        (written_statements statements.now)) }
{
    match all_meant(alloc, input, output, statements) {
        Ok(_meant) => None,
        Err(fault) => Some(fault),
    }
}

/// The fault of words, if they are no statements, or one of these breaks a rule.
fn words_fault(alloc: Global, input: &Layout, output: &Layout, words: &[Token]) -> Option<MoveFault>
    ensures { IfSome result (λ f. RunIsRefused f (all_entries input.now output.now)
        input.now output.now (lexemes words.now)) }
{
    match ended_statements(alloc, words) {
        Ok(statements) => meaning_fault(alloc, input, output, statements.as_slice()),
        Err(fault) => Some(fault),
    }
}

/// The fault of words, likewise.
///
/// # Errors
///
/// Where no memory is left.
fn fault_of_words(
    alloc: Global,
    input: &Layout,
    output: &Layout,
    words: &[Token],
) -> Result<Option<MoveFault>, AllocError>
    ensures { IfOk result (λ o. IfSome o (λ f. RunIsRefused f (all_entries input.now output.now)
        input.now output.now (lexemes words.now))) }
{
    let Some(fault) = words_fault(alloc, input, output, words) else {
        return Ok(None);
    };
    match fault.rule {
        MoveRule::Memory => Err(AllocError),
        _ => Ok(Some(fault)),
    }
}

/// Where the first of these words stands, if there is one.
pub(crate) fn spot_of(words: &[Token]) -> Option<Spot>
    ensures { IfSome result (λ s. BeginsThere s (lexemes words.now)) }
{
    let first = words.first()?;
    Some(Spot {
        line: first.line,
        column: first.column,
    })
}

/// Whether a statement is told that begins there.
fn is_told(refusals: &[MoveRefusal], at: Option<Spot>) -> bool {
    let Some(place) = at else {
        return false;
    };
    for refusal in refusals {
        if let Some(other) = refusal.at {
            if other.line == place.line && other.column == place.column {
                return true;
            }
        }
    }
    false
}

/// Puts a refusal behind others.
///
/// # Errors
///
/// Where no memory is left.
fn push_refusal(out: &mut Vec<MoveRefusal>, refusal: MoveRefusal) -> Result<(), AllocError>
    ensures { OnOk result (out.new.items ≡ out.old.items ++ refusal ∷ []) }
{
    out.push(refusal)?;
    Ok(())
}

/// Puts what is refused of a statement, as it is written, behind other refusals.
///
/// # Errors
///
/// Where no memory is left.
fn add_statement(
    alloc: Global,
    input: &Layout,
    output: &Layout,
    own: &[Token],
    out: &mut Vec<MoveRefusal>,
) -> Result<(), AllocError>
    ensures { OnOk result ((text : List ℕ) (names : PlainConditionNames)
        → ((f : MoveFault) → RunIsRefused f (all_entries input.now output.now) input.now output.now
        (lexemes own.now) → IsRefusedStatement f text input.now output.now (lexemes own.now))
        → AreMoveRefusals text input.now output.now names out.old.items
        → AreMoveRefusals text input.now output.now names out.new.items) }
{
    let at = spot_of(own);
    let found = fault_of_words(alloc, input, output, own)?;
    match found {
        Some(fault) => push_refusal(out, MoveRefusal { fault, at }),
        None => Ok(()),
    }
}

/// What is known of the statements from one on.
#[derive(Clone, Copy)]
struct Outlook {
    /// How many of them break no rule or are told, from this one on.
    clear: usize,
    /// How many are judged together next: to judge one costs as much as to judge many.
    together: usize,
}

/// The words of so many statements in front, as they are written, or of all.
fn statements_in_front(words: &[Token], count: usize) -> &[Token] {
    let mut rest = words;
    for _ in 0..count {
        if rest.is_empty() {
            return words;
        }
        let (_, more) = written_at(rest);
        rest = more;
    }
    let (front, _) = words.split_at(words.len().saturating_sub(rest.len()));
    front
}

/// Whether so many statements in front break no rule.
///
/// # Errors
///
/// Where no memory is left.
fn are_clear(
    alloc: Global,
    input: &Layout,
    output: &Layout,
    words: &[Token],
    count: usize,
) -> Result<bool, AllocError> {
    let found = fault_of_words(alloc, input, output, statements_in_front(words, count))?;
    Ok(found.is_none())
}

/// What is known of the statements in front, where at most so many are judged together: half as many wherever one of them breaks a rule, and none alone.
///
/// # Errors
///
/// Where no memory is left.
fn looked_at(
    alloc: Global,
    input: &Layout,
    output: &Layout,
    words: &[Token],
    most: usize,
) -> Result<Outlook, AllocError> {
    let mut together = most;
    for _ in 0..HALVINGS {
        if together < 2 {
            break;
        }
        if are_clear(alloc, input, output, words, together)? {
            return Ok(Outlook {
                clear: together,
                together: together.saturating_mul(2),
            });
        }
        together /= 2;
    }
    Ok(Outlook {
        clear: 0,
        together: 2,
    })
}

/// What is known of the statements in front, the first of which may be told, where this was known from the one before on.
///
/// # Errors
///
/// Where no memory is left.
fn outlook_behind(
    alloc: Global,
    input: &Layout,
    output: &Layout,
    words: &[Token],
    told: bool,
    before: Outlook,
) -> Result<Outlook, AllocError> {
    let together = before.together;
    if before.clear > 1 {
        return Ok(Outlook {
            clear: before.clear - 1,
            together,
        });
    }
    if told {
        return Ok(Outlook { clear: 1, together });
    }
    looked_at(alloc, input, output, words, together)
}

/// Puts what is refused of a statement, as it is written, behind other refusals, where it is not known to be clear.
///
/// # Errors
///
/// Where no memory is left.
fn add_doubtful(
    alloc: Global,
    input: &Layout,
    output: &Layout,
    own: &[Token],
    clear: usize,
    out: &mut Vec<MoveRefusal>,
) -> Result<(), AllocError>
    ensures { OnOk result ((text : List ℕ) (names : PlainConditionNames)
        → ((f : MoveFault) → RunIsRefused f (all_entries input.now output.now) input.now output.now
        (lexemes own.now) → IsRefusedStatement f text input.now output.now (lexemes own.now))
        → AreMoveRefusals text input.now output.now names out.old.items
        → AreMoveRefusals text input.now output.now names out.new.items) }
{
    if clear > 0 {
        return Ok(());
    }
    add_statement(alloc, input, output, own, out)
}

/// Puts what is refused of the statements in words, as they are written, behind other refusals.
///
/// # Errors
///
/// Where no memory is left.
pub(crate) fn add_statements(
    alloc: Global,
    input: &Layout,
    output: &Layout,
    run: &[Token],
    out: &mut Vec<MoveRefusal>,
) -> Result<(), AllocError>
    ensures { OnOk result (AddsOfRun input.now output.now (lexemes run.now) out.old.items
        out.new.items) }
{
    let mut outlook = Outlook {
        clear: 0,
        together: run.len(),
    };
    let mut rest = run;
    while !rest.is_empty() {
        let (own, more) = written_at(rest);
        let told = is_told(out.as_slice(), spot_of(own));
        outlook = outlook_behind(alloc, input, output, rest, told, outlook)?;
        add_doubtful(alloc, input, output, own, outlook.clear, out)?;
        rest = more;
    }
    Ok(())
}

/// Puts what is refused of the statements of a run, as they are in its turn, behind other refusals.
///
/// # Errors
///
/// Where no memory is left.
pub(crate) fn add_run(
    alloc: Global,
    input: &Layout,
    output: &Layout,
    run: &Run<'_>,
    out: &mut Vec<MoveRefusal>,
) -> Result<(), AllocError>
    ensures { OnOk result (AddsOfRun input.now output.now (run_words run.now) out.old.items
        out.new.items) }
{
    let words = in_turn(alloc, run.words, run.turn.as_slice())?;
    add_statements(alloc, input, output, words.as_slice(), out)
}
