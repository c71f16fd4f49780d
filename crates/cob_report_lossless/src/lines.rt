//! The lines of a paragraph's statements, those of a loop once for each of its turns.

ghost use Rattle.std.specs.Prelude.{◌≡◌, ℕ, List, [], IfOk, IsOkAnd, map};
ghost use Rattle.cob_move_loops.specs.Passages.{IsPassage, Passage};
ghost use Rattle.cob_move_loops.specs.Reading.{all_runs, run_words};
ghost use Rattle.cob_move_loops.specs.Turns.{words_by_turn};
ghost use Rattle.cob_move_statements.specs.Reading.{IsOrLacksMemory};
ghost use Rattle.cob_move_statements.specs.Written.{written_statements};
ghost use Rattle.cob_report_lossless.specs.Lines.{AreLinesOf, AreRunLines, AreStatementLines, HasBody, line_of_statement};
ghost use Rattle.cob_source.specs.Tokens.{Lexeme, lexemes};

use cob_move_loops::{Run, breaks_none, check, in_turn, no_turn, one_passage, write_out};
use cob_move_statements::{MoveFault, MoveRule, Statement, behind_heading, ended_statements};
use cob_source::{Token, paragraph_tokens, paragraph_words_are_one};
use std::alloc::{AllocError, Global};

/// The line of the first word of each statement.
fn first_lines(alloc: Global, statements: &[Statement<'_>]) -> Result<Vec<u32>, AllocError>
    ensures { IfOk result (λ lines. lines.items ≡ map line_of_statement (written_statements statements.now)) }
{
    let mut lines = Vec::with_capacity(alloc, statements.len())?;
    for statement in statements {
        lines.push(statement.line)?;
    }
    Ok(lines)
}

/// The lines of the statements that words are.
pub(crate) fn statement_lines(alloc: Global, words: &[Token]) -> Result<Vec<u32>, MoveFault>
    ensures found { IfOk result (λ lines. AreStatementLines (lexemes words.now) lines.items) }
    ensures only { (lines : List ℕ) → AreStatementLines (lexemes words.now) lines
        → IsOrLacksMemory (λ v. v.items ≡ lines) result }
{
    let statements = ended_statements(alloc, words)?;
    let lines = first_lines(alloc, statements.as_slice())?;
    Ok(lines)
}

/// The lines of the statements of a run, in its turn.
fn run_lines(alloc: Global, run: &Run<'_>) -> Result<Vec<u32>, MoveFault>
    ensures found { IfOk result (λ lines. AreStatementLines (run_words run.now) lines.items) }
    ensures only { (lines : List ℕ) → AreStatementLines (run_words run.now) lines
        → IsOrLacksMemory (λ v. v.items ≡ lines) result }
{
    // Outside of loops words are as they are written.
    no_turn();
    let turn = run.turn.as_slice();
    if turn.is_empty() {
        return statement_lines(alloc, run.words);
    }
    let words = in_turn(alloc, run.words, turn)?;
    let lines = statement_lines(alloc, words.as_slice())?;
    Ok(lines)
}

/// The lines of the statements of runs, one run's behind another's.
fn all_lines(alloc: Global, runs: &[Run<'_>]) -> Result<Vec<u32>, MoveFault>
    ensures found { IfOk result (λ lines. AreRunLines (all_runs runs.now) lines.items) }
    ensures only { (lines : List ℕ) → AreRunLines (all_runs runs.now) lines
        → IsOrLacksMemory (λ v. v.items ≡ lines) result }
{
    let mut lines = Vec::new(alloc);
    for run in runs {
        let mut own = run_lines(alloc, run)?;
        lines.append(&mut own)?;
    }
    Ok(lines)
}

/// The words behind a heading, if there is one, which are a passage.
pub(crate) fn body_of(words: &[Token]) -> Result<&[Token], MoveFault>
    ensures found { IfOk result (λ body. HasBody (lexemes words.now) (lexemes body.now)) }
    ensures only { (body : List Lexeme) (has : HasBody (lexemes words.now) body)
        → IsOkAnd result (λ own. (p : Passage) → IsPassage p (lexemes own.now)
        → words_by_turn [] p ≡ words_by_turn [] has.passage) }
{
    one_passage();
    breaks_none();
    let Err(_) = check(words) else {
        return Ok(words);
    };
    let body = behind_heading(words);
    match check(body) {
        Ok(()) => Ok(body),
        Err(line) => Err(MoveFault {
            rule: MoveRule::Grammar,
            line,
        }),
    }
}

/// The line of the first word of each statement of a paragraph that was read before, in their order.
///
/// # Errors
///
/// The text is no paragraph, or memory was refused.
pub fn lines_of(alloc: Global, text: &[u8]) -> Result<Vec<u32>, MoveFault>
    // What is answered are the text's lines.
    ensures found { IfOk result (λ lines. AreLinesOf text.now lines.items) }
    // A text that has such lines is answered by them; it is refused for want of memory alone.
    ensures only { (lines : List ℕ) → AreLinesOf text.now lines
        → IsOrLacksMemory (λ v. v.items ≡ lines) result }
{
    paragraph_words_are_one();
    let words = paragraph_tokens(alloc, text)?;
    let body = body_of(words.as_slice())?;
    let runs = write_out(alloc, body)?;
    let lines = all_lines(alloc, runs.as_slice())?;
    Ok(lines)
}

/// The line of the statement with this number, from 0.
pub fn line_at(lines: &[u32], statement: usize) -> u32 {
    match lines.get(statement) {
        Some(line) => *line,
        None => 0,
    }
}
