ghost use Rattle.cob_move_loops.specs.Words.{IsPeriod, first_line};
ghost use Rattle.std.specs.Prelude.{
  ◌≡◌,
  ◌⊎◌,
  ◌↔◌,
  List,
  ℕ,
  ◌∷◌,
  ◌++◌,
  IfErr,
  IfOk,
  IfSome,
  IsTrue,
};
ghost use Rattle.cob_copybook_clauses.specs.Clauses.{IsNameWord};
ghost use Rattle.cob_copybook_clauses.specs.Terms.{word_class};
ghost use Rattle.cob_copybook_clauses.specs.declared.term.WordClass.TheVariants as term;
ghost use Rattle.cob_source.specs.Tokens.{Lexeme, lexeme, lexemes};
ghost use Rattle.cob_move_statements.specs.Written.{WrittenStatement, written_statements, written_statement};
ghost use Rattle.cob_copybook_clauses.specs.Reading.{Answers, EachCut, Leaves, StandInFront};
ghost use Rattle.cob_move_statements.specs.Reading.{IsOrLacksMemory, OkAnswers, Refused};
ghost use Rattle.cob_move_statements.specs.Statements.{
  EndsReferences,
  EndsStatement,
  IsBody,
  IsHeading,
  IsLineIn,
  IsLineOf,
  IsParagraph,
  IsEndedStatement,
  IsStatement,
  NoName,
  Several,
  StatementStands,
};

use crate::actions::action_at;
use crate::fault::{MoveFault, MoveRule};
use crate::parts::Statement;
use cob_copybook_clauses::{WordClass, is_name_word, is_term};
use cob_move_loops::{behind_stop, behind_stops, first_line, is_stop};
use cob_source::Token;
use std::alloc::{AllocError, Global};

/// The line of the MOVE in front, and what is behind it.
fn move_line_at(words: &[Token]) -> Option<(u32, &[Token])>
    ensures found { IfSome result (λ r. (w : Lexeme) × (word_class w ≡ term.Move) × (r.0 ≡ w.line)
        × (lexemes words.now ≡ w ∷ lexemes r.1.now)) }
    ensures only { (w : Lexeme) (more : List Lexeme) → word_class w ≡ term.Move
        → lexemes words.now ≡ w ∷ more → Answers (λ line. line) result w.line more }
{
    let (first, more) = words.split_first()?;
    if !is_term(first, WordClass::Move) {
        return None;
    }
    Some((first.line, more))
}

/// The statement in front, and what is behind it.
///
/// # Errors
///
/// Memory was refused.
fn statement_at(
    alloc: Global,
    words: &[Token],
) -> Result<Option<(Statement<'_>, &[Token])>, AllocError>
    ensures found { IfOk result (λ o. IfSome o (λ r. StandInFront
        (IsStatement (written_statement r.0)) (lexemes words.now) (lexemes r.1.now))) }
    ensures only { (x : WrittenStatement) → EachCut (IsStatement x) EndsReferences
        (lexemes words.now) (OkAnswers written_statement result x) }
{
    let Some((line, moved)) = move_line_at(words) else {
        return Ok(None);
    };
    let Some((action, more)) = action_at(alloc, moved)? else {
        return Ok(None);
    };
    Ok(Some((Statement { line, action }, more)))
}

/// Whether a statement may end here.
fn ends_statement(words: &[Token]) -> bool
    ensures { IsTrue result ↔ EndsStatement (lexemes words.now) }
{
    match words.split_first() {
        Some((first, _)) => is_stop(first) || is_term(first, WordClass::Move),
        None => true,
    }
}

/// The statement in front, and what is behind it and its periods.
///
/// # Errors
///
/// Memory was refused.
fn ended_statement_at(
    alloc: Global,
    words: &[Token],
) -> Result<Option<(Statement<'_>, &[Token])>, AllocError>
    ensures found { IfOk result (λ o. IfSome o
        (λ r. StatementStands (written_statement r.0) (lexemes words.now) (lexemes r.1.now))) }
    ensures only { (x : WrittenStatement) (more : List Lexeme)
        → StatementStands x (lexemes words.now) more → OkAnswers written_statement result x more }
{
    let Some((statement, more)) = statement_at(alloc, words)? else {
        return Ok(None);
    };
    if !ends_statement(more) {
        return Ok(None);
    }
    Ok(Some((statement, behind_stops(more))))
}

/// A fault of the grammar in the statement that these words begin with.
fn ungrammatical(words: &[Token]) -> MoveFault
    ensures rule { result.rule ≡ MoveRule.Grammar }
    ensures line { result.line ≡ first_line (lexemes words.now) }
{
    MoveFault {
        rule: MoveRule::Grammar,
        line: first_line(words),
    }
}

/// The statements that words are, each with the periods behind it.
///
/// # Errors
///
/// The words are no statements, or memory was refused.
pub fn ended_statements(alloc: Global, words: &[Token]) -> Result<Vec<Statement<'_>>, MoveFault>
    ensures found { IfOk result
        (λ v. Several IsEndedStatement (written_statements v.items) (lexemes words.now)) }
    ensures only { (ss : List WrittenStatement) → Several IsEndedStatement ss (lexemes words.now)
        → IfOk result (λ v. written_statements v.items ≡ ss) }
    ensures fault { IfErr result
        (Refused (λ ss. Several IsEndedStatement ss (lexemes words.now))) }
    ensures line { IfErr result (λ f. IsLineIn f.rule f.line (lexemes words.now)) }
{
    let mut statements = Vec::new(alloc);
    let mut rest = words;
    while !rest.is_empty() {
        let Some((statement, more)) = ended_statement_at(alloc, rest)? else {
            return Err(ungrammatical(rest));
        };
        statements.push(statement)?;
        rest = more;
    }
    Ok(statements)
}

/// The words behind a name and a period.
fn heading_at(words: &[Token]) -> Option<&[Token]>
    ensures found { IfSome result (λ r. (name stop : Lexeme) × IsNameWord name × IsPeriod stop
        × (lexemes words.now ≡ name ∷ (stop ∷ lexemes r.now))) }
    ensures only { (name stop : Lexeme) (more : List Lexeme) → IsNameWord name → IsPeriod stop
        → lexemes words.now ≡ name ∷ (stop ∷ more) → Leaves result more }
{
    let (first, named) = words.split_first()?;
    if !is_name_word(first) {
        return None;
    }
    let more = behind_stop(named)?;
    Some(more)
}

/// The words behind the paragraph's name and its period, if they come first.
pub fn behind_heading(words: &[Token]) -> &[Token]
    ensures found { IsBody (lexemes words.now) (lexemes result.now) }
    ensures only { (ws more : List Lexeme) → IsHeading ws → NoName more
        → lexemes words.now ≡ ws ++ more → lexemes result.now ≡ more }
{
    match heading_at(words) {
        Some(more) => more,
        None => words,
    }
}

/// The statements of a paragraph.
///
/// # Errors
///
/// The words are no paragraph, or memory was refused.
pub fn statements(alloc: Global, words: &[Token]) -> Result<Vec<Statement<'_>>, MoveFault>
    // What is read is what the words say.
    ensures found { IfOk result
        (λ v. IsParagraph (lexemes words.now) (written_statements v.items)) }
    // The words of a paragraph are read, memory aside, and mean nothing else.
    ensures only { (ss : List WrittenStatement) → IsParagraph (lexemes words.now) ss
        → IsOrLacksMemory (λ v. written_statements v.items ≡ ss) result }
    // A refusal is for want of memory, or the words are no paragraph.
    ensures fault { IfErr result (Refused (IsParagraph (lexemes words.now))) }
    // It names the line where no statement begins, 1 where no word is left there, and 0 for memory.
    ensures line { IfErr result (λ f. IsLineOf f.rule f.line (lexemes words.now)) }
{
    let body = behind_heading(words);
    if body.is_empty() {
        return Err(ungrammatical(body));
    }
    ended_statements(alloc, body)
}
