//! What is compared.

ghost use Rattle.std.specs.Prelude.{◌≡◌, ◌↔◌, ◌++◌, IfSome, IsTrue, List};
ghost use Rattle.std.specs.List.{AllByRecursion};
ghost use Rattle.cob_copybook_clauses.specs.Reading.{Answers, EachCutNeither, StandInFront};
ghost use Rattle.cob_copybook_clauses.specs.declared.term.WordClass.TheVariants as term;
ghost use Rattle.cob_source.specs.Tokens.{Lexeme, lexemes};
ghost use Rattle.cob_move_statements.specs.Written.{WrittenSender, written_sender};
ghost use Rattle.cob_move_conditions.specs.Operands.{IsWrittenOperand};
ghost use Rattle.cob_move_conditions.specs.Fronts.{IsAny};
ghost use Rattle.cob_move_conditions.specs.Words.{IsNoConditionWord};

use crate::words::condition_word;
use cob_copybook_clauses::front;
use cob_move_statements::{StatementSender, sender_at};
use cob_source::Token;

/// The words before those that are left.
fn words_before<'a>(words: &'a [Token], left: &[Token]) -> &'a [Token]
    requires { StandInFront IsAny (lexemes words.now) (lexemes left.now) }
    ensures { (own : List Lexeme) → lexemes words.now ≡ own ++ lexemes left.now
        → lexemes result.now ≡ own }
{
    front(words, left.len())
}

/// Whether no word of conditions is among words.
fn has_no_condition_word(words: &[Token]) -> bool
    ensures { IsTrue result ↔ AllByRecursion IsNoConditionWord (lexemes words.now) }
{
    let mut rest = words;
    while let Some((first, more)) = rest.split_first() {
        if condition_word(first).is_some() {
            return false;
        }
        rest = more;
    }
    true
}

/// The operand in front, and what is behind it.
pub fn operand_at(words: &[Token]) -> Option<(StatementSender<'_>, &[Token])>
    ensures found { IfSome result (λ r. StandInFront (IsWrittenOperand (written_sender r.0))
        (lexemes words.now) (lexemes r.1.now)) }
    ensures only { (x : WrittenSender) → EachCutNeither (IsWrittenOperand x) term.Of
        term.OpenBracket (lexemes words.now) (Answers written_sender result x) }
{
    let (sender, more) = sender_at(words)?;
    if !has_no_condition_word(words_before(words, more)) {
        return None;
    }
    Some((sender, more))
}
