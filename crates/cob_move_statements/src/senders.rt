ghost use Rattle.std.specs.Prelude.{◌≡◌, List, ◌∷◌, ◌++◌, IfSome, IsFalse, IsSomeAnd, IsTrue, false};
ghost use Rattle.cob_source.specs.Tokens.{Lexeme, lexemes};
ghost use Rattle.cob_copybook_clauses.specs.Reading.{Answers, EachCutNeither, StandInFront};
ghost use Rattle.cob_move_statements.specs.Reading.{EachCutAtTo, StandBeforeTo};
ghost use Rattle.cob_copybook_clauses.specs.Terms.{word_class};
ghost use Rattle.cob_copybook_clauses.specs.declared.term.WordClass.TheVariants as term;
ghost use Rattle.cob_copybook_clauses.specs.Written.{written_value};
ghost use Rattle.cob_move_statements.specs.Written.{WrittenReference, WrittenSender, written_reference, written_sender};
ghost use Rattle.cob_move_statements.specs.Statements.{IsLiteralOrFigurative, IsReference, IsWrittenSender, NameFirst, NoName};

use crate::parts::{Reference, StatementSender};
use crate::references::reference_at;
use cob_copybook_clauses::{ValueClause, WordClass, behind, constant_at, is_name_word};
use cob_copybook_entries::is_numeric_literal;
use cob_source::Token;

/// Whether a name comes first.
fn begins_with_name(words: &[Token]) -> bool
    ensures yes { IsTrue result → NameFirst (lexemes words.now) }
    ensures no { result ≡ false → NoName (lexemes words.now) }
{
    match words.split_first() {
        Some((first, _)) => is_name_word(first),
        None => false,
    }
}

/// The entry in front that is sent, and what is behind it.
fn sent_entry_at(words: &[Token]) -> Option<(StatementSender<'_>, &[Token])>
    requires { NameFirst (lexemes words.now) }
    ensures found { IfSome result (λ r. StandInFront (IsWrittenSender (written_sender r.0))
        (lexemes words.now) (lexemes r.1.now)) }
    ensures only { (x : WrittenSender) → EachCutNeither (IsWrittenSender x) term.Of term.OpenBracket
        (lexemes words.now) (Answers written_sender result x) }
{
    let (reference, more) = reference_at(words)?;
    Some((StatementSender::Reference(reference), more))
}

/// Whether a constant is a literal or a figurative constant, and no other word.
fn is_literal_or_figurative(constant: &ValueClause<'_>) -> bool
    ensures yes { IsTrue result → IsLiteralOrFigurative (written_value constant.now) }
    ensures no { IsFalse result → IsLiteralOrFigurative (written_value constant.now) → ⊥ }
{
    match constant {
        ValueClause::Word(text) => is_numeric_literal(text),
        ValueClause::Literal(_) | ValueClause::Figurative(_) | ValueClause::All(_) => true,
    }
}

/// The constant in front that is sent, and what is behind it.
fn sent_constant_at(words: &[Token]) -> Option<(StatementSender<'_>, &[Token])>
    requires { NoName (lexemes words.now) }
    ensures found { IfSome result (λ r. StandInFront (IsWrittenSender (written_sender r.0))
        (lexemes words.now) (lexemes r.1.now)) }
    ensures only { (x : WrittenSender) → EachCutNeither (IsWrittenSender x) term.Of term.OpenBracket
        (lexemes words.now) (Answers written_sender result x) }
{
    let (constant, more) = constant_at(words)?;
    if !is_literal_or_figurative(&constant) {
        return None;
    }
    Some((StatementSender::Constant(constant), more))
}

/// The sender in front, and what is behind it.
pub fn sender_at(words: &[Token]) -> Option<(StatementSender<'_>, &[Token])>
    ensures found { IfSome result (λ r. StandInFront (IsWrittenSender (written_sender r.0))
        (lexemes words.now) (lexemes r.1.now)) }
    ensures only { (x : WrittenSender) → EachCutNeither (IsWrittenSender x) term.Of term.OpenBracket
        (lexemes words.now) (Answers written_sender result x) }
{
    if begins_with_name(words) {
        sent_entry_at(words)
    } else {
        sent_constant_at(words)
    }
}

/// The sender in front of TO, and what is behind TO.
pub fn sender_to_at(words: &[Token]) -> Option<(StatementSender<'_>, &[Token])>
    ensures found { IfSome result (λ r. StandBeforeTo
        (IsWrittenSender (written_sender r.0)) (lexemes words.now) (lexemes r.1.now)) }
    ensures only { (x : WrittenSender) → EachCutAtTo (IsWrittenSender x)
        (lexemes words.now) (Answers written_sender result x) }
{
    let (sender, rest) = sender_at(words)?;
    let more = behind(rest, WordClass::To)?;
    Some((sender, more))
}

/// The reference in front of TO, and what is behind TO.
pub fn reference_to_at(words: &[Token]) -> Option<(Reference<'_>, &[Token])>
    ensures found { IfSome result (λ r. StandBeforeTo
        (IsReference (written_reference r.0)) (lexemes words.now) (lexemes r.1.now)) }
    ensures only { (x : WrittenReference) → EachCutAtTo (IsReference x)
        (lexemes words.now) (Answers written_reference result x) }
{
    let (reference, rest) = reference_at(words)?;
    let more = behind(rest, WordClass::To)?;
    Some((reference, more))
}
