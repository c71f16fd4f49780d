ghost use Rattle.cob_copybook_clauses.specs.Clauses.{
  Blank,
  Clause,
  IsSeparatePhrase,
  IsUsageWord,
  Justified,
  Occurs,
  Picture,
  Redefines,
  Signed,
  SaysClause,
  Stored,
  Value,
  leading_of,
};
ghost use Rattle.cob_copybook_clauses.specs.Reading.{ClauseFirst, EachCut, ReadsClause, Stands, StandInFront, clause_of, kind_at, clause_kind_of};
ghost use Rattle.cob_copybook_clauses.specs.Written.{WrittenValue, WrittenOccurs};
ghost use Rattle.cob_source.specs.Tokens.{Lexeme, lexeme, lexemes};
ghost use Rattle.std.specs.Prelude.{
  ◌++◌,
  ◌∷◌,
  ◌≡◌,
  Bool,
  IfSome,
  IsSomeAnd,
  List,
  Some,
  ℕ,
};

use crate::constant::constant_at;
use crate::parts::{OccursClause, ValueClause};
use crate::table::table_at;
use crate::term::{WordClass, word_class};
use crate::words::{behind, is_term, other_word_at, skip, skip_is_or_are, skip_prefix, word_at};
use cob_copybook_entry::{Sign, Usage, UsageWord, usage_word};
use cob_source::Token;

/// The kind of a clause.
#[derive(Clone, Copy, PartialEq, Eq)]
pub enum ClauseKind {
    Redefines,
    Picture,
    Usage,
    Sign,
    Occurs,
    Value,
    Justified,
    Blank,
}

/// One clause as it is written.
#[derive(Clone, Copy)]
pub enum WrittenClause<'a> {
    Redefines(&'a [u8]),
    Picture(&'a [u8]),
    Usage(Usage),
    Sign(Sign),
    Occurs(OccursClause<'a>),
    Value(ValueClause<'a>),
    Justified,
    Blank,
}

/// The kind of the clause that a word begins, if it begins one.
pub fn kind_at(term: WordClass) -> Option<ClauseKind>
    ensures { result ≡ kind_at term }
{
    match term {
        WordClass::Redefines => Some(ClauseKind::Redefines),
        WordClass::Picture => Some(ClauseKind::Picture),
        WordClass::Usage | WordClass::UsageName => Some(ClauseKind::Usage),
        WordClass::Sign | WordClass::Leading | WordClass::Trailing => Some(ClauseKind::Sign),
        WordClass::Occurs => Some(ClauseKind::Occurs),
        WordClass::Value => Some(ClauseKind::Value),
        WordClass::Justified => Some(ClauseKind::Justified),
        WordClass::Blank => Some(ClauseKind::Blank),
        _ => None,
    }
}

/// The usage that a word names.
fn usage_of(token: &Token) -> Option<Usage>
    ensures found { IfSome result (λ u. IsUsageWord u (lexeme token.now)) }
    ensures only { (u : Usage) → IsUsageWord u (lexeme token.now) → result ≡ Some u }
{
    if !is_term(token, WordClass::UsageName) {
        return None;
    }
    match usage_word(token.text.as_slice()) {
        Some(UsageWord::Names(usage)) => Some(usage),
        _ => None,
    }
}

/// Whether LEADING is said, or TRAILING.
fn leading_of(term: WordClass) -> Option<bool>
    ensures { result ≡ leading_of term }
{
    match term {
        WordClass::Leading => Some(true),
        WordClass::Trailing => Some(false),
        _ => None,
    }
}

/// REDEFINES and a word, and what is behind them.
fn redefines_at(words: &[Token]) -> Option<(WrittenClause<'_>, &[Token])>
    ensures found { IfSome result
        (λ r. Stands (clause_of r.0) (lexemes words.now) (lexemes r.1.now)) }
    ensures only { (n : List ℕ) → ReadsClause (Redefines n) (lexemes words.now) result }
{
    let more = behind(words, WordClass::Redefines)?;
    let (name, rest) = word_at(more)?;
    Some((WrittenClause::Redefines(name), rest))
}

/// PICTURE, perhaps IS, and a word, and what is behind them.
fn picture_at(words: &[Token]) -> Option<(WrittenClause<'_>, &[Token])>
    ensures found { IfSome result
        (λ r. Stands (clause_of r.0) (lexemes words.now) (lexemes r.1.now)) }
    ensures only { (p : List ℕ) → ReadsClause (Picture p) (lexemes words.now) result }
{
    let more = behind(words, WordClass::Picture)?;
    let (picture, rest) = other_word_at(skip(more, WordClass::Is), WordClass::Is)?;
    Some((WrittenClause::Picture(picture), rest))
}

/// A usage, perhaps with USAGE IS before it, and what is behind it.
fn usage_at(words: &[Token]) -> Option<(WrittenClause<'_>, &[Token])>
    ensures found { IfSome result
        (λ r. Stands (clause_of r.0) (lexemes words.now) (lexemes r.1.now)) }
    ensures only { (u : Usage) → ReadsClause (Stored u) (lexemes words.now) result }
{
    let (first, rest) = skip_prefix(words, WordClass::Usage).split_first()?;
    let usage = usage_of(first)?;
    Some((WrittenClause::Usage(usage), rest))
}

/// Whether SEPARATE stands in front, perhaps with CHARACTER, and what is behind it.
fn separate_at(words: &[Token]) -> (bool, &[Token])
    ensures found { StandInFront
        (IsSeparatePhrase result.0) (lexemes words.now) (lexemes result.1.now) }
    ensures only { (b : Bool) → EachCut (IsSeparatePhrase b) ClauseFirst (lexemes words.now)
        (λ more. (result.0 ≡ b) × (lexemes result.1.now ≡ more)) }
{
    match behind(words, WordClass::Separate) {
        Some(more) => (true, skip(more, WordClass::Character)),
        None => (false, words),
    }
}

/// LEADING or TRAILING, perhaps with SIGN IS before it and SEPARATE CHARACTER behind it, and what is behind them.
fn sign_at(words: &[Token]) -> Option<(WrittenClause<'_>, &[Token])>
    ensures found { IfSome result
        (λ r. Stands (clause_of r.0) (lexemes words.now) (lexemes r.1.now)) }
    ensures only { (s : Sign) → ReadsClause (Signed s) (lexemes words.now) result }
{
    let (first, more) = skip_prefix(words, WordClass::Sign).split_first()?;
    let leading = leading_of(word_class(first))?;
    let (separate, rest) = separate_at(more);
    Some((WrittenClause::Sign(Sign { leading, separate }), rest))
}

/// OCCURS and what belongs to it, and what is behind it.
fn occurs_at(words: &[Token]) -> Option<(WrittenClause<'_>, &[Token])>
    ensures found { IfSome result
        (λ r. Stands (clause_of r.0) (lexemes words.now) (lexemes r.1.now)) }
    ensures only { (t : WrittenOccurs) → ReadsClause (Occurs t) (lexemes words.now) result }
{
    let more = behind(words, WordClass::Occurs)?;
    let (table, rest) = table_at(more)?;
    Some((WrittenClause::Occurs(table), rest))
}

/// VALUE, perhaps IS or ARE, and a constant, and what is behind them.
fn value_at(words: &[Token]) -> Option<(WrittenClause<'_>, &[Token])>
    ensures found { IfSome result
        (λ r. Stands (clause_of r.0) (lexemes words.now) (lexemes r.1.now)) }
    ensures only { (v : WrittenValue) → ReadsClause (Value v) (lexemes words.now) result }
{
    let more = behind(words, WordClass::Value)?;
    let (constant, rest) = constant_at(skip_is_or_are(more))?;
    Some((WrittenClause::Value(constant), rest))
}

/// JUSTIFIED, perhaps RIGHT, and what is behind them.
fn justified_at(words: &[Token]) -> Option<(WrittenClause<'_>, &[Token])>
    ensures found { IfSome result
        (λ r. Stands (clause_of r.0) (lexemes words.now) (lexemes r.1.now)) }
    ensures only { ReadsClause Justified (lexemes words.now) result }
{
    let more = behind(words, WordClass::Justified)?;
    Some((WrittenClause::Justified, skip(more, WordClass::Right)))
}

/// BLANK, perhaps WHEN, and ZERO, and what is behind them.
fn blank_at(words: &[Token]) -> Option<(WrittenClause<'_>, &[Token])>
    ensures found { IfSome result
        (λ r. Stands (clause_of r.0) (lexemes words.now) (lexemes r.1.now)) }
    ensures only { ReadsClause Blank (lexemes words.now) result }
{
    let more = behind(words, WordClass::Blank)?;
    let rest = behind(skip(more, WordClass::When), WordClass::Zero)?;
    Some((WrittenClause::Blank, rest))
}

/// The kind of the clause in front.
fn kind_in_front(words: &[Token]) -> Option<ClauseKind>
    ensures { (c : Clause) (ws more : List Lexeme)
        → SaysClause c ws → lexemes words.now ≡ ws ++ more → result ≡ Some (clause_kind_of c) }
{
    let (first, _) = words.split_first()?;
    kind_at(word_class(first))
}

/// The clause in front, and what is behind it.
pub fn clause_at(words: &[Token]) -> Option<(WrittenClause<'_>, &[Token])>
    ensures found { IfSome result
        (λ r. Stands (clause_of r.0) (lexemes words.now) (lexemes r.1.now)) }
    ensures only { (c : Clause) → ReadsClause c (lexemes words.now) result }
{
    match kind_in_front(words)? {
        ClauseKind::Redefines => redefines_at(words),
        ClauseKind::Picture => picture_at(words),
        ClauseKind::Usage => usage_at(words),
        ClauseKind::Sign => sign_at(words),
        ClauseKind::Occurs => occurs_at(words),
        ClauseKind::Value => value_at(words),
        ClauseKind::Justified => justified_at(words),
        ClauseKind::Blank => blank_at(words),
    }
}
