ghost use Rattle.cob_copybook_clauses.specs.Clauses.{
  AreKeys,
  AreNames,
  IsFree,
  IsLeast,
  IsTable,
  IsOptionalWord,
};
ghost use Rattle.cob_copybook_clauses.specs.Reading.{
  Answers,
  ClauseFirst,
  EachCut,
  IndexesInFront,
  LimitsInFront,
  OrderInFront,
  ReadsLimits,
  ReadsVaried,
  SkipsIndexes,
  SkipsOrder,
  StandInFront,
  VariedInFront,
};
ghost use Rattle.cob_copybook_clauses.specs.Terms.{word_class};
ghost use Rattle.cob_copybook_clauses.specs.Written.{WrittenName, WrittenOccurs, written_name, written_occurs};
ghost use Rattle.cob_source.specs.Tokens.{Lexeme, lexemes};
ghost use Rattle.std.specs.Prelude.{
  ◌++◌,
  ◌∷◌,
  ◌≡◌,
  IfSome,
  IsSomeAnd,
  List,
  Option,
  option_map,
  ℕ,
};

use crate::parts::{Count, OccursClause};
use crate::qualifiers::{count_at, names_at};
use crate::term::WordClass;
use crate::words::{behind, free_at, skip};
use cob_source::Token;

/// ASCENDING or DESCENDING KEY IS and names: what is behind them.
fn behind_order(words: &[Token]) -> Option<&[Token]>
    ensures found { IfSome result (λ r. OrderInFront (lexemes words.now) (lexemes r.now)) }
    ensures only { SkipsOrder (lexemes words.now) result }
{
    let ordered = behind(words, WordClass::Ordered)?;
    let rest = names_at(skip(skip(ordered, WordClass::Key), WordClass::Is))?;
    Some(rest)
}

/// INDEXED BY and names: what is behind them.
fn behind_indexes(words: &[Token]) -> Option<&[Token]>
    ensures found { IfSome result (λ r. IndexesInFront (lexemes words.now) (lexemes r.now)) }
    ensures only { SkipsIndexes (lexemes words.now) result }
{
    let indexed = behind(words, WordClass::Indexed)?;
    let rest = names_at(skip(indexed, WordClass::By))?;
    Some(rest)
}

/// The words behind the keys and indexes of a table, which may be absent.
fn skip_keys(words: &[Token]) -> &[Token]
    ensures found { StandInFront AreKeys (lexemes words.now) (lexemes result.now) }
    ensures only { EachCut AreKeys ClauseFirst
        (lexemes words.now) (λ more. lexemes result.now ≡ more) }
{
    let mut rest = words;
    while let Some(more) = behind_order(rest) {
        rest = more;
    }
    match behind_indexes(rest) {
        Some(more) => more,
        None => rest,
    }
}

/// The word before TO, if it stands there, the word behind it, and what is behind both.
fn limits_at(words: &[Token]) -> Option<(Option<&[u8]>, &[u8], &[Token])>
    ensures found { IfSome result (λ r. LimitsInFront
        (option_map (λ b. b.now) r.0) r.1.now (lexemes words.now) (lexemes r.2.now)) }
    ensures only { (a : Option (List ℕ)) (b : List ℕ)
        → ReadsLimits a b (lexemes words.now) result }
{
    let (first, more) = free_at(words)?;
    if let Some(to) = behind(more, WordClass::To) {
        let (most, rest) = free_at(to)?;
        return Some((Some(first), most, rest));
    }
    Some((None, first, more))
}

/// The count of a table that varies, and what is behind it; none for a table whose one number leaves none out.
fn varied_at<'a>(
    words: &'a [Token],
    least: Option<&[u8]>,
) -> Option<(Option<Count<'a>>, &'a [Token])>
    ensures found { IfSome result (λ r.
        VariedInFront (option_map written_name r.0) (option_map (λ b. b.now) least.entry)
        (lexemes words.now) (lexemes r.1.now)) }
    ensures only { (count : Option WrittenName)
        → ReadsVaried count (option_map (λ b. b.now) least.entry) (lexemes words.now) result }
{
    if let Some((count, rest)) = count_at(words) {
        return Some((Some(count), rest));
    }
    match least {
        Some(_) => None,
        None => Some((None, words)),
    }
}

/// The words behind OCCURS, and what is behind them.
pub fn table_at(words: &[Token]) -> Option<(OccursClause<'_>, &[Token])>
    ensures found { IfSome result
        (λ r. StandInFront (IsTable (written_occurs r.0)) (lexemes words.now) (lexemes r.1.now)) }
    ensures only { (t : WrittenOccurs)
        → EachCut (IsTable t) ClauseFirst (lexemes words.now) (Answers written_occurs result t) }
{
    let (least, most, limited) = limits_at(words)?;
    let (count, varied) = varied_at(skip(limited, WordClass::Times), least)?;
    Some((OccursClause { least, most, count }, skip_keys(varied)))
}
