ghost use Rattle.cob_copybook_clauses.specs.Clauses.{AreNames, AreQualifiers, IsDependingOn, IsNameWord};
ghost use Rattle.cob_copybook_clauses.specs.Reading.{Answers, EachCut, Leaves, NotFirstWord, ReadsQualifiers, SkipsQualifier, StandInFront};
ghost use Rattle.cob_copybook_clauses.specs.Terms.{word_class};
ghost use Rattle.cob_copybook_clauses.specs.Written.{WrittenName, written_name};
ghost use Rattle.cob_source.specs.Tokens.{Lexeme, lexemes};
ghost use Rattle.std.specs.List.{AllByRecursion};
ghost use Rattle.std.specs.Prelude.{◌++◌, ◌∷◌, ◌≡◌, IfSome, IsSomeAnd, List, length, ◌≤◌};

use crate::parts::Count;
use crate::term::WordClass;
use crate::words::{behind, is_name_word, other_word_at, skip};
use cob_source::Token;

/// The words behind the name in front.
fn behind_name(words: &[Token]) -> Option<&[Token]>
    ensures found { IfSome result
        (λ r. (w : Lexeme) × IsNameWord w × (lexemes words.now ≡ w ∷ lexemes r.now)) }
    ensures only { (w : Lexeme) (more : List Lexeme) → IsNameWord w
        → lexemes words.now ≡ w ∷ more → IsSomeAnd result (λ r. lexemes r.now ≡ more) }
{
    let (first, more) = words.split_first()?;
    if !is_name_word(first) {
        return None;
    }
    Some(more)
}

/// The words behind the names in front, if there are any.
fn skip_names(words: &[Token]) -> &[Token]
    ensures found { StandInFront
        (AllByRecursion IsNameWord) (lexemes words.now) (lexemes result.now) }
    ensures only { EachCut (AllByRecursion IsNameWord) (NotFirstWord WordClass.Plain)
        (lexemes words.now) (λ more. lexemes result.now ≡ more) }
{
    let mut rest = words;
    while let Some(more) = behind_name(rest) {
        rest = more;
    }
    rest
}

/// The words behind the names in front, of which there is one at least.
pub fn names_at(words: &[Token]) -> Option<&[Token]>
    ensures found { IfSome result
        (λ r. StandInFront AreNames (lexemes words.now) (lexemes r.now)) }
    ensures only { EachCut AreNames (NotFirstWord WordClass.Plain)
        (lexemes words.now) (Leaves result) }
{
    let more = behind_name(words)?;
    Some(skip_names(more))
}

/// The words behind the qualifier in front, which is OF or IN and a name.
fn behind_qualifier(words: &[Token]) -> Option<&[Token]>
    ensures found { IfSome result (λ r. (of name : Lexeme) × (word_class of ≡ WordClass.Of)
        × IsNameWord name × (lexemes words.now ≡ of ∷ (name ∷ lexemes r.now))) }
    ensures only { SkipsQualifier (lexemes words.now) result }
{
    let named = behind(words, WordClass::Of)?;
    let rest = behind_name(named)?;
    Some(rest)
}

/// The qualifiers in front, as many as there are, and what is behind them.
pub fn qualifiers_at(words: &[Token]) -> (&[Token], &[Token])
    ensures are { AreQualifiers (lexemes result.0.now) }
    ensures found { lexemes words.now ≡ lexemes result.0.now ++ lexemes result.1.now }
    ensures only { ReadsQualifiers (lexemes words.now) result }
{
    let mut rest = words;
    while let Some(more) = behind_qualifier(rest) {
        rest = more;
    }
    (front(words, rest.len()), rest)
}

/// The words without this many at the end.
pub fn front(words: &[Token], behind: usize) -> &[Token]
    requires { behind ≤ length words.now }
    ensures { (done more : List Lexeme)
        → lexemes words.now ≡ done ++ more → length more ≡ behind → lexemes result.now ≡ done }
{
    &words[..words.len() - behind]
}

/// DEPENDING ON and a name with its qualifiers, and what is behind them.
pub fn count_at(words: &[Token]) -> Option<(Count<'_>, &[Token])>
    ensures found { IfSome result
        (λ r. StandInFront (IsDependingOn (written_name r.0)) (lexemes words.now) (lexemes r.1.now)) }
    ensures only { (name : WrittenName) → EachCut (IsDependingOn name) (NotFirstWord WordClass.Of)
        (lexemes words.now) (Answers written_name result name) }
{
    let depending = behind(words, WordClass::Depending)?;
    let on = skip(depending, WordClass::On);
    let (name, named) = other_word_at(on, WordClass::On)?;
    let (qualifiers, rest) = qualifiers_at(named);
    Some((Count { name, qualifiers }, rest))
}
