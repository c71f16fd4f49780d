ghost use Rattle.cob_copybook_clauses.specs.Clauses.{IsWord};
ghost use Rattle.cob_copybook_clauses.specs.Entries.{
  NamesEntry,
  IsAbsent,
  IsWritten,
  SaysClauses,
  bare,
  put,
  starts_clause,
};
ghost use Rattle.cob_copybook_clauses.specs.Reading.{Answers, ClauseFirst, EachCut, HasPut, PutsClause, StandInFront, clause_of};
ghost use Rattle.cob_copybook_clauses.specs.Terms.{word_class};
ghost use Rattle.cob_copybook_clauses.specs.Written.{
  WrittenClauses,
  WrittenEntry,
  written_clauses,
  written_entry,
};
ghost use Rattle.cob_source.specs.Tokens.{Lexeme, lexeme, lexemes};
ghost use Rattle.std.specs.Prelude.{
  ◌++◌,
  ◌∷◌,
  ◌≡◌,
  ◌↔◌,
  IfSome,
  IsSomeAnd,
  IsTrue,
  List,
  Option,
  option_map,
  true,
  ℕ,
};

use crate::clause::{WrittenClause, clause_at, kind_at};
use crate::parts::{Clauses, Written};
use crate::term::{WordClass, word_class};
use crate::words::{is_term, is_word, word_at};
use cob_source::Token;

/// No clauses.
fn bare() -> Clauses<'static>
    ensures { written_clauses result ≡ bare }
{
    Clauses {
        redefines: None,
        picture: None,
        usage: None,
        sign: None,
        occurs: None,
        value: None,
        justified: false,
        blank: false,
    }
}

/// The clauses with a further one, unless they have it.
fn with<'a>(clauses: Clauses<'a>, phrase: WrittenClause<'a>) -> Option<Clauses<'a>>
    ensures found { IfSome result
        (λ f. HasPut (clause_of phrase.entry) (written_clauses clauses.entry) (written_clauses f)) }
    ensures only { PutsClause (clause_of phrase.entry) (written_clauses clauses.entry) result }
{
    let mut all = clauses;
    let twice = match phrase {
        WrittenClause::Redefines(name) => all.redefines.replace(name).is_some(),
        WrittenClause::Picture(picture) => all.picture.replace(picture).is_some(),
        WrittenClause::Usage(usage) => all.usage.replace(usage).is_some(),
        WrittenClause::Sign(sign) => all.sign.replace(sign).is_some(),
        WrittenClause::Occurs(table) => all.occurs.replace(table).is_some(),
        WrittenClause::Value(constant) => all.value.replace(constant).is_some(),
        WrittenClause::Justified => {
            let before = all.justified;
            all.justified = true;
            before
        }
        WrittenClause::Blank => {
            let before = all.blank;
            all.blank = true;
            before
        }
    };
    if twice { None } else { Some(all) }
}

/// What the clauses that these words are say: clauses in any order, each at most once.
fn clauses_of(words: &[Token]) -> Option<Clauses<'_>>
    ensures found { IfSome result (λ c. SaysClauses (lexemes words.now) bare (written_clauses c)) }
    ensures only { (g : WrittenClauses)
        → SaysClauses (lexemes words.now) bare g → IsSomeAnd result (λ c. written_clauses c ≡ g) }
{
    let mut clauses = bare();
    let mut rest = words;
    while !rest.is_empty() {
        let (phrase, more) = clause_at(rest)?;
        clauses = with(clauses, phrase)?;
        rest = more;
    }
    Some(clauses)
}

/// Whether a word may begin a clause.
pub(crate) fn starts_clause(token: &Token) -> bool
    ensures { IsTrue result ↔ starts_clause (word_class (lexeme token.now)) ≡ true }
{
    kind_at(word_class(token)).is_some()
}

/// The name of an entry, which may be absent, and what is behind it; none for FILLER.
fn name_at(words: &[Token]) -> Option<(Option<&[u8]>, &[Token])>
    ensures found { IfSome result (λ r. StandInFront (NamesEntry (option_map (λ b. b.now) r.0))
        (lexemes words.now) (lexemes r.1.now)) }
    ensures only { (name : Option (List ℕ)) → EachCut (NamesEntry name) ClauseFirst
        (lexemes words.now) (Answers (option_map (λ b. b.now)) result name) }
{
    let Some((first, more)) = words.split_first() else {
        return Some((None, words));
    };
    if is_term(first, WordClass::Filler) {
        return Some((None, more));
    }
    if starts_clause(first) {
        return Some((None, words));
    }
    if !is_word(first) {
        return None;
    }
    Some((Some(first.text.as_slice()), more))
}

/// The entry that the words of a sentence are, as it is written.
///
/// The sentence is the words of one entry without its period. `None` says that no entry is written so.
pub fn read_entry(sentence: &[Token]) -> Option<Written<'_>>
    ensures found { IfSome result (λ w. IsWritten (lexemes sentence.now) (written_entry w)) }
    ensures only { (e : WrittenEntry)
        → IsWritten (lexemes sentence.now) e → IsSomeAnd result (λ w. written_entry w ≡ e) }
{
    let (level, named) = word_at(sentence)?;
    let (name, more) = name_at(named)?;
    let clauses = clauses_of(more)?;
    Some(Written {
        level,
        name,
        clauses,
    })
}
