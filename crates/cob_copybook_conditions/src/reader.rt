//! The condition-names of a text.

ghost use Rattle.std.specs.Prelude.{◌≡◌, ℕ, ◌≤◌, ◌<◌, ◌^◌, List, map, length, IfErr, IfOk};
ghost use Rattle.cob_source.specs.Tokens.{lexemes};
ghost use Rattle.cob_copybook_clauses.specs.Entries.{sentences};
ghost use Rattle.cob_copybook_entry.specs.Described.{plain_entry};
ghost use Rattle.cob_copybook_entry.specs.Faults.{MemoryAside};
ghost use Rattle.cob_copybook_conditions.specs.Names.{
  AreConditionNamesOf,
  AreNamesBehind,
  AreNamesIn,
  PlainConditionName,
  first_number,
  plain_condition_names,
};
ghost use Rattle.cob_copybook_conditions.specs.Reading.{AddsName};
ghost use Rattle.cob_copybook_conditions.specs.Refusals.{IsNamesRefusal};

use crate::laws::one_list_of_condition_names;
use crate::names::{ConditionName, condition_name_of};
use cob_copybook_clauses::{is_condition, sentence_at};
use cob_copybook_entries::entries;
use cob_copybook_entry::{BookFault, Entry};
use cob_source::{Token, tokens, words_are_one};
use std::alloc::{AllocError, Global};

/// The condition-names of a copybook's text, in its order. A level 88 entry that lists no values has none.
///
/// # Errors
/// A rule of the reference format or of entries that the text breaks, with the line of the entry that breaks it, or for a rule of the reference format that
/// line itself. Want of memory, with line 0.
pub fn condition_names(alloc: Global, text: &[u8]) -> Result<Vec<ConditionName>, BookFault>
    // What is read are the condition-names of the text.
    ensures found { IfOk result (λ v. AreConditionNamesOf text.now (plain_condition_names v.items)) }
    // A text that has condition-names, or none, is read, memory aside, and has no others.
    ensures only { (ns : List PlainConditionName) → AreConditionNamesOf text.now ns
        → MemoryAside (λ v. plain_condition_names v.items ≡ ns) result }
    // A refusal names a rule that is broken.
    ensures fault { IfErr result (λ f. IsNamesRefusal f.rule f.line text.now) }
{
    // For `only`: a text has one list of words, and one of condition-names.
    words_are_one();
    one_list_of_condition_names();
    let words = tokens(alloc, text)?;
    let listed = entries(alloc, &words)?;
    Ok(names_behind(alloc, first_number(&listed), behind_first(&words))?)
}

/// The number of the first data entry: 0 for the record, and 1 behind one that the text doesn't name.
fn first_number(entries: &[Entry]) -> usize
    ensures value { result ≡ first_number (map plain_entry entries.now) }
    ensures few { result ≤ 1 }
{
    match entries.first() {
        Some(first) if first.level == 1 => 0,
        _ => 1,
    }
}

/// The words behind the first sentence, which is that of a data entry.
fn behind_first(words: &[Token]) -> &[Token]
    ensures within { length result.now ≤ length words.now }
    ensures said { (first : ℕ) (ns : List PlainConditionName)
        → AreNamesBehind first (sentences (lexemes result.now)).ended ns
        → AreNamesIn first (sentences (lexemes words.now)).ended ns }
{
    match sentence_at(words) {
        Some((_, behind)) => behind,
        None => words,
    }
}

/// The names that sentences behind the data entry `entry` say.
///
/// # Errors
/// Want of memory.
fn names_behind(
    alloc: Global,
    entry: usize,
    words: &[Token],
) -> Result<Vec<ConditionName>, AllocError>
    requires { entry ≤ 1 }
    ensures { IfOk result (λ v. AreNamesBehind entry
        (sentences (lexemes words.now)).ended (plain_condition_names v.items)) }
{
    let mut names: Vec<ConditionName> = Vec::new(alloc);
    let mut last = entry;
    let mut rest = words;
    while let Some((sentence, behind)) = sentence_at(rest) {
        last = add_said(alloc, last, sentence, &mut names)?;
        rest = behind;
    }
    Ok(names)
}

/// Puts what a sentence behind the data entry `last` says behind the names so far. Answers the number of the last data entry then.
///
/// # Errors
/// Want of memory.
fn add_said(
    alloc: Global,
    last: usize,
    sentence: &[Token],
    names: &mut Vec<ConditionName>,
) -> Result<usize, AllocError>
    requires { last < 2 ^ 63 }
    ensures { IfOk result (λ now. AddsName last (lexemes sentence.now) now
        (plain_condition_names names.old.items) (plain_condition_names names.new.items)) }
{
    if !is_condition(sentence) {
        return Ok(last + 1);
    }
    match condition_name_of(alloc, last, sentence)? {
        Some(name) => {
            names.push(name)?;
            Ok(last)
        }
        None => Ok(last),
    }
}
