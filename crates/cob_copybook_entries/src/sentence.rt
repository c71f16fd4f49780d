//! The entry that one sentence is.

ghost use Rattle.std.specs.Prelude.{◌≡◌, ◌⊎◌, ◌<◌, ◌≤◌, Option, length, IfErr, IfOk, IsOk, OnOk, option_map};
ghost use Rattle.std.specs.List.{AllByRecursion};
ghost use Rattle.cob_source.specs.Tokens.{lexemes};
ghost use Rattle.cob_copybook_entry.specs.declared.fault.BookRule.TheVariants as rule;
ghost use Rattle.cob_copybook_entry.specs.declared.fault.TheConstants.{MAX_WORD};
ghost use Rattle.cob_copybook_entry.specs.Described.{PlainEntry, plain_entry};
ghost use Rattle.cob_copybook_entries.specs.Books.{BreaksCondition, BreaksData, BreaksSentence, IsConditionEntry, IsEntry};
ghost use Rattle.cob_copybook_entries.specs.Adds.{Adds};

use crate::meaning::entry_of;
use arrayvec::ArrayString;
use cob_copybook_clauses::{is_condition, is_name, left_out, read_condition_name, read_entry};
use cob_copybook_entry::{BookRule, Entry, MAX_WORD};
use cob_source::Token;
use std::alloc::Global;

/// The data entry that a sentence is, of which the first word stands on `line`; `None` for a level 88 entry.
///
/// # Errors
///
/// `LeftOut` for a word that is left out by name, before anything else; then `Grammar` where the words are no entry, and the rules
/// that the texts of an entry may break; and `Memory`.
pub(crate) fn sentence_of(
    alloc: Global,
    line: u32,
    sentence: &[Token],
) -> Result<Option<Entry>, BookRule>
    ensures found { IfOk result (λ e. Adds (lexemes sentence.now) (option_map plain_entry e)) }
    ensures only { (d : Option PlainEntry) → Adds (lexemes sentence.now) d
        → IfOk result (λ e. option_map plain_entry e ≡ d) × IfErr result (λ r. r ≡ rule.Memory) }
    ensures fault { IfErr result
        (λ r. (r ≡ rule.Memory) ⊎ BreaksSentence r (lexemes sentence.now)) }
{
    if let Some(word) = left_out(sentence) {
        return Err(BookRule::LeftOut(word_of(word)));
    }
    if is_condition(sentence) {
        check_condition(sentence)?;
        return Ok(None);
    }
    let entry = data_entry(alloc, line, sentence)?;
    Ok(Some(entry))
}

/// The word as a text that a rule holds.
fn word_of(word: &[u8]) -> ArrayString<MAX_WORD>
    requires short { length word.now ≤ MAX_WORD }
    requires ascii { AllByRecursion (λ c. c < 128) word.now }
    ensures { result.bytes ≡ word.now }
{
    let mut text = ArrayString::new();
    for character in word {
        text.push(char::from(*character));
    }
    text
}

/// Checks that the words of a level 88 entry name a value.
///
/// # Errors
///
/// `Grammar` where they don't, and `Name` where the name is none.
fn check_condition(sentence: &[Token]) -> Result<(), BookRule>
    ensures found { OnOk result (IsConditionEntry (lexemes sentence.now)) }
    ensures only { IsConditionEntry (lexemes sentence.now) → IsOk result }
    ensures fault { IfErr result (λ r. BreaksCondition r (lexemes sentence.now)) }
{
    let Some(name) = read_condition_name(sentence) else {
        return Err(BookRule::Grammar);
    };
    if !is_name(name) {
        return Err(BookRule::Name);
    }
    Ok(())
}

/// The data entry that the words are.
///
/// # Errors
///
/// `Grammar` where they are none, the rules that its texts may break, and `Memory`.
fn data_entry(alloc: Global, line: u32, sentence: &[Token]) -> Result<Entry, BookRule>
    ensures found { IfOk result (λ e. IsEntry (lexemes sentence.now) (plain_entry e)) }
    ensures only { (d : PlainEntry) → IsEntry (lexemes sentence.now) d
        → IfOk result (λ e. plain_entry e ≡ d) × IfErr result (λ r. r ≡ rule.Memory) }
    ensures fault { IfErr result (λ r. (r ≡ rule.Memory) ⊎ BreaksData r (lexemes sentence.now)) }
{
    let Some(read_entry) = read_entry(sentence) else {
        return Err(BookRule::Grammar);
    };
    entry_of(alloc, line, &read_entry)
}
