//! The entries of a text's words.

ghost use Rattle.std.specs.Prelude.{◌≡◌, ◌<◌, ◌≤◌, [], ◌++◌, List, Option, length, map, IfErr, IfOk, IsSome, OnOk, option_map};
ghost use Rattle.cob_limits.specs.Limits.{most_entries};
ghost use Rattle.cob_source.specs.Tokens.{lexemes};
ghost use Rattle.cob_copybook_entry.specs.declared.fault.BookRule.TheVariants.{Memory};
ghost use Rattle.cob_copybook_entry.specs.Described.{PlainEntry, plain_entry};
ghost use Rattle.cob_copybook_entry.specs.Faults.{MemoryAside};
ghost use Rattle.cob_copybook_entries.specs.Books.{AreEntriesOf, BreaksEntryRule};
ghost use Rattle.cob_copybook_entries.specs.Adds.{Adds, AddsSentence, IsPlaceFault, IsSentenceFault, PutsBehind, listed};

use crate::sentence::sentence_of;
use cob_copybook_clauses::sentence_at;
use cob_copybook_entry::{BookFault, BookRule, Entry};
use cob_limits::MAX_ENTRIES;
use cob_source::Token;
use std::alloc::Global;

/// The record description entries that the words of a text are, in order.
///
/// An entry of level 88 names a value of the entry before it, and isn't kept.
///
/// # Errors
///
/// The first rule on words that is found broken, with the line of the first word of the entry that breaks it, and `Memory` on line 0.
pub fn entries(alloc: Global, tokens: &[Token]) -> Result<Vec<Entry>, BookFault>
    // What is read are the entries of the words.
    ensures found { IfOk result (λ es. AreEntriesOf (lexemes tokens.now)
        (map plain_entry es.items)) }
    // Words that are entries are read, memory aside.
    ensures only { (ds : List PlainEntry) → AreEntriesOf (lexemes tokens.now) ds
        → MemoryAside (λ es. map plain_entry es.items ≡ ds) result }
    // A refusal names a rule that is broken.
    ensures fault { IfErr result (λ f. BreaksEntryRule f.rule (lexemes tokens.now)) }
    // Want of memory is no line's.
    ensures memory { IfErr result (λ f. f.rule ≡ Memory → f.line ≡ 0) }
    // There is an entry.
    ensures some { IfOk result (λ es. 0 < length es.items) }
{
    if tokens.is_empty() {
        return Err(BookRule::NoEntry.on(1));
    }
    let mut entries: Vec<Entry> = Vec::new(alloc);
    let mut rest = tokens;
    while let Some((sentence, behind)) = sentence_at(rest) {
        let line = line_of(rest);
        if let Err(rule) = add_sentence(alloc, line, sentence, &mut entries) {
            return Err(rule.on(line));
        }
        rest = behind;
    }
    if !rest.is_empty() {
        return Err(BookRule::Grammar.on(line_of(rest)));
    }
    Ok(entries)
}

/// The line of the first of the words, and 1 where there is none.
fn line_of(tokens: &[Token]) -> u32 {
    match tokens.first() {
        Some(token) => token.line,
        None => 1,
    }
}

/// Puts what a sentence adds behind the entries so far. Its first word stands on `line`.
///
/// # Errors
///
/// The rule that the sentence breaks, by itself or where it stands, and `Memory`.
fn add_sentence(
    alloc: Global,
    line: u32,
    sentence: &[Token],
    entries: &mut Vec<Entry>,
) -> Result<(), BookRule>
    requires { length entries.old.items ≤ most_entries }
    ensures found { OnOk result
        (AddsSentence (lexemes sentence.now) entries.old.items entries.new.items) }
    ensures few { OnOk result (length entries.new.items ≤ most_entries) }
    ensures fault { IfErr result
        (λ r. IsSentenceFault r (map plain_entry entries.old.items) (lexemes sentence.now)) }
    ensures only { (d : Option PlainEntry) → Adds (lexemes sentence.now) d
        → PutsBehind d result entries.old.items entries.new.items }
{
    let entry = sentence_of(alloc, line, sentence)?;
    add(entries, entry)
}

/// Puts an entry behind those so far; a level 88 entry adds none, but stands behind one.
///
/// # Errors
///
/// `Grammar` where a level 88 entry comes first, `TooMany`, and `Memory`.
fn add(entries: &mut Vec<Entry>, entry: Option<Entry>) -> Result<(), BookRule>
    requires { length entries.old.items ≤ most_entries }
    ensures added { OnOk result (map plain_entry entries.new.items
        ≡ map plain_entry entries.old.items ++ listed (option_map plain_entry entry)) }
    ensures first { OnOk result
        (map plain_entry entries.old.items ≡ [] → IsSome (option_map plain_entry entry)) }
    ensures few { OnOk result (length entries.new.items ≤ most_entries) }
    ensures fault { IfErr result
        (λ r. IsPlaceFault r (map plain_entry entries.old.items) (option_map plain_entry entry)) }
{
    match entry {
        Some(_) if entries.len() == MAX_ENTRIES => Err(BookRule::TooMany),
        Some(entry) => {
            entries.push(entry)?;
            Ok(())
        }
        None if entries.is_empty() => Err(BookRule::Grammar),
        None => Ok(()),
    }
}
