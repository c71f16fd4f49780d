//! The words of one record.

ghost use Rattle.std.specs.Prelude.{◌≡◌, List, [], true, false, IfErr, IfNone, IfOk, IfSome, IsOkAnd};
ghost use Rattle.cob_source.specs.Tokens.{Lexeme, lexemes};
ghost use Rattle.cob_copybook_record.specs.declared.level.RecordPart.TheVariants.{Entries, Renamings};
ghost use Rattle.cob_copybook_record.specs.OneRecord.{AreEntriesBefore, AreRenamings, AreSoleEntries, AreSoleWords, AreWordsOfRecord, behind_file, describes_file, words_behind_part, words_of_part};
ghost use Rattle.cob_copybook_record.specs.Refusals.{IsNoRecord};

use crate::level::{RecordPart, is_text_of};
use crate::renaming::are_renamings;
use crate::stretch::{from_record, part_at};
use cob_source::Token;

/// Why a text has no record of a name.
#[derive(Clone, Copy, Debug, PartialEq, Eq)]
pub enum NoRecord {
    /// No record has the name.
    Unknown,
    /// Several records have it.
    Ambiguous,
    /// Behind its entries stand others than level 66 entries before the next level 01 or 77.
    Renaming,
}

/// The entries of the record that begins with the first word, if level 66 entries alone stand behind them.
fn entries_first(words: &[Token]) -> Option<&[Token]>
    ensures found { IfSome result (λ own. AreEntriesBefore (lexemes words.now) (lexemes own.now)) }
    ensures none { IfNone result (AreRenamings true (words_of_part Renamings true (words_behind_part Entries false (lexemes words.now))) → ⊥) }
{
    let (entries, behind) = part_at(words, RecordPart::Entries, false);
    let (renamings, _) = part_at(behind, RecordPart::Renamings, true);
    if are_renamings(renamings) {
        Some(entries)
    } else {
        None
    }
}

/// The words of the record of this name in a text that describes several: from its level 01 to the next level 01 or 77. Level 66 entries are left out.
///
/// # Errors
///
/// Why the text has none.
pub fn record_words<'a>(words: &'a [Token], name: &[u8]) -> Result<&'a [Token], NoRecord>
    ensures found { IfOk result (λ own. AreWordsOfRecord name.now (lexemes words.now) (lexemes own.now)) }
    // Where a text has a record of the name, it is found.
    ensures only { (own : List Lexeme) → AreWordsOfRecord name.now (lexemes words.now) own
        → IsOkAnd result (λ r. lexemes r.now ≡ own) }
    ensures fault { IfErr result (λ why. IsNoRecord why name.now (lexemes words.now)) }
{
    let own = from_record(words, name, true);
    if own.is_empty() {
        return Err(NoRecord::Unknown);
    }
    if !from_record(own, name, false).is_empty() {
        return Err(NoRecord::Ambiguous);
    }
    match entries_first(own) {
        Some(entries) => Ok(entries),
        None => Err(NoRecord::Renaming),
    }
}

/// Whether the description of a file comes first.
fn describes_file(words: &[Token]) -> bool
    ensures { result ≡ describes_file (lexemes words.now) }
{
    match words.split_first() {
        Some((first, _)) => is_text_of(first, b"FD") || is_text_of(first, b"SD"),
        None => false,
    }
}

/// The words behind the description of a file, if one comes first.
fn behind_file(words: &[Token]) -> &[Token]
    ensures { lexemes result.now ≡ behind_file (lexemes words.now) }
{
    if !describes_file(words) {
        return words;
    }
    let (_, behind) = part_at(words, RecordPart::Renamings, false);
    behind
}

/// The words of the one record that a text describes. The description of a file before it and level 66 entries at the end are left out. A text that
/// describes more, or has others behind level 66 entries, keeps all that is behind the description of a file.
pub fn sole_words(words: &[Token]) -> &[Token]
    ensures meant { AreSoleWords (lexemes words.now) (lexemes result.now) }
    ensures sole { (own : List Lexeme) → AreSoleEntries (behind_file (lexemes words.now)) own
        → lexemes result.now ≡ own }
    ensures others { ((own : List Lexeme) → AreSoleEntries (behind_file (lexemes words.now)) own → ⊥)
        → lexemes result.now ≡ behind_file (lexemes words.now) }
{
    let described = behind_file(words);
    let (entries, behind) = part_at(described, RecordPart::Entries, false);
    if are_renamings(behind) {
        return entries;
    }
    described
}
