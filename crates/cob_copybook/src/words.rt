//! The entries of a text.

ghost use Rattle.std.specs.Prelude.{◌≡◌, ℕ, ◌≤◌, ◌<◌, List, length, map, IfOk, IfErr};
ghost use Rattle.cob_limits.specs.Limits.{longest_name};
ghost use Rattle.cob_copybook_entry.specs.Described.{PlainEntry, plain_entry};
ghost use Rattle.cob_copybook.specs.Books.{record_name, implied, with_record, HasEntries, IsTextRefusal, IsMemory};

use crate::role::Role;
use cob_copybook_entries::entries;
use cob_copybook_tree::{BookFault, Entry, Name};
use cob_source::{tokens, words_are_one};
use std::alloc::{AllocFailed, Global};

/// The characters of the name of a record that its text doesn't name.
fn record_name(role: Role) -> &'static [u8]
    ensures value { result.now ≡ record_name role }
    ensures short { length result.now ≤ longest_name }
{
    match role {
        Role::In => b"IN-RECORD",
        Role::Out => b"OUT-RECORD",
    }
}

/// A record with no clause but its name.
fn implied(role: Role) -> Entry
    ensures { plain_entry result ≡ implied role }
{
    Entry {
        line: 0,
        level: 1,
        name: Some(Name::from_characters(record_name(role))),
        redefines: None,
        picture: None,
        usage: None,
        sign: None,
        occurs: None,
        value: None,
        justified: false,
        blank: false,
    }
}

/// The entries, beneath a record of their own where the first isn't one.
fn with_record(role: Role, entries: Vec<Entry>) -> Result<Vec<Entry>, AllocFailed<Entry>>
    ensures { IfOk result
        (λ es. map plain_entry es.items ≡ with_record role (map plain_entry entries.items)) }
{
    let mut entries = entries;
    if entries.first().is_none_or(|first| first.level != 1) {
        entries.insert(0, implied(role))?;
    }
    Ok(entries)
}

/// The entries of a text, beneath a record of their own where the text doesn't begin with one.
///
/// # Errors
/// A rule of the reference format or of entries that the text breaks; want of memory.
pub(crate) fn entries_of(alloc: Global, role: Role, text: &[u8]) -> Result<Vec<Entry>, BookFault>
    ensures found { IfOk result (λ es. HasEntries role text.now (map plain_entry es.items)) }
    ensures only { (ds : List PlainEntry) → HasEntries role text.now ds
        → IfOk result (λ es. map plain_entry es.items ≡ ds) × IfErr result (λ f. IsMemory f.rule) }
    ensures fault { IfErr result (λ f. IsTextRefusal f.rule f.line text.now) }
    ensures few { IfOk result (λ es. length (map plain_entry es.items) ≤ 2001) }
{
    // For `only`: a text has one list of words.
    words_are_one();
    let words = tokens(alloc, text)?;
    let listed = entries(alloc, &words)?;
    Ok(with_record(role, listed)?)
}
