//! Names for the counters of loops.

ghost use Rattle.std.specs.List.{list_any};
ghost use Rattle.std.specs.Prelude.{◌≡◌, ◌≢◌, ◌+◌, ◌*◌, ℕ, List, IfNone, IfOk, IfSome};
ghost use Rattle.cob_limits.specs.Limits.{most_entries};
ghost use Rattle.cob_copybook_names.specs.Listed.{name_text};
ghost use Rattle.cob_copybook_names.specs.Naming.{Bearer, has_name};
ghost use Rattle.cob_report_partners.specs.Counters.{AreCountersTaken, IsCounterName, counter_text, is_taken};
ghost use Rattle.cob_report_partners.specs.Entries.{DraftEntry};
ghost use Rattle.cob_report_partners.specs.Partners.{all_bearers};

use crate::entries::DraftBearer;
use crate::names::has_name;
use crate::records::BothRecords;
use cob_limits::MAX_ENTRIES;
use itoa::Buffer;
use std::alloc::{AllocError, Global};

/// How many names are tried for a counter: more than both records have entries, with the records themselves.
const TRIED: usize = 2 * MAX_ENTRIES + 3;

/// A letter alone, or a number behind it.
fn counter_text(alloc: Global, letter: u8, number: usize) -> Result<Vec<u8>, AllocError>
    ensures { IfOk result (λ name. name.items ≡ counter_text letter number) }
{
    let mut name = Vec::new(alloc);
    name.push(letter)?;
    if 0 < number {
        let mut buffer = Buffer::new();
        name.extend_from_slice(buffer.format(number).as_bytes())?;
    }
    Ok(name)
}

/// Whether one of these entries has the name.
fn is_taken_among(entries: &[DraftBearer<'_>], name: &[u8]) -> bool
    ensures { result ≡ list_any (λ e. has_name name.now (name_text e.name)) entries.now }
{
    entries.iter().any(|entry| has_name(name, entry.name))
}

/// Whether an entry of the two records has the name.
fn is_taken(records: &BothRecords<'_>, name: &[u8]) -> bool
    ensures { result ≡ is_taken (all_bearers records.now) name.now }
{
    if is_taken_among(records.inputs(), name) {
        return true;
    }
    is_taken_among(records.outputs(), name)
}

/// The name of a counter with this letter that no entry of two records has: the letter alone, or the least number from 1 on behind it. It is `None` where
/// all that are tried are names of entries.
///
/// # Errors
///
/// Where no memory is left.
pub fn counter_name(
    alloc: Global,
    records: &BothRecords<'_>,
    letter: u8,
) -> Result<Option<Vec<u8>>, AllocError>
    ensures some { IfOk result (λ found. IfSome found
        (λ name. IsCounterName (all_bearers records.now) letter name.items)) }
    ensures none { IfOk result (λ found. IfNone found
        (AreCountersTaken (all_bearers records.now) letter (2 * most_entries + 3))) }
{
    for number in 0..TRIED {
        let name = counter_text(alloc, letter, number)?;
        if !is_taken(records, &name) {
            return Ok(Some(name));
        }
    }
    Ok(None)
}

/// A law: the counters of two letters have different names.
pub fn counters_are_apart()
    ensures { (all : List (Bearer DraftEntry)) (one other : ℕ) (name another : List ℕ)
        → one ≢ other → IsCounterName all one name → IsCounterName all other another
        → name ≢ another }
{}
