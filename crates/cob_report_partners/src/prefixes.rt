//! Names behind prefixes, by which entries are compared.

ghost use Rattle.std.specs.Prelude.{◌≡◌, List, ℕ, map, IfOk};
ghost use Rattle.cob_copybook_names.specs.Listed.{name_text, texts};
ghost use Rattle.cob_report_partners.specs.Entries.{draft_entry, listed_bearer};
ghost use Rattle.cob_report_partners.specs.Prefixes.{AreBehind, NoPrefixChangesNothing, bearer_behind, begins_with, behind_prefix, name_behind};

use crate::entries::{DraftBearer, DraftEntry, copied};
use crate::names::is_same;
use crate::records::BothRecords;
use std::alloc::{AllocError, Global};

/// Prefixes that are left out where names of the two records are compared, in capitals; an empty one changes nothing.
#[derive(Clone, Copy)]
pub struct Prefixes<'p> {
    /// That of the names of the input record.
    pub input: &'p [u8],
    /// That of the names of the output record.
    pub output: &'p [u8],
}

/// A law: behind no prefix each name is as it is.
pub fn no_prefix_changes_nothing()
    ensures { NoPrefixChangesNothing }
{}

/// Whether a name begins with a prefix, and has more behind it.
pub fn begins_with(prefix: &[u8], name: &[u8]) -> bool
    ensures { result ≡ begins_with prefix.now name.now }
{
    prefix.len() < name.len() && is_same(&name[..prefix.len()], prefix)
}

/// A name without a prefix, where it begins with it, and else as it is.
fn behind_prefix<'a>(prefix: &[u8], name: &'a [u8]) -> &'a [u8]
    ensures { result.now ≡ behind_prefix prefix.now name.now }
{
    if begins_with(prefix, name) {
        &name[prefix.len()..]
    } else {
        name
    }
}

/// The name of an entry without a prefix, if it has one.
fn name_behind<'a>(prefix: &[u8], name: Option<&'a [u8]>) -> Option<&'a [u8]>
    ensures { name_text result ≡ name_behind prefix.now (name_text name.entry) }
{
    match name {
        Some(name) => Some(behind_prefix(prefix, name)),
        None => None,
    }
}

/// These names without a prefix.
fn names_behind<'a>(
    alloc: Global,
    prefix: &[u8],
    names: &[&'a [u8]],
) -> Result<Vec<&'a [u8]>, AllocError>
    ensures { IfOk result (λ v. texts v.items ≡ map (behind_prefix prefix.now) (texts names.now)) }
{
    let mut behind = Vec::new(alloc);
    for name in names {
        behind.push(behind_prefix(prefix, *name))?;
    }
    Ok(behind)
}

/// The same entry once more.
fn entry_again<'a>(entry: &DraftEntry<'a>) -> DraftEntry<'a>
    ensures { draft_entry result ≡ draft_entry entry.now }
{
    DraftEntry {
        side: entry.side,
        entry: entry.entry,
        last: entry.last,
        tables: copied(entry.tables.as_slice()),
        own: entry.own,
        redefined: entry.redefined,
        counts: entry.counts,
    }
}

/// An entry as it is compared, behind a prefix.
fn bearer_behind<'a>(
    alloc: Global,
    prefix: &[u8],
    bearer: &DraftBearer<'a>,
) -> Result<DraftBearer<'a>, AllocError>
    ensures { IfOk result (λ b. listed_bearer b
        ≡ bearer_behind prefix.now (listed_bearer bearer.now)) }
{
    let above = names_behind(alloc, prefix, bearer.above.as_slice())?;
    Ok(DraftBearer {
        name: name_behind(prefix, bearer.name),
        above,
        entry: entry_again(&bearer.entry),
    })
}

/// Entries as they are compared, behind a prefix.
fn bearers_behind<'a>(
    alloc: Global,
    prefix: &[u8],
    bearers: &[DraftBearer<'a>],
) -> Result<Vec<DraftBearer<'a>>, AllocError>
    ensures { IfOk result (λ v. map listed_bearer v.items
        ≡ map (bearer_behind prefix.now) (map listed_bearer bearers.now)) }
{
    let mut behind = Vec::new(alloc);
    for bearer in bearers {
        behind.push(bearer_behind(alloc, prefix, bearer)?)?;
    }
    Ok(behind)
}

impl<'a> BothRecords<'a> {
    /// The entries of both records as they are compared: their names, and those of the groups above them, without the prefixes. All else that is known of an entry stays,
    /// so that its number tells which one it is.
    ///
    /// # Errors
    ///
    /// Where no memory is left.
    pub fn behind(
        &self,
        alloc: Global,
        prefixes: Prefixes<'_>,
    ) -> Result<BothRecords<'a>, AllocError>
        ensures { IfOk result (λ r. AreBehind prefixes.entry self.now r) }
    {
        let inputs = bearers_behind(alloc, prefixes.input, self.inputs())?;
        let outputs = bearers_behind(alloc, prefixes.output, self.outputs())?;
        BothRecords::joined(alloc, inputs, outputs)
    }
}
