//! The names of the groups of a record.

ghost use Rattle.std.specs.Prelude.{◌≡◌, ◌≢◌, ℕ, List, Some, filter, map, IfOk, IsTrue, OnOk};
ghost use Rattle.cob_copybook_names.specs.Listed.{name_text, texts};
ghost use Rattle.cob_copybook_names.specs.Naming.{has_name};
ghost use Rattle.cob_report_partners.specs.Entries.{listed_bearer};
ghost use Rattle.cob_report_partners.specs.Groups.{AreGroups, has_group, is_below, is_group_named, is_noted};

use crate::entries::DraftBearer;
use indexmap::IndexMap;
use std::alloc::{AllocError, Global};

/// The names of the groups below a record.
#[derive(Drop)]
pub struct GroupNames<'a> {
    names: IndexMap<&'a [u8], ()>,
}

/// Whether an entry stands below a record.
pub(crate) fn is_below(above: &[&[u8]]) -> bool
    ensures { result ≡ is_below (texts above.now) }
{
    !above.is_empty()
}

/// The name of an entry, if it is a group below a record.
fn group_name<'a>(bearer: &DraftBearer<'a>) -> Option<&'a [u8]>
    ensures { (name : List ℕ) → has_name name (name_text result)
        ≡ is_group_named name (listed_bearer bearer.now) }
{
    if bearer.entry.entry.kind.is_group() && is_below(bearer.above.as_slice()) {
        return bearer.name;
    }
    None
}

/// Notes a name, if there is one.
fn note<'a>(names: &mut IndexMap<&'a [u8], ()>, own: Option<&'a [u8]>) -> Result<(), AllocError>
    ensures noted { OnOk result ((name : List ℕ)
        → name_text own.entry ≡ Some name → IsTrue (is_noted names.new name)) }
    ensures others { OnOk result ((name : List ℕ) → name_text own.entry ≢ Some name
        → is_noted names.new name ≡ is_noted names.old name) }
{
    if let Some(name) = own {
        names.insert(name, ())?;
    }
    Ok(())
}

impl<'a> GroupNames<'a> {
    /// The names of the groups below the record that has these entries.
    ///
    /// # Errors
    ///
    /// Where no memory is left.
    pub(crate) fn of(
        alloc: Global,
        entries: &[DraftBearer<'a>],
    ) -> Result<GroupNames<'a>, AllocError>
        ensures { IfOk result (λ groups. AreGroups (map listed_bearer entries.now) groups) }
    {
        let mut names = IndexMap::new(alloc);
        for entry in entries {
            note(&mut names, group_name(entry))?;
        }
        Ok(GroupNames { names })
    }

    /// Whether a group has this name.
    pub(crate) fn has(&self, name: &[u8]) -> bool
        ensures { result ≡ has_group self.now name.now }
    {
        self.names.get(name).is_some()
    }
}

/// Those of these names that are names of groups.
///
/// # Errors
///
/// Where no memory is left.
pub(crate) fn names_there<'a>(
    alloc: Global,
    groups: &GroupNames<'_>,
    names: &[&'a [u8]],
) -> Result<Vec<&'a [u8]>, AllocError>
    ensures { IfOk result (λ there. texts there.items
        ≡ filter (has_group groups.now) (texts names.now)) }
{
    let mut there = Vec::new(alloc);
    for name in names {
        if groups.has(name) {
            there.push(*name)?;
        }
    }
    Ok(there)
}
