ghost use Rattle.std.specs.Prelude.{◌≡◌, ℕ, ◌+◌, ◌≤◌, List, [], ◌∷◌, ◌++◌, map, length, IfOk, OnOk, Bool, ◌||◌, is_some};
ghost use Rattle.cob_copybook_entry.specs.Described.{plain_entry};
ghost use Rattle.cob_copybook_tree.specs.Forests.{flat, entries_in};
ghost use Rattle.cob_copybook_tree.specs.Branches.{forest_of};
ghost use Rattle.cob_copybook_names.specs.Listed.{texts};
ghost use Rattle.cob_copybook_names.specs.Naming.{with_name};
ghost use Rattle.cob_copybook_names.specs.Entries.{bearers, entry_of};
ghost use Rattle.cob_copybook_names.specs.Listing.{ListsBearer, ListsBearers};

use crate::bearer::{Bearer, name_of, names_beneath};
use cob_copybook_tree::{Branch, Entry};
use std::alloc::{AllocError, Global};

/// An entry of a record as written.
#[derive(Drop)]
pub struct NumberedEntry<'a> {
    /// Its place among all entries of the record.
    pub number: usize,
    pub entry: &'a Entry,
    /// Whether it is a table or stands in one.
    pub in_table: bool,
}

/// Whether an entry is a table, or stands in one as the group above it does.
fn is_in_table(above: bool, entry: &Entry) -> bool
    ensures { result ≡ (above || is_some (plain_entry entry.now).occurs) }
{
    above || entry.occurs.is_some()
}

/// Puts an entry behind those that are listed, and answers the names above the entries beneath it.
fn list_entry<'a>(
    alloc: Global,
    above: &[&'a [u8]],
    in_table: bool,
    entry: &'a Entry,
    listed: &mut Vec<Bearer<'a, NumberedEntry<'a>>>,
) -> Result<Vec<&'a [u8]>, AllocError>
    ensures beneath { IfOk result
        (λ v. texts v.items ≡ with_name (plain_entry entry.now).name (texts above.now)) }
    ensures length { OnOk result (length listed.new.items ≡ length listed.old.items + 1) }
    ensures bearers { OnOk result (ListsBearer (texts above.now) in_table (plain_entry entry.now)
        listed.old.items listed.new.items) }
    ensures entries { OnOk result (map
        entry_of listed.new.items ≡ map entry_of listed.old.items ++ plain_entry entry.now ∷ []) }
{
    let mut names = Vec::new(alloc);
    names.extend_from_slice(above)?;
    let beneath = names_beneath(alloc, &entry.name, above)?;
    let number = listed.len();
    listed.push(Bearer {
        name: name_of(&entry.name),
        above: names,
        entry: NumberedEntry {
            number,
            entry,
            in_table,
        },
    })?;
    Ok(beneath)
}

/// Puts the entries of the branches behind those that are listed, in order. The names `above` are those of the groups that the branches
/// stand in, the nearest first.
///
/// # Errors
///
/// Memory for a list was refused.
pub fn list_bearers<'a>(
    alloc: Global,
    above: &[&'a [u8]],
    in_table: bool,
    branches: &'a [Branch],
    listed: &mut Vec<Bearer<'a, NumberedEntry<'a>>>,
) -> Result<(), AllocError>
    requires { length listed.old.items + entries_in (forest_of branches.now) ≤ 65535 }
    ensures length { OnOk result
        (length listed.new.items ≡ length listed.old.items + entries_in (forest_of branches.now)) }
    ensures bearers { OnOk result (ListsBearers listed.old.items listed.new.items (bearers
        (texts above.now) in_table (length listed.old.items) (forest_of branches.now))) }
    ensures entries { OnOk result (map entry_of
        listed.new.items ≡ map entry_of listed.old.items ++ flat (forest_of branches.now)) }
{
    for branch in branches {
        let entry = &branch.entry;
        let inside = is_in_table(in_table, entry);
        let beneath = list_entry(alloc, above, inside, entry, listed)?;
        list_bearers(
            alloc,
            beneath.as_slice(),
            inside,
            branch.children.as_slice(),
            listed,
        )?;
    }
    Ok(())
}
