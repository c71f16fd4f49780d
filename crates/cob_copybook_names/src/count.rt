ghost use Rattle.std.specs.Prelude.{◌≡◌, ℕ, ◌≤◌, List, [], ◌∷◌, map, IsTrue, Option, IfOk, IfErr, IfSome, IsSomeAnd, IsOkAnd};
ghost use Rattle.cob_copybook_entry.specs.Described.{PlainEntry, plain_entry};
ghost use Rattle.cob_copybook_entry.specs.declared.fault.BookRule.TheVariants.{Memory, Count};
ghost use Rattle.cob_copybook_entry.specs.Faults.{MemoryAside};
ghost use Rattle.cob_copybook_tree.specs.Forests.{Forest, entries_in};
ghost use Rattle.cob_copybook_tree.specs.Branches.{forest_of};
ghost use Rattle.cob_copybook_names.specs.Counts.{AreCounts, AreCountsOfTables, CountsTable, IsCountOf, IsRefused, IsRefusedAmong, IsWholeNumber, MayCount};
ghost use Rattle.cob_copybook_names.specs.Entries.{bearer_of, entry_of, known_entry};

use crate::directory::Directory;
use crate::listing::{NumberedEntry, list_bearers};
use cob_copybook_tree::{BookFault, BookRule, Branch, Entry, Occurs, Qualified};
use cob_picture::{Category, Picture};
use std::alloc::Global;
use std::slice;

/// Whether it is the picture of a number without a fraction, and without P.
fn is_whole_number(picture: &Picture) -> bool
    ensures yes { IsTrue result → IsWholeNumber picture.now }
    ensures must { IsWholeNumber picture.now → IsTrue result }
{
    picture.category() == Category::Numeric && picture.scale() == 0
}

/// Whether the entry may be a count: a whole number that is no table, stands in none, and isn't edited by BLANK WHEN ZERO.
fn may_count(listed: &NumberedEntry<'_>) -> bool
    ensures yes { IsTrue result → MayCount (known_entry listed.now) }
    ensures must { MayCount (known_entry listed.now) → IsTrue result }
{
    match &listed.entry.picture {
        Some(picture) => is_whole_number(picture) && !listed.in_table && !listed.entry.blank,
        None => false,
    }
}

/// The number of the count that table `number` names: none where nothing may be its count.
fn named_count(
    directory: &Directory<'_, NumberedEntry<'_>>,
    number: usize,
    count: &Qualified,
) -> Option<usize>
    ensures found { IfSome result (CountsTable directory.now.bearers.items number count.now) }
    ensures only { (c : ℕ) → CountsTable directory.now.bearers.items number count.now c
        → IsSomeAnd result (λ d. d ≡ c) }
{
    let found = directory.only_named(count.name.as_bytes(), count.qualifiers.as_slice());
    let Ok(bearer) = found else {
        return None;
    };
    let named = &bearer.entry;
    if may_count(named) && named.number < number {
        Some(named.number)
    } else {
        None
    }
}

/// The number of the count of entry `number`: none for one that doesn't vary.
fn count_of(
    directory: &Directory<'_, NumberedEntry<'_>>,
    number: usize,
    entry: &Entry,
) -> Result<Option<usize>, BookFault>
    ensures found { IfOk result (λ c. IsCountOf
        (map bearer_of directory.now.bearers.items) number (plain_entry entry.now).occurs c) }
    ensures only { (c : Option ℕ) → IsCountOf (map bearer_of directory.now.bearers.items) number
        (plain_entry entry.now).occurs c → IsOkAnd result (λ d. d ≡ c) }
    ensures fault { IfErr result (λ f. f.rule ≡ Count) }
{
    match &entry.occurs {
        Some(Occurs::Varying { count, .. }) => match named_count(directory, number, count) {
            Some(count) => Ok(Some(count)),
            None => Err(BookFault {
                rule: BookRule::Count,
                line: entry.line,
            }),
        },
        _ => Ok(None),
    }
}

/// The number of each entry's count, in order.
fn counts_of(
    alloc: Global,
    directory: &Directory<'_, NumberedEntry<'_>>,
) -> Result<Vec<Option<usize>>, BookFault>
    ensures found { IfOk result (λ v. AreCounts (map bearer_of directory.now.bearers.items) 0
        (map entry_of directory.now.bearers.items) v.items) }
    ensures fault { IfErr result (λ f. IsRefusedAmong (map bearer_of directory.now.bearers.items)
        f.rule (map entry_of directory.now.bearers.items)) }
    ensures memory { IfErr result (λ f. f.rule ≡ Memory → f.line ≡ 0) }
{
    let mut counts = Vec::new(alloc);
    for (number, bearer) in directory.bearers.iter().enumerate() {
        let count = count_of(directory, number, bearer.entry.entry)?;
        counts.push(count)?;
    }
    Ok(counts)
}

/// The number of each table's count, at the table's own number; none for the other entries. Entries are numbered from 0, a parent before
/// its children.
///
/// # Errors
///
/// B9 on the line of the first table that has no count; B19 where memory is refused.
pub fn counts(alloc: Global, root: &Branch) -> Result<Vec<Option<usize>>, BookFault>
    requires few { entries_in (forest_of (root.now ∷ [])) ≤ 65535 }
    ensures found { IfOk result (λ v. AreCountsOfTables (forest_of (root.now ∷ [])) v.items) }
    ensures only { (cs : List (Option ℕ)) → AreCountsOfTables (forest_of (root.now ∷ [])) cs
        → MemoryAside (λ v. v.items ≡ cs) result }
    ensures fault { IfErr result (λ f. IsRefused f.rule (forest_of (root.now ∷ []))) }
    ensures memory { IfErr result (λ f. f.rule ≡ Memory → f.line ≡ 0) }
{
    let mut bearers = Vec::new(alloc);
    list_bearers(alloc, &[], false, slice::from_ref(root), &mut bearers)?;
    let directory = Directory::new(alloc, bearers)?;
    counts_of(alloc, &directory)
}

/// A law: a tree has its counts in one way.
pub fn one_list_of_counts()
    ensures { (t : Forest PlainEntry) → (a b : List (Option ℕ)) → AreCountsOfTables t a
        → AreCountsOfTables t b → a ≡ b }
{}
