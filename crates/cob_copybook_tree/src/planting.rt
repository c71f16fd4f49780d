ghost use Rattle.std.specs.Prelude.{◌≡◌, ◌<◌, [], ◌∷◌, ◌++◌, map, IfOk, OnOk, IfSome};
ghost use Rattle.std.specs.Option.{IsNone};
ghost use Rattle.cob_copybook_entry.specs.Described.{plain_entry};
ghost use Rattle.cob_copybook_tree.specs.declared.branch.Branch.TheViews.{out-Branch};
ghost use Rattle.cob_copybook_tree.specs.Forests.{flat, IsTree, AreDeeper, NotDeeper};
ghost use Rattle.cob_copybook_tree.specs.Branches.{forest_of, level_of, AreLevels, StandsFor};

use crate::branch::Branch;
use cob_copybook_entry::Entry;
use std::alloc::{AllocError, Global};
use std::collections::VecDeque;

/// Takes the first branch, if it is deeper than the level.
fn pop_deeper(pending: &mut VecDeque<Branch>, level: u8) -> Option<Branch>
    ensures first { IfSome result
        (λ b. (pending.old.items ≡ b ∷ pending.new.items) × (level < (out-Branch b).entry.level)) }
    ensures same { IsNone result → pending.new.items ≡ pending.old.items }
    ensures other { IsNone result → NotDeeper level_of level (forest_of pending.new.items) }
{
    match pending.front() {
        Some(branch) if branch.entry.level > level => pending.pop_front(),
        _ => None,
    }
}

/// The branches in front that are deeper than the level.
///
/// # Errors
///
/// Memory for the list was refused.
fn taken(
    alloc: Global,
    level: u8,
    pending: &mut VecDeque<Branch>,
) -> Result<Vec<Branch>, AllocError>
    ensures parts { IfOk result (λ v. pending.old.items ≡ v.items ++ pending.new.items) }
    ensures deeper { IfOk result (λ v. AreDeeper level_of level (forest_of v.items)) }
    ensures other { OnOk result (NotDeeper level_of level (forest_of pending.new.items)) }
{
    let mut children: Vec<Branch> = Vec::new(alloc);
    while let Some(child) = pop_deeper(pending, level) {
        children.push(child)?;
    }
    Ok(children)
}

/// The branches of a list of entries, from the last entry to the first: each takes the branches behind it that are deeper.
///
/// # Errors
///
/// Memory for a list was refused.
fn side_by_side(alloc: Global, mut entries: Vec<Entry>) -> Result<VecDeque<Branch>, AllocError>
    ensures entries { IfOk result (λ v. flat (forest_of v.items) ≡ map plain_entry entries.items) }
    ensures tree { IfOk result (λ v. IsTree level_of (forest_of v.items)) }
{
    let mut pending: VecDeque<Branch> = VecDeque::new(alloc);
    while let Some(entry) = entries.pop() {
        let children = taken(alloc, entry.level, &mut pending)?;
        pending.push_front(Branch { entry, children })?;
    }
    Ok(pending)
}

/// The tree that entries stand for: the first has level 01 and is the root, the others have levels 02 to 49.
///
/// # Errors
///
/// Memory for a list was refused.
pub fn build_tree(alloc: Global, entries: Vec<Entry>) -> Result<Branch, AllocError>
    requires { AreLevels (map plain_entry entries.items) }
    ensures { IfOk result (λ b. StandsFor (map plain_entry entries.items) (forest_of (b ∷ []))) }
{
    let mut branches = side_by_side(alloc, entries)?;
    match branches.pop_front() {
        Some(root) => Ok(root),
        // A record has an entry, so there is a branch.
        None => unreachable!(),
    }
}
