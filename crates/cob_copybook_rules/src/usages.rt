ghost use Rattle.std.specs.Prelude.{◌≡◌, IsTrue};
ghost use Rattle.std.specs.Option.{IsNone};
ghost use Rattle.cob_copybook_tree.specs.Branches.{forest_of};
ghost use Rattle.cob_copybook_tree.specs.Resolving.{inherited};
ghost use Rattle.cob_copybook_rules.specs.Usages.{Agree, Takes, MayHave, AreUsages};

use cob_copybook_tree::{Branch, StorageKind, Usage};
use cob_picture::{Category, Picture};

/// The usage of an entry beneath groups with the usage `above`: its own, else theirs.
pub(crate) fn inherited(above: Option<Usage>, own: Option<Usage>) -> Option<Usage>
    ensures { result ≡ inherited above own }
{
    own.or(above)
}

/// Whether the two usages are one, where both are there.
fn agree(above: Option<Usage>, own: Option<Usage>) -> bool
    ensures yes { IsTrue result → Agree above own }
    ensures must { Agree above own → IsTrue result }
{
    match (above, own) {
        (Some(above), Some(own)) => above == own,
        _ => true,
    }
}

/// Whether an item with the picture may have the usage.
fn takes(usage: Usage, picture: &Picture) -> bool
    ensures yes { IsTrue result → Takes usage picture.now }
    ensures must { Takes usage picture.now → IsTrue result }
{
    usage.is_display()
        || (picture.category() == Category::Numeric && StorageKind::of(usage, None).allows(picture))
}

/// Whether an entry with the picture, or without one, may have the usage.
fn may_have(usage: Option<Usage>, picture: &Option<Picture>) -> bool
    ensures yes { IsTrue result → MayHave usage picture.now }
    ensures must { MayHave usage picture.now → IsTrue result }
{
    match (usage, picture) {
        (Some(usage), Some(picture)) => takes(usage, picture),
        _ => true,
    }
}

/// The line of an entry whose usage isn't allowed beneath groups with the usage `above`.
pub(crate) fn wrong_usage(above: Option<Usage>, branches: &[Branch]) -> Option<u32>
    ensures fine { IsNone result → AreUsages above (forest_of branches.now) }
    ensures must { AreUsages above (forest_of branches.now) → IsNone result }
{
    for branch in branches {
        let entry = &branch.entry;
        let usage = inherited(above, entry.usage);
        if !agree(above, entry.usage) || !may_have(usage, &entry.picture) {
            return Some(entry.line);
        }
        if let Some(line) = wrong_usage(usage, branch.children.as_slice()) {
            return Some(line);
        }
    }
    None
}
