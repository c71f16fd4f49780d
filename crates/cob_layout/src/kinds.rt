//! What the entries of a record describe, by the numbers of the entries.

ghost use Rattle.std.specs.Prelude.{◌≡◌, ◌<◌, ◌++◌, length, slice_index_or, Some, IfOk};
ghost use Rattle.cob_copybook_tree.specs.Forests.{entries_in};
ghost use Rattle.cob_copybook_tree.specs.Nodes.{tree_of};
ghost use Rattle.cob_layout_places.specs.Counts.{kind_in};
ghost use Rattle.cob_layout.specs.Kinds.{kinds_of};

use crate::layout::Layout;
use cob_copybook::{Kind, Node};
use std::alloc::{AllocError, Global};

/// Adds what an entry and those beneath it describe, in their order.
fn push_kinds(entry: &Node, kinds: &mut Vec<Kind>) -> Result<(), AllocError>
    ensures { IfOk result
        (λ _. kinds.new.items ≡ kinds.old.items ++ kinds_of (tree_of entry.now)) }
{
    kinds.push(entry.kind.clone())?;
    for child in entry.children.iter() {
        push_kinds(child, kinds)?;
    }
    Ok(())
}

/// What the entries of a record describe, by their numbers; `entries` is how many these are.
///
/// # Errors
///
/// Where no memory is left.
pub(crate) fn kinds(alloc: Global, root: &Node, entries: usize) -> Result<Vec<Kind>, AllocError>
    ensures { IfOk result (λ kinds. kinds.items ≡ kinds_of (tree_of root.now)) }
{
    let mut kinds = Vec::with_capacity(alloc, entries)?;
    push_kinds(root, &mut kinds)?;
    Ok(kinds)
}

/// What the entry with this number describes, of all entries.
pub(crate) fn kind_at(kinds: &[Kind], number: usize) -> &Kind
    requires { number < length kinds.now }
    ensures { result.now ≡ slice_index_or kinds.now number result.now }
{
    &kinds[number]
}

impl Layout {
    /// What the entry with this number describes, in a time that doesn't grow with the record.
    pub fn kind(&self, number: usize) -> &Kind
        requires there { number < entries_in self.now }
        ensures { kind_in number self.now ≡ Some result.now }
    {
        kind_at(&self.kinds, number)
    }
}
