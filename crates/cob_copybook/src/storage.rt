//! The record that a tree of entries describes.

ghost use Rattle.std.specs.Prelude.{◌≡◌, ◌≤◌, [], ◌∷◌, IfOk, IfErr};
ghost use Rattle.cob_copybook_entry.specs.Described.{PlainEntry};
ghost use Rattle.cob_copybook_entry.specs.declared.fault.BookRule.TheVariants.{Memory};
ghost use Rattle.cob_copybook_entry.specs.Faults.{MemoryAside};
ghost use Rattle.cob_copybook_tree.specs.Forests.{Forest, entries_in};
ghost use Rattle.cob_copybook_tree.specs.Branches.{forest_of};
ghost use Rattle.cob_copybook_tree.specs.Nodes.{Resolved, forest};
ghost use Rattle.cob_copybook_rules.specs.Rules.{AgreeAll};
ghost use Rattle.cob_copybook.specs.Records.{IsStored, IsStorageRefusal};

use cob_copybook_names::counts;
use cob_copybook_rules::{breaks_no_length_rule, judge_lengths};
use cob_copybook_tree::{BookFault, Branch, Node, resolve};
use std::alloc::Global;

/// The record that a tree of entries whose clauses agree describes.
///
/// # Errors
/// A rule on counts or lengths that the tree breaks; want of memory.
pub(crate) fn storage_of(alloc: Global, tree: &Branch) -> Result<Node, BookFault>
    requires few { entries_in (forest_of (tree.now ∷ [])) ≤ 65535 }
    requires agree { AgreeAll (forest_of (tree.now ∷ [])) }
    ensures found { IfOk result (λ n. IsStored (forest_of (tree.now ∷ [])) (forest (n ∷ []))) }
    ensures only { (t : Forest Resolved) → IsStored (forest_of (tree.now ∷ [])) t
        → MemoryAside (λ n. forest (n ∷ []) ≡ t) result }
    ensures fault { IfErr result (λ f. IsStorageRefusal f.rule (forest_of (tree.now ∷ []))) }
    ensures memory { IfErr result (λ f. f.rule ≡ Memory → f.line ≡ 0) }
{
    // For `only`: a record whose lengths fit breaks no rule on lengths.
    breaks_no_length_rule();
    let counts = counts(alloc, tree)?;
    let record = resolve(alloc, tree, &counts)?;
    judge_lengths(&record)?;
    Ok(record)
}
