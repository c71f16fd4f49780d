//! The tree of a record's entries.

ghost use Rattle.std.specs.Prelude.{◌≡◌, ℕ, ◌≤◌, List, [], ◌∷◌, map, IfOk, IfErr, IsNone};
ghost use Rattle.cob_copybook_entry.specs.Described.{PlainEntry, plain_entry};
ghost use Rattle.cob_copybook_tree.specs.Forests.{Forest};
ghost use Rattle.cob_copybook_tree.specs.Branches.{AreLevels, StandsFor, forest_of};
ghost use Rattle.cob_copybook_rules.specs.Rules.{AgreeAll};
ghost use Rattle.cob_copybook.specs.Records.{IsTreeRefusal};
ghost use Rattle.cob_copybook_entry.specs.declared.fault.BookRule.TheVariants.{Memory};
ghost use Rattle.cob_copybook_entry.specs.Faults.{MemoryAside};

use cob_copybook_rules::{breaks_no_rule, judge_clauses};
use cob_copybook_tree::{BookFault, BookRule, Branch, Entry, build_tree, one_tree};
use std::alloc::Global;

/// The line of an entry whose level is not allowed: 01 for the record, 02 to 49 for the others.
fn wrong_level(entries: &[Entry]) -> Option<u32>
    ensures fine { IsNone result → AreLevels (map plain_entry entries.now) }
    ensures must { AreLevels (map plain_entry entries.now) → IsNone result }
{
    let Some((first, others)) = entries.split_first() else {
        return Some(1);
    };
    if first.level != 1 {
        return Some(first.line);
    }
    for entry in others {
        if entry.level < 2 || entry.level > 49 {
            return Some(entry.line);
        }
    }
    None
}

/// The tree that entries stand for, where their clauses agree.
///
/// # Errors
/// A rule on levels or clauses that the entries break; want of memory.
pub(crate) fn tree_of(alloc: Global, entries: Vec<Entry>) -> Result<Branch, BookFault>
    ensures found { IfOk result (λ b. StandsFor (map plain_entry entries.items) (forest_of (b ∷ []))
        × AgreeAll (forest_of (b ∷ []))) }
    ensures only { (t : Forest PlainEntry) → StandsFor (map plain_entry entries.items) t
        → AgreeAll t
        → MemoryAside (λ b. forest_of (b ∷ []) ≡ t) result }
    ensures fault { IfErr result (λ f. IsTreeRefusal f.rule (map plain_entry entries.items)) }
    ensures memory { IfErr result (λ f. f.rule ≡ Memory → f.line ≡ 0) }
{
    // For `only`: entries stand for one tree, and one whose clauses agree breaks no rule on clauses.
    one_tree();
    breaks_no_rule();
    if let Some(line) = wrong_level(&entries) {
        return Err(BookFault {
            rule: BookRule::Level,
            line,
        });
    }
    let tree = build_tree(alloc, entries)?;
    judge_clauses(&tree)?;
    Ok(tree)
}
