//! The pairs of two groups.

ghost use Rattle.std.specs.Prelude.{◌≡◌, ◌||◌, List, [], map, IfOk, IfErr};
ghost use Rattle.cob_copybook_tree.specs.Nodes.{forest, tree_of};
ghost use Rattle.cob_move_names.specs.Between.{AreFoundPairs, ends, ends_of};
ghost use Rattle.cob_move_names.specs.PlainPairs.{pairs, subordinates_listed};
ghost use Rattle.cob_move_names.specs.Pairing.{IsPairing, IsPairingFault, IsTwice, pair_numbers, those_beneath};
ghost use Rattle.cob_move_names.specs.Pairs.{AreOnce, pairs_among, subordinates};

use crate::pair::{EntryPair, Pair};
use crate::pair_list::PairList;
use crate::partners::Partners;
use crate::subordinate::{Subordinate, is_no_group, list_entries};
use cob_layout_places::Node;
use cob_move_statements::{MoveFault, MoveRule};
use std::alloc::{AllocError, Global};
use std::rc::Rc;

/// The pairs among two lists of entries, in the order of the sending ones.
///
/// # Errors
///
/// `Twice` where an entry is in two pairs; `Memory`.
fn pairs_between<'b, 'a>(
    alloc: Global,
    from: &'b [Subordinate<'a>],
    to: &'b Partners<'a>,
) -> Result<Vec<Pair<'b, 'a>>, MoveRule>
    ensures found { IfOk result (λ v. pairs v.items
        ≡ pairs_among (subordinates_listed from.now) (subordinates_listed to.now.entries.items)) }
    ensures once { IfOk result (λ v. AreOnce (pairs v.items)) }
    ensures fault { IfErr result (λ r. IsTwice r
        (pairs_among (subordinates_listed from.now) (subordinates_listed to.now.entries.items))) }
{
    let mut found = PairList::new(alloc);
    for sender in from {
        found.add_pair_of(sender, to)?;
    }
    Ok(found.list)
}

/// The entries of the pairs among what is below two groups, in the order of the sending one.
///
/// # Errors
///
/// `Twice` where an entry is in two pairs; `Memory`.
pub(crate) fn entry_pairs<'a>(
    alloc: Global,
    from: &Partners<'a>,
    to: &Partners<'a>,
) -> Result<Vec<EntryPair<'a>>, MoveRule>
    ensures found { IfOk result (λ v. AreFoundPairs
        (pairs_among (subordinates_listed from.now.entries.items)
        (subordinates_listed to.now.entries.items)) v.items) }
    ensures fault { IfErr result (λ r. IsTwice r (pairs_among
        (subordinates_listed from.now.entries.items) (subordinates_listed to.now.entries.items))) }
{
    let list = pairs_between(alloc, from.entries.as_slice(), to)?;
    let entries = entries_of(alloc, list.as_slice())?;
    Ok(entries)
}

/// The entries of pairs, without the names by which they correspond.
fn entries_of<'a>(alloc: Global, list: &[Pair<'_, 'a>]) -> Result<Vec<EntryPair<'a>>, MoveRule>
    ensures found { IfOk result (λ v. map ends v.items ≡ map ends_of (pairs list.now)) }
    ensures fault { IfErr result (λ r. r ≡ MoveRule.Memory) }
{
    let mut entries = Vec::with_capacity(alloc, list.len())?;
    for one in list {
        entries.push(EntryPair {
            from: one.from.entry,
            to: one.to.entry,
        })?;
    }
    Ok(entries)
}

/// The numbers of the entries of pairs.
fn numbers_of(alloc: Global, list: &[Pair<'_, '_>]) -> Result<Vec<(usize, usize)>, MoveRule>
    ensures found { IfOk result (λ v. v.items ≡ map pair_numbers (pairs list.now)) }
    ensures fault { IfErr result (λ r. r ≡ MoveRule.Memory) }
{
    let mut numbers = Vec::new(alloc);
    for one in list {
        numbers.push((one.from.entry.number, one.to.entry.number))?;
    }
    Ok(numbers)
}

/// The entries below a group that may be in a pair, in their order.
///
/// # Errors
///
/// Memory was refused.
pub(crate) fn subordinates<'a>(
    alloc: Global,
    entries: &'a [Node],
) -> Result<Vec<Subordinate<'a>>, AllocError>
    ensures { IfOk result
        (λ v. subordinates_listed v.items ≡ subordinates [] (forest entries.now)) }
{
    let between = Rc::new(alloc, Vec::new(alloc))?;
    let mut list = Vec::new(alloc);
    list_entries(alloc, &between, entries, &mut list)?;
    Ok(list)
}

/// The entries below a group that may be in a pair, in their order.
fn below<'a>(alloc: Global, group: &'a Node) -> Result<Vec<Subordinate<'a>>, AllocError>
    ensures { IfOk result
        (λ v. subordinates_listed v.items ≡ subordinates [] (those_beneath (tree_of group.now))) }
{
    subordinates(alloc, group.children.as_slice())
}

/// The numbers of the pairs of two groups.
fn paired(alloc: Global, from: &Node, to: &Node) -> Result<Vec<(usize, usize)>, MoveRule>
    ensures found { IfOk result (λ v. IsPairing (tree_of from.now) (tree_of to.now) v.items) }
    ensures fault { IfErr result (λ r. IsPairingFault r (tree_of from.now) (tree_of to.now)) }
{
    if is_no_group(&from.kind, &to.kind) {
        return Err(MoveRule::Groups);
    }
    let senders = below(alloc, from)?;
    let entries = below(alloc, to)?;
    let receivers = Partners::of(alloc, entries)?;
    let list = pairs_between(alloc, senders.as_slice(), &receivers)?;
    let numbers = numbers_of(alloc, list.as_slice())?;
    Ok(numbers)
}

/// The pairs of MOVE CORRESPONDING between two groups, by the numbers of their entries, in the order of the sending group.
///
/// # Errors
///
/// `Groups` where one of the two is no group, `Twice` where an entry is in two pairs, `Memory`; all with line 0.
pub fn pairs(alloc: Global, from: &Node, to: &Node) -> Result<Vec<(usize, usize)>, MoveFault>
    ensures found { IfOk result (λ v. IsPairing (tree_of from.now) (tree_of to.now) v.items) }
    ensures fault { IfErr result (λ f. IsPairingFault f.rule (tree_of from.now) (tree_of to.now)) }
    ensures line { IfErr result (λ f. f.line ≡ 0) }
{
    match paired(alloc, from, to) {
        Ok(numbers) => Ok(numbers),
        Err(rule) => Err(MoveFault { rule, line: 0 }),
    }
}
