//! The pairs of the groups of a sending record and of the output record.

ghost use Rattle.std.specs.Prelude.{◌≡◌, ℕ, IfErr, IsSome, OnOk};
ghost use Rattle.std.specs.Option.{ForSome};
ghost use Rattle.indexmap.specs.IndexMap.{get_by};
ghost use Rattle.cob_copybook_tree.specs.Nodes.{tree_of};
ghost use Rattle.cob_move_names.specs.Between.{AreFoundPairs, pairs_below};
ghost use Rattle.cob_move_names.specs.Keys.{same_groups};
ghost use Rattle.cob_move_names.specs.Pairing.{IsTwice};

use crate::group_numbers::GroupNumbers;
use crate::listed_groups::ListedGroups;
use crate::pair::EntryPair;
use crate::pairing::entry_pairs;
use cob_layout_places::Node;
use cob_move_statements::MoveRule;
use indexmap::IndexMap;
use std::alloc::Global;

/// The groups of a sending record, and the pairs that were found of them and of groups of the receiving record.
#[derive(Drop)]
pub(crate) struct SendingRecord<'a> {
    pub groups: ListedGroups<'a>,
    pub receiving: &'a Node,
    pub lists: IndexMap<GroupNumbers, Vec<EntryPair<'a>>>,

    ghost kept: { (from to : ℕ) → ForSome (get_by (same_groups from to) lists)
        (λ v. AreFoundPairs (pairs_below (tree_of groups.top.now) (tree_of receiving.now) from to) v.items) },
}

impl<'a> SendingRecord<'a> {
    /// Two records of which no pairs were found yet.
    pub(crate) fn new(alloc: Global, sending: &'a Node, receiving: &'a Node) -> SendingRecord<'a>
        ensures sending { result.groups.top ≡ sending.entry }
        ensures receiving { result.receiving ≡ receiving.entry }
    {
        SendingRecord {
            groups: ListedGroups::new(alloc, sending),
            receiving,
            lists: IndexMap::new(alloc),
        }
    }

    /// Finds the pairs of two groups, unless they were found.
    ///
    /// # Errors
    ///
    /// `Twice` where an entry is in two pairs; `Memory`.
    pub(crate) fn find(
        &mut self,
        alloc: Global,
        receivers: &mut ListedGroups<'a>,
        from: usize,
        to: usize,
    ) -> Result<(), MoveRule>
        requires { receivers.old.top ≡ self.old.receiving }
        ensures found { OnOk result (IsSome (get_by (same_groups from to) self.new.lists)) }
        ensures fault { IfErr result (λ r. IsTwice r
            (pairs_below (tree_of self.old.groups.top.now) (tree_of self.old.receiving.now) from
            to)) }
        ensures sending { self.new.groups.top ≡ self.old.groups.top }
        ensures receiving { self.new.receiving ≡ self.old.receiving }
        ensures receivers { receivers.new.top ≡ receivers.old.top }
    {
        let key = GroupNumbers { from, to };
        if self.lists.contains_key(&key) {
            return Ok(());
        }
        self.groups.add(alloc, from)?;
        receivers.add(alloc, to)?;
        let list = entry_pairs(alloc, self.groups.below(from), receivers.below(to))?;
        self.lists.insert(key, list)?;
        Ok(())
    }

    /// The pairs of two groups that were found.
    pub(crate) fn list(&self, from: usize, to: usize) -> &[EntryPair<'a>]
        requires { IsSome (get_by (same_groups from to) self.now.lists) }
        ensures { AreFoundPairs
            (pairs_below (tree_of self.now.groups.top.now) (tree_of self.now.receiving.now) from to)
            result.now }
    {
        self.lists[&GroupNumbers { from, to }].as_slice()
    }
}
