//! The groups of a record, with what is below them.

ghost use Rattle.std.specs.Prelude.{◌≡◌, ℕ, nat_eq, [], OnOk};
ghost use Rattle.std.specs.Option.{ForSome};
ghost use Rattle.indexmap.specs.IndexMap.{ContainsKey, get};
ghost use Rattle.cob_copybook_tree.specs.Nodes.{tree_of};
ghost use Rattle.cob_move_names.specs.Groups.{entries_below};
ghost use Rattle.cob_move_names.specs.PlainPairs.{subordinates_listed};
ghost use Rattle.cob_move_names.specs.Pairs.{subordinates};

use crate::groups::entries_below;
use crate::pairing::subordinates;
use crate::partners::Partners;
use cob_layout_places::Node;
use indexmap::IndexMap;
use std::alloc::{AllocError, Global};

/// The groups of a record that were asked, with the entries below each of them, to be found by their names.
#[derive(Drop)]
pub(crate) struct ListedGroups<'a> {
    pub top: &'a Node,
    pub lists: IndexMap<usize, Partners<'a>>,

    ghost listed: { (number : ℕ) → ForSome (get nat_eq lists number)
        (λ p. subordinates_listed p.entries.items ≡ subordinates [] (entries_below number (tree_of top.now))) },
}

impl<'a> ListedGroups<'a> {
    /// A record of which no group was asked yet.
    pub(crate) fn new(alloc: Global, top: &'a Node) -> ListedGroups<'a>
        ensures { result.top ≡ top.entry }
    {
        ListedGroups {
            top,
            lists: IndexMap::new(alloc),
        }
    }

    /// Lists what is below a group, unless it is listed.
    ///
    /// # Errors
    ///
    /// Memory was refused.
    pub(crate) fn add(&mut self, alloc: Global, number: usize) -> Result<(), AllocError>
        ensures added { OnOk result (ContainsKey nat_eq self.new.lists number) }
        ensures top { self.new.top ≡ self.old.top }
    {
        if !self.lists.contains_key(&number) {
            let entries = subordinates(alloc, entries_below(self.top, number))?;
            let partners = Partners::of(alloc, entries)?;
            self.lists.insert(number, partners)?;
        }
        Ok(())
    }

    /// What is below a group that is listed.
    pub(crate) fn below(&self, number: usize) -> &Partners<'a>
        requires { ContainsKey nat_eq self.now.lists number }
        ensures { subordinates_listed result.now.entries.items
            ≡ subordinates [] (entries_below number (tree_of self.now.top.now)) }
    {
        &self.lists[&number]
    }
}
