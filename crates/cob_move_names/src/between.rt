//! The pairs of the groups of two records.

ghost use Rattle.std.specs.Prelude.{◌≡◌, map, IfErr, OnOk};
ghost use Rattle.cob_move_names.specs.Between.{ends, ends_of};
ghost use Rattle.cob_move_names.specs.Found.{ArePairsFound, pairs_between};
ghost use Rattle.cob_move_names.specs.Pairing.{IsTwice};
ghost use Rattle.cob_move_names.specs.Pairs.{AreOnce};

use crate::correspondences::Correspondences;
use crate::listed_groups::ListedGroups;
use crate::pair::EntryPair;
use crate::sending::SendingRecord;
use cob_layout_places::Node;
use cob_move_data::Side;
use cob_move_statements::MoveRule;
use std::alloc::Global;

impl<'a> Correspondences<'a> {
    /// Two records of which no pairs were found yet.
    pub fn new(alloc: Global, input: &'a Node, output: &'a Node) -> Correspondences<'a>
        ensures input { result.input ≡ input.entry }
        ensures output { result.output ≡ output.entry }
    {
        Correspondences {
            input,
            output,
            from_input: SendingRecord::new(alloc, input, output),
            from_output: SendingRecord::new(alloc, output, output),
            receivers: ListedGroups::new(alloc, output),
        }
    }

    /// Finds the pairs of a group of one side's record and a group of the output record, unless they were found. [`Correspondences::between`]
    /// answers them.
    ///
    /// # Errors
    ///
    /// `Twice` where an entry is in two pairs; `Memory`.
    pub fn find(
        &mut self,
        alloc: Global,
        side: Side,
        from: usize,
        to: usize,
    ) -> Result<(), MoveRule>
        ensures found { OnOk result (ArePairsFound self.new side from to) }
        ensures fault { IfErr result (λ r. IsTwice r (pairs_between self.old side from to)) }
        ensures input { self.new.input ≡ self.old.input }
        ensures output { self.new.output ≡ self.old.output }
    {
        match side {
            Side::In => self.from_input.find(alloc, &mut self.receivers, from, to),
            Side::Out => self.from_output.find(alloc, &mut self.receivers, from, to),
        }
    }

    /// The pairs of a group of one side's record and a group of the output record, in the order of the sending group. They were found.
    pub fn between(&self, side: Side, from: usize, to: usize) -> &[EntryPair<'a>]
        requires { ArePairsFound self.now side from to }
        ensures pairs { map ends result.now ≡ map ends_of (pairs_between self.now side from to) }
        ensures once { AreOnce (pairs_between self.now side from to) }
    {
        match side {
            Side::In => self.from_input.list(from, to),
            Side::Out => self.from_output.list(from, to),
        }
    }
}
