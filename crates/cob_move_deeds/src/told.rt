//! What is told of deeds: their flows, the statements between marks, whether there is a test, what a bound gives, and what a condition says.

ghost use Rattle.std.specs.Prelude.{◌≡◌, ◌<◌, ◌≤◌, length, Some};
ghost use Rattle.std.specs.Bool.{Decides};
ghost use Rattle.std.specs.List.{AllByRecursion, slice_get};
ghost use Rattle.cob_layout.specs.Storage.{greatest_length, IsStorage};
ghost use Rattle.cob_move_apply.specs.Marked.{items_between, mark_at, moves_between_marks};
ghost use Rattle.cob_move_apply.specs.Room.{room_of};
ghost use Rattle.cob_move_data.specs.Moves.{Records, moves_by};
ghost use Rattle.cob_move_condition.specs.Conditions.{condition_of};
ghost use Rattle.cob_move_condition.specs.declared.condition.Condition.{Condition as TheCondition};
ghost use Rattle.cob_move_deeds.specs.Deeds.{IsStraight};
ghost use Rattle.cob_move_deeds.specs.Flows.{sender_at};
ghost use Rattle.cob_move_deeds.specs.Tests.{BoundSays, Holds, Judged, past_bound};
ghost use Rattle.cob_move_deeds.specs.Told.{MovesAlone};
ghost use Rattle.cob_move_deeds.specs.declared.flow.Bound.{Bound as TheBound};

use crate::bound::number_of;
use crate::carrying::condition_says;
use crate::flow::{Asked, Bound, CountedLoop, Flow};
use crate::ready::ReadyDeeds;
use crate::sides::Sides;
use cob_layout::Layout;
use cob_move_apply::{Scratch, Stop};
use cob_move_data::StatementMoves;

/// Whether a flow carries out moves alone.
fn moves_alone(flow: &Flow) -> bool
    ensures { Decides result (MovesAlone flow.now) }
{
    matches!(*flow, Flow::Moves(_))
}

/// Whether each of these flows carries out moves alone.
fn all_move(flows: &[Flow]) -> bool
    ensures { Decides result (AllByRecursion MovesAlone flows.now) }
{
    let mut rest = flows;
    while let Some((flow, more)) = rest.split_first() {
        if !moves_alone(flow) {
            return false;
        }
        rest = more;
    }
    true
}

impl ReadyDeeds {
    ghost use Rattle.cob_move_deeds.specs.Prepared.{AreDeedsPrepared, deeds_of, flow_support};

    /// What is carried out, one thing behind another.
    pub fn flows(&self) -> &[Flow]
        ensures { result.now ≡ self.now.flows.items }
    {
        self.flows.as_slice()
    }

    /// What loops end by.
    pub fn bounds(&self) -> &[Bound]
        ensures { result.now ≡ self.now.bounds.items }
    {
        self.bounds.as_slice()
    }

    /// The loops whose bounds are read once.
    pub fn loops(&self) -> &[CountedLoop]
        ensures { result.now ≡ self.now.loops.items }
    {
        self.loops.as_slice()
    }

    /// The conditions, and the entries that they ask for.
    pub fn asked(&self) -> &Asked
        ensures { result.now ≡ self.now.asked }
    {
        &self.asked
    }

    /// Whether there is no test.
    pub fn is_straight(&self) -> bool
        requires prepared { (r : Records) × AreDeedsPrepared r self.now }
        ensures { (r : Records) → Decides result (IsStraight (deeds_of r self.now)) }
    {
        all_move(self.flows.as_slice())
    }

    /// How many statements stand before the mark with this number.
    pub fn statements_before(&self, mark: usize) -> usize
        requires within { mark < length self.now.moves.marks.items }
        ensures { result ≡ (mark_at self.now.moves.marks.items mark).statement }
    {
        self.moves.statements_before(mark)
    }

    /// The moves of each statement from one mark to another, in the order of the statements.
    pub fn statements_between(&self, from: usize, to: usize) -> &[StatementMoves]
        requires prepared { (r : Records) × AreDeedsPrepared r self.now }
        requires rises { from ≤ to }
        requires within { to < length self.now.moves.marks.items }
        ensures value { result.now
            ≡ items_between (mark_at self.now.moves.marks.items from).statement
            (mark_at self.now.moves.marks.items to).statement
            self.now.moves.moves.statements.items }
        ensures moves { (r : Records) → moves_between_marks r self.now.moves from to
            ≡ moves_by self.now.moves.moves.reading r result.now }
    {
        self.moves.statements_between(from, to)
    }

    /// What the bound with this number gives in the storages of two records. Nothing is kept of the counts of either.
    ///
    /// # Errors
    ///
    /// The first count that the place of the bound needs and that isn't valid; its subscript past its table's count; a bound that gives no number from 0 to
    /// the greatest that it may hold.
    pub fn bound_number(
        &self,
        number: usize,
        input_layout: &Layout,
        output_layout: &Layout,
        input: &[u8],
        output: &[u8],
        scratch: &mut Scratch,
    ) -> Result<u32, Stop>
        requires prepared { AreDeedsPrepared
            (record { input = input_layout.now; output = output_layout.now }) self.now }
        requires within { number < length self.now.bounds.items }
        requires room { scratch.old.room ≡ room_of
            (record { input = input_layout.now; output = output_layout.now }) }
        ensures says { (b : TheBound) → slice_get self.now.bounds.items number ≡ Some b
            → BoundSays (record { input = input_layout.now; output = output_layout.now })
            (past_bound (record { input = input_layout.now; output = output_layout.now }) b 0)
            input.now output.now result }
        ensures room { scratch.new.room ≡ scratch.old.room }
    {
        scratch.forget_input();
        scratch.forget_output();
        let sides = Sides {
            input_layout,
            output_layout,
            input,
        };
        number_of(&self.bounds[number], &sides, output, scratch)
    }

    /// Whether the condition with this number holds in the storages of two records. Nothing is kept of the counts of either.
    ///
    /// # Errors
    ///
    /// The first thing missing that is looked at: a count that the place of an entry needs and that isn't valid; a subscript past its table's count; the
    /// number of an entry that is compared as a number and whose bytes represent none.
    pub fn condition_says(
        &self,
        number: usize,
        input_layout: &Layout,
        output_layout: &Layout,
        input: &[u8],
        output: &[u8],
        scratch: &mut Scratch,
    ) -> Result<bool, Stop>
        requires prepared { AreDeedsPrepared
            (record { input = input_layout.now; output = output_layout.now }) self.now }
        requires within { number < length self.now.asked.conditions.items }
        requires input { IsStorage input_layout.now input.now }
        requires output { length output.now ≡ greatest_length output_layout.now }
        requires room { scratch.old.room ≡ room_of
            (record { input = input_layout.now; output = output_layout.now }) }
        ensures says { (c : TheCondition)
            → slice_get self.now.asked.conditions.items number ≡ Some c
            → Judged (record { input = input_layout.now; output = output_layout.now })
            (Holds (condition_of
            (sender_at (record { input = input_layout.now; output = output_layout.now })
            (flow_support self.now)) c)) input.now output.now result }
        ensures room { scratch.new.room ≡ scratch.old.room }
    {
        scratch.forget_input();
        scratch.forget_output();
        let sides = Sides {
            input_layout,
            output_layout,
            input,
        };
        condition_says(self, number, &sides, output, scratch)
    }
}
