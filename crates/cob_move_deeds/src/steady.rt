//! Bounds that moves leave alone.
//!
//! A move changes no bound of the input record. One of the output record may stand where the moves of its loop don't reach: that is found out once, for the
//! marks between which these moves lie.

ghost use Rattle.std.specs.Prelude.{◌≡◌, ◌∷◌, ◌+◌, ◌<◌, ◌≤◌, ℕ, List, length, slice_index_or, IfOk, IfSome, IsTrue, Some, None};
ghost use Rattle.std.specs.List.{AllByRecursion, slice_get};
ghost use Rattle.cob_move_data.specs.Moves.{Records};
ghost use Rattle.cob_move_apply.specs.declared.marked.MarkedMoves.{MarkedMoves};
ghost use Rattle.cob_move_deeds.specs.declared.flow.Bound.{Bound as Bounded};
ghost use Rattle.cob_move_deeds.specs.Flows.{FlowSupport, IsFlow};
ghost use Rattle.cob_move_deeds.specs.Prepared.{AreDeedsPrepared, deeds_of, flow_support};
ghost use Rattle.cob_move_deeds.specs.Steady.{AreSteady, IsSteady, IsStretch};

use crate::flow::Flow;
use crate::ready::ReadyDeeds;
use crate::row::front;
use cob_layout::Layout;
use cob_move_data::Side;
use std::alloc::{AllocError, Global};

/// Marks, from the first of them to the last.
#[derive(Clone, Copy)]
pub(crate) struct Stretch {
    pub(crate) first: usize,
    pub(crate) last: usize,
}

/// All marks that there may be.
const ALL_MARKS: Stretch = Stretch {
    first: 0,
    last: usize::MAX,
};

/// No mark.
pub(crate) const NO_MARK: Stretch = Stretch { first: 1, last: 0 };

impl Stretch {
    /// Whether it has no mark.
    pub(crate) fn is_empty(self) -> bool {
        self.last < self.first
    }

    /// Whether the marks from one to another are among it.
    pub(crate) fn holds(self, from: usize, to: usize) -> bool
        ensures { IsTrue result → (self.first ≤ from) × (to ≤ self.last) }
    {
        self.first <= from && to <= self.last
    }
}

/// These marks, with the one before the moves with this number and the one behind them.
fn with_moves(found: Option<Stretch>, number: usize) -> Stretch
    ensures { (n : ℕ) → IfSome found (λ s. (s.first ≤ s.last) × (s.last < n)) → number + 1 < n
        → (result.first ≤ result.last) × (result.last < n) }
{
    let next = number.saturating_add(1);
    match found {
        Some(marks) => Stretch {
            first: marks.first.min(number),
            last: marks.last.max(next),
        },
        None => Stretch {
            first: number,
            last: next,
        },
    }
}

/// These marks, with those between which the moves of a flow lie, if it has any.
fn with_flow(found: Option<Stretch>, flow: &Flow) -> Option<Stretch>
    ensures { (on : FlowSupport) → IfSome found (IsStretch on) → IsFlow on flow.now
        → IfSome result (IsStretch on) }
{
    match *flow {
        Flow::Moves(number) => Some(with_moves(found, number)),
        _ => found,
    }
}

/// What is noted of the bound with this number.
fn noted_at(noted: &[Option<Stretch>], bound: usize) -> Option<Stretch>
    ensures { result ≡ slice_index_or noted.now bound None }
{
    match noted.get(bound) {
        Some(marks) => *marks,
        None => None,
    }
}

/// Between which marks moves leave the bound with this number alone, as it is noted.
fn stretch_at(noted: &[Option<Stretch>], bound: usize) -> Stretch
    ensures { (r : Records) (m : MarkedMoves) (bounds : List Bounded) (b : Bounded)
        → AreSteady r m bounds noted.now → slice_get bounds bound ≡ Some b → IsSteady r m b result }
{
    match noted_at(noted, bound) {
        Some(marks) => marks,
        None => NO_MARK,
    }
}

impl ReadyDeeds {
    /// The marks between which the moves of these flows lie.
    fn marks_of(&self, flows: &[Flow]) -> Option<Stretch>
        requires each { AllByRecursion (IsFlow (flow_support self.now)) flows.now }
        ensures { IfSome result (IsStretch (flow_support self.now)) }
    {
        let mut found = None;
        let mut rest = flows;
        while let Some((flow, more)) = rest.split_first() {
            found = with_flow(found, flow);
            rest = more;
        }
        found
    }

    /// The marks between which the moves of these flows lie, where these leave the bound with this number alone; else no mark.
    fn left_by(&self, flows: &[Flow], bound: usize, output: &Layout) -> Stretch
        requires prepared { (r : Records) × AreDeedsPrepared r self.now }
        requires each { AllByRecursion (IsFlow (flow_support self.now)) flows.now }
        requires within { bound < length self.now.bounds.items }
        ensures { (r : Records) (b : Bounded) → r.output ≡ output.now
            → AreDeedsPrepared r self.now
            → slice_get self.now.bounds.items bound ≡ Some b
            → IsSteady r self.now.moves b result }
    {
        let Some(marks) = self.marks_of(flows) else {
            return NO_MARK;
        };
        let item = &self.bounds[bound].item;
        if self.moves.spare(marks.first, marks.last, item, output) {
            marks
        } else {
            NO_MARK
        }
    }

    /// Notes of the bound of a test that nothing is noted of, between which marks the moves that the test passes over leave it alone. So each bound is looked
    /// at once, at the first test of its loop.
    fn note(&self, flow: &Flow, more: &[Flow], output: &Layout, noted: &mut [Option<Stretch>])
        requires prepared { (r : Records) × AreDeedsPrepared r self.now }
        requires each { AllByRecursion (IsFlow (flow_support self.now)) (flow.now ∷ more.now) }
        ensures { (r : Records) → r.output ≡ output.now → AreDeedsPrepared r self.now
            → AreSteady r self.now.moves self.now.bounds.items noted.old
            → AreSteady r self.now.moves self.now.bounds.items noted.new }
    {
        let Flow::Until { bound, skip, .. } = *flow else {
            return;
        };
        if bound < noted.len() && noted[bound].is_none() {
            noted[bound] = Some(self.left_by(front(more, skip), bound, output));
        }
    }

    /// Between which marks the moves of its loop leave each bound alone.
    ///
    /// # Errors
    ///
    /// Where no memory is left.
    fn noted(&self, alloc: Global, output: &Layout) -> Result<Vec<Option<Stretch>>, AllocError>
        requires prepared { (r : Records) × AreDeedsPrepared r self.now }
        ensures { IfOk result (λ noted. (r : Records) → r.output ≡ output.now
            → AreDeedsPrepared r self.now
            → AreSteady r self.now.moves self.now.bounds.items noted.items) }
    {
        let mut noted = vec![in alloc; None; self.bounds.len()]?;
        let mut rest = self.flows.as_slice();
        while let Some((flow, more)) = rest.split_first() {
            self.note(flow, more, output, &mut noted);
            rest = more;
        }
        Ok(noted)
    }

    /// The same deeds, with what is noted of their bounds: where the moves of a loop leave its bound alone in the output record, it is read once, as one of
    /// the input record is.
    ///
    /// # Errors
    ///
    /// Where no memory is left.
    pub fn with_steady_bounds(
        self,
        alloc: Global,
        output: &Layout,
    ) -> Result<ReadyDeeds, AllocError>
        requires prepared { (r : Records) × AreDeedsPrepared r self }
        ensures deeds { IfOk result (λ d. (r : Records) → deeds_of r d ≡ deeds_of r self) }
        ensures moves { IfOk result (λ d. d.moves ≡ self.moves) }
        ensures prepared { IfOk result (λ d. (r : Records) → r.output ≡ output.now
            → AreDeedsPrepared r self → AreDeedsPrepared r d) }
    {
        let noted = self.noted(alloc, output)?;
        Ok(ReadyDeeds {
            moves: self.moves,
            bounds: self.bounds,
            loops: self.loops,
            asked: self.asked,
            flows: self.flows,
            steady: Some(noted),
            tests: self.tests,
            at_once: self.at_once,
        })
    }

    /// Between which marks moves leave the bound with this number alone, as it is noted.
    fn noted_of(&self, bound: usize) -> Stretch
        ensures { (r : Records) (b : Bounded) → AreDeedsPrepared r self.now
            → slice_get self.now.bounds.items bound ≡ Some b
            → IsSteady r self.now.moves b result }
    {
        match &self.steady {
            Some(noted) => stretch_at(noted.as_slice(), bound),
            None => NO_MARK,
        }
    }

    /// Between which marks moves leave the bound with this number alone: all where it is one of the input record.
    pub(crate) fn stretch_of(&self, bound: usize) -> Stretch
        requires within { bound < length self.now.bounds.items }
        ensures { (r : Records) (b : Bounded) → AreDeedsPrepared r self.now
            → slice_get self.now.bounds.items bound ≡ Some b
            → IsSteady r self.now.moves b result }
    {
        match self.bounds[bound].item.side() {
            Side::In => ALL_MARKS,
            Side::Out => self.noted_of(bound),
        }
    }
}
