//! Turns in a row.

ghost use Rattle.std.specs.Prelude.{◌≡◌, ◌<◌, ◌≤◌, ◌∷◌, ℕ, List, [], drop, length, take, IfSome};
ghost use Rattle.std.specs.List.{AllByRecursion};
ghost use Rattle.cob_move_deeds.specs.Flows.{IsFlow, behind_skip};
ghost use Rattle.cob_move_deeds.specs.Prepared.{flow_support};
ghost use Rattle.cob_move_deeds.specs.Rows.{IsRow};
ghost use Rattle.cob_move_deeds.specs.declared.flow.Flow.{Flow as Flows};
ghost use Rattle.cob_move_deeds.specs.declared.flow.Flow.TheVariants as flow;

use crate::flow::Flow;
use crate::ready::ReadyDeeds;

/// Turns in a row: the mark behind the moves of the last, and the flows that are left then.
#[derive(Clone, Copy)]
pub(crate) struct Row<'a> {
    pub(crate) to: usize,
    pub(crate) left: &'a [Flow],
}

/// Those behind so many.
pub(crate) fn behind(flows: &[Flow], count: usize) -> &[Flow]
    ensures value { result.now ≡ drop count flows.now }
    ensures fewer { length result.now ≤ length flows.now }
{
    let count = count.min(flows.len());
    &flows[count..]
}

/// So many of them that stand in front.
pub(crate) fn front(flows: &[Flow], count: usize) -> &[Flow]
    ensures { result.now ≡ take count flows.now }
{
    let count = count.min(flows.len());
    &flows[..count]
}

/// Those behind so many and a skip.
pub(crate) fn behind_skip(flows: &[Flow], count: usize) -> &[Flow]
    ensures value { result.now ≡ behind_skip count flows.now }
    ensures fewer { length result.now ≤ length flows.now }
{
    let rest = behind(flows, count);
    match rest.split_first() {
        Some((_, more)) => more,
        None => rest,
    }
}

/// The first mark of moves that stand in front.
pub(crate) fn first_moves(flows: &[Flow]) -> Option<usize>
    ensures { IfSome result
        (λ number. (more : List Flows) × (flows.now ≡ flow.Moves number ∷ more)) }
{
    match flows.split_first() {
        Some((Flow::Moves(number), _)) => Some(*number),
        _ => None,
    }
}

impl ReadyDeeds {
    /// The turns in a row that these flows begin with, behind the first mark, where the bound with this number gives this: up to the first test that it
    /// is past.
    pub(crate) fn row_from<'a>(
        &self,
        first: usize,
        bound: usize,
        last: u32,
        flows: &'a [Flow],
    ) -> Row<'a>
        requires first { first < length self.now.moves.marks.items }
        requires each { AllByRecursion (IsFlow (flow_support self.now)) flows.now }
        ensures row { IsRow bound last first flows.now result.to result.left.now }
        ensures within { result.to < length self.now.moves.marks.items }
        ensures each { AllByRecursion (IsFlow (flow_support self.now)) result.left.now }
        ensures fewer { length result.left.now ≤ length flows.now }
    {
        let mut to = first;
        let mut left = flows;
        while let Some((flow, more)) = left.split_first() {
            match *flow {
                Flow::Moves(number) => {
                    if number != to {
                        return Row { to, left };
                    }
                    to = number + 1;
                    left = more;
                }
                Flow::Until {
                    bound: own,
                    number,
                    skip,
                } => {
                    if own != bound {
                        return Row { to, left };
                    }
                    if last < number {
                        let left = behind(more, skip);
                        return Row { to, left };
                    }
                    left = more;
                }
                Flow::Turns(_) | Flow::Where { .. } | Flow::Skip(_) => return Row { to, left },
            }
        }
        Row { to, left }
    }
}
