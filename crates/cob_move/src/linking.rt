//! The flows of loops to items and of choices.

ghost use Rattle.std.specs.Prelude.{◌≡◌, ◌+◌, ◌++◌, IfOk, OnOk};
ghost use Rattle.cob_move.specs.DeedsRead.{branches_size, flow_lists, linked_branches, linked_size, linked_turns, taken_branches};

use crate::made::BranchFlows;
use cob_move_deeds::Flow;
use std::alloc::AllocError;

/// The number of a counter in the next turn.
///
/// # Errors
///
/// Where it is over 32 bits.
pub(crate) fn next_number(number: u32, by: u32) -> Result<u32, AllocError>
    ensures { IfOk result (λ next. next ≡ number + by) }
{
    match number.checked_add(by) {
        Some(next) => Ok(next),
        None => Err(AllocError),
    }
}

/// The sum of two numbers.
///
/// # Errors
///
/// Where it is too large.
fn sum(a: usize, b: usize) -> Result<usize, AllocError>
    ensures { IfOk result (λ n. n ≡ a + b) }
{
    match a.checked_add(b) {
        Some(sum) => Ok(sum),
        None => Err(AllocError),
    }
}

/// How many flows the turns of a loop are, each behind its test, with the test behind the last.
///
/// # Errors
///
/// Where they are too many.
fn linked_size(turns: &[Vec<Flow>]) -> Result<usize, AllocError>
    ensures { IfOk result (λ n. n ≡ linked_size (flow_lists turns.now)) }
{
    let mut size = 1;
    for own in turns {
        let more = sum(size, own.len())?;
        size = sum(more, 1)?;
    }
    Ok(size)
}

/// Puts the flows of turns behind others, each turn's behind its test, and the test behind the last: a test passes over all that is behind it in the loop.
///
/// # Errors
///
/// Where no memory is left.
pub(crate) fn link_turns(
    turns: &[Vec<Flow>],
    bound: usize,
    from: u32,
    by: u32,
    flows: &mut Vec<Flow>,
) -> Result<(), AllocError>
    ensures { OnOk result (flows.new.items
        ≡ flows.old.items ++ linked_turns bound by from (flow_lists turns.now)) }
{
    let mut left = linked_size(turns)?;
    let mut number = from;
    for own in turns {
        left -= 1;
        flows.push(Flow::Until {
            bound,
            number,
            skip: left,
        })?;
        flows.extend_from_slice(own.as_slice())?;
        left -= own.len();
        number = next_number(number, by)?;
    }
    flows.push(Flow::Until {
        bound,
        number,
        skip: 0,
    })?;
    Ok(())
}

/// How many flows the branches of a choice are, with those of the last.
///
/// # Errors
///
/// Where they are too many.
fn branches_size(branches: &[BranchFlows], other: &[Flow]) -> Result<usize, AllocError>
    ensures { IfOk result (λ n. n ≡ branches_size (taken_branches branches.now) other.now) }
{
    let mut size = other.len();
    for branch in branches {
        let more = sum(size, branch.flows.len())?;
        size = sum(more, 2)?;
    }
    Ok(size)
}

/// Puts the flows of a choice behind others: each branch behind its condition, within what is done where those before don't hold, and last what is done where
/// none holds.
///
/// # Errors
///
/// Where no memory is left.
pub(crate) fn link_branches(
    branches: &[BranchFlows],
    other: &[Flow],
    flows: &mut Vec<Flow>,
) -> Result<(), AllocError>
    ensures { OnOk result (flows.new.items
        ≡ flows.old.items ++ linked_branches (taken_branches branches.now) other.now) }
{
    let mut left = branches_size(branches, other)?;
    for branch in branches {
        let holding = branch.flows.len();
        left -= holding + 2;
        flows.push(Flow::Where {
            condition: branch.condition,
            holding,
            lacking: left,
        })?;
        flows.extend_from_slice(branch.flows.as_slice())?;
        flows.push(Flow::Skip(left))?;
    }
    flows.extend_from_slice(other)?;
    Ok(())
}
