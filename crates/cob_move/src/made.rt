//! What a paragraph comes to, while it is read.

ghost use Rattle.std.specs.Prelude.{◌≡◌, ◌≢◌, ◌+◌, ◌∷◌, ◌++◌, [], IfOk, OnOk};
ghost use Rattle.cob_move.specs.DeedsRead.{IsSizeOf, closed, flow_lists, forgotten, last_marked, made_lists, taken_back, without_flows};
ghost use Rattle.cob_move.specs.declared.made.NotRead.TheVariants as unread;

use crate::linking::next_number;
use cob_move_condition::Condition;
use cob_move_data::StatementMoves;
use cob_move_deeds::{Bound, Flow};
use cob_move_statements::MoveFault;
use cob_move_tests::NamedEntry;
use std::alloc::{AllocError, AllocFailed, Global};
use std::mem::replace;

/// What a paragraph comes to, while it is read.
#[derive(Drop)]
pub(crate) struct Made {
    pub(crate) list: Vec<StatementMoves>,
    /// How many statements stand before each mark but the first.
    pub(crate) ends: Vec<usize>,
    pub(crate) bounds: Vec<Bound>,
    /// The entries that conditions ask for, which name them by their numbers here.
    pub(crate) asked: Vec<NamedEntry>,
    pub(crate) conditions: Vec<Condition>,
    pub(crate) flows: Vec<Flow>,
    /// How many statements were read, those of turns that were taken back among them.
    pub(crate) read: u64,
}

/// A branch of a choice that was read: the number of its condition, and what is carried out where it holds.
#[derive(Drop)]
pub(crate) struct BranchFlows {
    pub(crate) condition: usize,
    pub(crate) flows: Vec<Flow>,
}

/// Why words are not read.
#[derive(Clone, Copy)]
pub(crate) enum NotRead {
    /// Memory was refused.
    Memory,
    /// They come to too many statements.
    TooMany,
    /// They break a rule.
    Broken(MoveFault),
}

impl From<AllocError> for NotRead {
    ghost from_gives = { λ _ n. n ≡ unread.Memory };

    fn from(_refused: AllocError) -> NotRead {
        NotRead::Memory
    }
}

impl<T: Drop> From<AllocFailed<T>> for NotRead {
    ghost from_gives = { λ _ n. n ≡ unread.Memory };

    fn from(_refused: AllocFailed<T>) -> NotRead {
        NotRead::Memory
    }
}

/// How much of each there was.
#[derive(Clone, Copy)]
pub(crate) struct Sizes {
    list: usize,
    ends: usize,
    bounds: usize,
    asked: usize,
    conditions: usize,
    flows: usize,
    read: u64,
}

impl Made {
    /// How many statements stand before the last mark.
    fn marked(&self) -> usize
        ensures { result ≡ last_marked 0 (made_lists self.now).ends }
    {
        match self.ends.last() {
            Some(end) => *end,
            None => 0,
        }
    }

    /// Ends the moves that are carried out together, if there are some behind the last mark: a test follows.
    ///
    /// # Errors
    ///
    /// Where no memory is left.
    pub(crate) fn close(&mut self) -> Result<(), AllocError>
        ensures closed { OnOk result (made_lists self.new ≡ closed (made_lists self.old)) }
    {
        let end = self.list.len();
        if end == self.marked() {
            return Ok(());
        }
        let number = self.ends.len();
        self.ends.push(end)?;
        self.flows.push(Flow::Moves(number))?;
        Ok(())
    }

    /// How much of each there is.
    pub(crate) fn sizes(&self) -> Sizes
        ensures { IsSizeOf (made_lists self.now) result }
    {
        Sizes {
            list: self.list.len(),
            ends: self.ends.len(),
            bounds: self.bounds.len(),
            asked: self.asked.len(),
            conditions: self.conditions.len(),
            flows: self.flows.len(),
            read: self.read,
        }
    }

    /// Takes back what came behind: its statements were read all the same.
    fn take_back(&mut self, to: Sizes)
        ensures { made_lists self.new ≡ taken_back to (made_lists self.old) }
    {
        self.list.truncate(to.list);
        self.ends.truncate(to.ends);
        self.bounds.truncate(to.bounds);
        self.asked.truncate(to.asked);
        self.conditions.truncate(to.conditions);
        self.flows.truncate(to.flows);
    }

    /// Takes back what came behind, as if it had not been read.
    pub(crate) fn forget(&mut self, to: Sizes)
        ensures { made_lists self.new ≡ forgotten to (made_lists self.old) }
    {
        self.take_back(to);
        self.read = to.read;
    }
}

/// The flows of the turn that was read last: a mark stands behind it.
///
/// # Errors
///
/// Where no memory is left.
pub(crate) fn taken_flows(alloc: Global, made: &mut Made) -> Result<Vec<Flow>, AllocError>
    ensures flows { IfOk result (λ v. v.items ≡ (closed (made_lists made.old)).flows) }
    ensures left { OnOk result
        (made_lists made.new ≡ without_flows (closed (made_lists made.old))) }
{
    made.close()?;
    Ok(replace(&mut made.flows, Vec::new(alloc)))
}

/// Keeps a turn that was read, if its counter takes its number, and answers the number that it takes next; else takes the turn back, whose statements were read.
///
/// # Errors
///
/// Where no memory is left.
pub(crate) fn keep_turn(
    alloc: Global,
    number: u32,
    next: u32,
    by: u32,
    before: Sizes,
    made: &mut Made,
    turns: &mut Vec<Vec<Flow>>,
) -> Result<u32, AllocError>
    ensures kept { IfOk result (λ n. number ≡ next → (n ≡ next + by)
        × (made_lists made.new ≡ without_flows (closed (made_lists made.old)))
        × (flow_lists turns.new.items ≡ flow_lists turns.old.items
        ++ (closed (made_lists made.old)).flows ∷ [])) }
    ensures passed { IfOk result (λ n. number ≢ next → (n ≡ next)
        × (made_lists made.new ≡ taken_back before (made_lists made.old))
        × (turns.new.items ≡ turns.old.items)) }
{
    if number != next {
        made.take_back(before);
        return Ok(next);
    }
    let own = taken_flows(alloc, made)?;
    turns.push(own)?;
    next_number(next, by)
}
