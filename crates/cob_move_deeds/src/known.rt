//! What bounds are known to give.

ghost use Rattle.std.specs.Prelude.{◌≡◌, ◌<◌, ◌≤◌, List, ℕ, length, IfSome, Some};
ghost use Rattle.cob_layout.specs.Storage.{greatest_length};
ghost use Rattle.cob_move_data.specs.Moves.{Records};
ghost use Rattle.cob_move_apply.specs.Applied.{Applied, done};
ghost use Rattle.cob_move_apply.specs.Marked.{moves_between_marks};
ghost use Rattle.cob_move_deeds.specs.Flows.{FlowSupport};
ghost use Rattle.cob_move_deeds.specs.Known.{AreKnown, Gives, IsKnown};

use crate::steady::Stretch;
use cob_layout::one_outcome_of_counts;

/// A bound that was read, by its number, what it gave, and between which marks moves leave that.
#[derive(Clone, Copy)]
pub(crate) struct KnownBound {
    pub(crate) bound: usize,
    pub(crate) gave: u32,
    pub(crate) steady: Stretch,
}

/// What the bound with this number gave, where this is that bound.
fn gave(one: Option<KnownBound>, bound: usize) -> Option<u32>
    ensures { (r : Records) (on : FlowSupport) (input before : List ℕ)
        → IfSome one (IsKnown r on input before)
        → IfSome result (λ n. Gives r on bound n input before) }
{
    match one {
        Some(known) => {
            if known.bound == bound {
                Some(known.gave)
            } else {
                None
            }
        }
        None => None,
    }
}

/// What is known of a bound behind the moves from one mark to another: what was, where they leave it, and else nothing.
fn known_behind(one: Option<KnownBound>, from: usize, to: usize) -> Option<KnownBound>
    ensures { IfSome result (λ k. (one ≡ Some k) × (k.steady.first ≤ from)
        × (to ≤ k.steady.last)) }
{
    match one {
        Some(known) => {
            if known.steady.holds(from, to) {
                Some(known)
            } else {
                None
            }
        }
        None => None,
    }
}

/// The two bounds that were asked for last, the later one first: so a loop in a loop doesn't have the bound of the outer one read anew in each turn.
#[derive(Clone, Copy)]
pub(crate) struct KnownBounds {
    pub(crate) last: Option<KnownBound>,
    pub(crate) before: Option<KnownBound>,
}

impl KnownBounds {
    /// Nothing is known yet.
    pub(crate) fn new() -> KnownBounds
        ensures { (r : Records) (on : FlowSupport) (input before : List ℕ)
            → AreKnown r on input before result }
    {
        KnownBounds {
            last: None,
            before: None,
        }
    }

    /// What the bound with this number gives, if it is known.
    pub(crate) fn number_of(&mut self, bound: usize) -> Option<u32>
        ensures known { (r : Records) (on : FlowSupport) (input before : List ℕ)
            → AreKnown r on input before self.old → AreKnown r on input before self.new }
        ensures gives { (r : Records) (on : FlowSupport) (input before : List ℕ)
            → AreKnown r on input before self.old
            → IfSome result (λ n. Gives r on bound n input before) }
    {
        if let Some(number) = gave(self.last, bound) {
            return Some(number);
        }
        let Some(number) = gave(self.before, bound) else {
            return None;
        };
        *self = KnownBounds {
            last: self.before,
            before: self.last,
        };
        Some(number)
    }

    /// From now on this is known of a bound. One that no moves leave isn't kept.
    pub(crate) fn keep(&mut self, one: KnownBound)
        ensures { (r : Records) (on : FlowSupport) (input before : List ℕ)
            → AreKnown r on input before self.old → IsKnown r on input before one
            → AreKnown r on input before self.new }
    {
        if one.steady.is_empty() {
            return;
        }
        *self = KnownBounds {
            last: Some(one),
            before: self.last,
        };
    }

    /// The moves from one mark to another were carried out: what they may have changed is known no more.
    pub(crate) fn leave(&mut self, from: usize, to: usize)
        requires rises { from ≤ to }
        ensures { (r : Records) (on : FlowSupport) (input before after : List ℕ)
            → AreKnown r on input before self.old → length before ≡ greatest_length r.output
            → to < length on.moves.marks.items
            → Applied r (moves_between_marks r on.moves from to) input before (done after)
            → AreKnown r on input after self.new }
    {
        // What a bound gives rests on its bytes alone, where no count decides its place.
        one_outcome_of_counts();
        self.last = known_behind(self.last, from, to);
        self.before = known_behind(self.before, from, to);
    }
}
