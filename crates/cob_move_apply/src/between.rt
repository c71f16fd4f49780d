//! The statements between two marks.

ghost use Rattle.std.specs.Prelude.{◌≡◌, ◌<◌, ◌≤◌, length};
ghost use Rattle.cob_move_data.specs.Moves.{Records, moves_by};
ghost use Rattle.cob_move_apply.specs.Marked.{items_between};

use crate::marked::MarkedMoves;
use cob_move_data::StatementMoves;

/// The statements from one number up to another.
#[inline(always)]
pub(crate) fn statements_from(
    statements: &[StatementMoves],
    begin: usize,
    end: usize,
) -> &[StatementMoves]
    requires rises { begin ≤ end }
    requires within { end ≤ length statements.now }
    ensures { result.now ≡ items_between begin end statements.now }
{
    &statements[begin..end]
}

impl MarkedMoves {
    ghost use Rattle.cob_move_apply.specs.Marked.{AreMarkedPrepared, mark_at, moves_between_marks};

    /// How many statements stand before the mark with this number.
    pub fn statements_before(&self, mark: usize) -> usize
        requires within { mark < length self.now.marks.items }
        ensures { result ≡ (mark_at self.now.marks.items mark).statement }
    {
        self.marks[mark].statement
    }

    /// The moves of each statement from one mark to another, in the order of the statements.
    pub fn statements_between(&self, from: usize, to: usize) -> &[StatementMoves]
        requires prepared { (r : Records) × AreMarkedPrepared r self.now }
        requires rises { from ≤ to }
        requires within { to < length self.now.marks.items }
        ensures value { result.now ≡ items_between (mark_at self.now.marks.items from).statement
            (mark_at self.now.marks.items to).statement self.now.moves.statements.items }
        ensures moves { (r : Records) → moves_between_marks r self.now from to
            ≡ moves_by self.now.moves.reading r result.now }
    {
        let begin = self.marks[from].statement;
        let end = self.marks[to].statement;
        statements_from(self.moves.statements.as_slice(), begin, end)
    }
}
