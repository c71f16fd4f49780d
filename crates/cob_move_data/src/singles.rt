//! The single moves of statements, one behind another.

ghost use Rattle.std.specs.Prelude.{◌≡◌, ◌+◌, ◌<◌, ◌^◌, List, length};
ghost use Rattle.std.specs.Iterator.{at_most};
ghost use Rattle.std.specs.Map.Iter.{TakesFirst};
ghost use Rattle.cob_move_data.specs.Singles.{PlainSingle, plain_single, singles_behind, singles_of};

use crate::operands::StatementMoves;
use crate::single::{SingleMove, single_at};
use std::marker::Model;

/// The single moves of a paragraph's statements, in their order: each sender once for each of its receivers, and each pair of two groups. It takes no memory.
#[derive(Drop)]
pub struct Singles<'a> {
    /// The place of the first statement that is left.
    statement: usize,
    /// How many single moves of that statement are taken.
    taken: usize,
    /// The statements that are left.
    statements: &'a [StatementMoves],
}

impl<'a> Model for Singles<'a> {
    ghost Value = { List PlainSingle };

    ghost view = { λ s. singles_behind s.statement s.taken s.statements.now };

    ghost invariant = { λ s. s.statement + length s.statements.now < 2 ^ 64 };
}

impl<'a> Singles<'a> {
    /// The single moves of a paragraph's statements.
    pub fn new(statements: &'a [StatementMoves]) -> Singles<'a>
        ensures { result ≡ singles_of statements.now }
    {
        Singles {
            statement: 0,
            taken: 0,
            statements,
        }
    }
}

impl<'a> Iterator for Singles<'a> {
    type Item = SingleMove<'a>;

    ghost next_gives = { TakesFirst plain_single };

    ghost remaining = { λ s. at_most (length s) };

    fn next(&mut self) -> Option<SingleMove<'a>> {
        while let Some((moves, behind)) = self.statements.split_first() {
            if let Some(single) = single_at(self.statement, moves, self.taken) {
                self.taken += 1;
                return Some(single);
            }
            self.statement += 1;
            self.taken = 0;
            self.statements = behind;
        }
        None
    }
}
