//! What the moves of statements send, one move behind another.

ghost use Rattle.std.specs.Prelude.{◌≡◌, List, length};
ghost use Rattle.std.specs.Iterator.{at_most};
ghost use Rattle.std.specs.Map.Iter.{TakesFirst};
ghost use Rattle.cob_move_data.specs.Singles.{PlainSent, plain_sent, senders_behind, senders_of};

use crate::operands::StatementMoves;
use crate::single::{Sent, sender_at};
use std::marker::Model;

/// What the moves of a paragraph's statements send, in their order: each move once, however many receivers it has. It takes no memory.
#[derive(Drop)]
pub struct Senders<'a> {
    /// How many moves of the first statement that is left are taken.
    taken: usize,
    /// The statements that are left.
    statements: &'a [StatementMoves],
}

impl<'a> Model for Senders<'a> {
    ghost Value = { List PlainSent };

    ghost view = { λ s. senders_behind s.taken s.statements.now };
}

impl<'a> Senders<'a> {
    /// What the moves of a paragraph's statements send.
    pub fn new(statements: &'a [StatementMoves]) -> Senders<'a>
        ensures { result ≡ senders_of statements.now }
    {
        Senders {
            taken: 0,
            statements,
        }
    }
}

impl<'a> Iterator for Senders<'a> {
    type Item = Sent<'a>;

    ghost next_gives = { TakesFirst plain_sent };

    ghost remaining = { λ s. at_most (length s) };

    fn next(&mut self) -> Option<Sent<'a>> {
        while let Some((moves, behind)) = self.statements.split_first() {
            if let Some(sent) = sender_at(moves, self.taken) {
                self.taken += 1;
                return Some(sent);
            }
            self.taken = 0;
            self.statements = behind;
        }
        None
    }
}
