//! Who gives the operands of conditions.

ghost use Rattle.std.specs.Prelude.{◌≡◌, ℕ, Ok, Err, Result, IfOk, IfErr};
ghost use Rattle.cob_copybook_tree.specs.declared.node.Kind.{Kind};
ghost use Rattle.cob_copybook_entry.specs.Described.{PlainValue};
ghost use Rattle.cob_move_data.specs.Moves.{Sender, Literal};
ghost use Rattle.cob_move_receive.specs.Sent.{Sent as Sends, HasAllBytes, sent};
ghost use Rattle.cob_move_receive.specs.Sent as given;
ghost use Rattle.cob_move_receive.specs.Table.{Entry};
ghost use Rattle.cob_move_condition.specs.Comparable.{kind_of_sent};

use cob_move_receive::Sent;

/// Who gives what the entries of conditions hold: the storages of two records between moves, or a record as it came.
pub trait Operands {
    /// What is kept from one entry to the next, as counts that were read.
    type Room;

    /// Why an entry gives nothing, or no value.
    type Stop;

    // There is an entry with this number.
    ghost has: { Self → ℕ → Type 0 };

    // The sender that the entry with this number is.
    ghost entry: { Self → ℕ → Sender };

    // What the entry with this number describes.
    ghost kind: { Self → ℕ → Kind };

    // What a sender gives, or the stop of one that gives nothing.
    ghost gives: { Self → Sender → Result Sends Self.Stop → Type 0 };

    // The stop of a sender whose bytes represent no value.
    ghost lacks: { Self → Sender → Self.Stop → Type 0 };

    // What is kept is right.
    ghost keeps: { Self → Self.Room → Type 0 };

    // What is kept may become this while entries give what they hold, as by so many reads of counts.
    ghost goes: { Self → Self.Room → Self.Room → Type 0 };

    // What is kept may become this up to a stop.
    ghost halts: { Self → Self.Room → Self.Room → Type 0 };

    /// What the entry with this number gives.
    ///
    /// # Errors
    ///
    /// It stands nowhere.
    fn give(&self, number: usize, room: &mut Self::Room) -> Result<Sent<'_>, Self::Stop>
        requires there { has self.now number }
        requires room { keeps self.now room.old }
        ensures gives { IfOk result (λ s. gives self.now (entry self.now number) (Ok (sent s))) }
        ensures bytes { IfOk result (λ s. HasAllBytes (sent s)) }
        ensures kind { IfOk result (λ s. kind_of_sent (sent s) ≡ Entry (kind self.now number)) }
        ensures stops { IfErr result
            (λ stop. gives self.now (entry self.now number) (Err stop)) }
        ensures room { keeps self.now room.new }
        ensures went { IfOk result (λ _. goes self.now room.old room.new) }
        ensures halted { IfErr result (λ _. halts self.now room.old room.new) };

    /// The stop of the entry with this number, whose bytes represent no value.
    fn lack(&self, number: usize, room: &mut Self::Room) -> Self::Stop
        requires there { has self.now number }
        requires gives { (s : Sends) × gives self.now (entry self.now number) (Ok s) }
        requires room { keeps self.now room.old }
        ensures lacks { lacks self.now (entry self.now number) result }
        ensures room { keeps self.now room.new }
        ensures halted { halts self.now room.old room.new };

    // A constant gives itself.
    ghost constants: { (operands : Self) (c : PlainValue) → gives operands (Literal c) (Ok (given.Literal c)) };

    // What is kept may stay.
    ghost stays: { (operands : Self) (a : Self.Room) → goes operands a a };

    // What becomes of it in two steps may become of it.
    ghost joins: { (operands : Self) (a b c : Self.Room) → goes operands a b → goes operands b c → goes operands a c };

    // The same up to a stop.
    ghost ends: { (operands : Self) (a b c : Self.Room) → goes operands a b → halts operands b c → halts operands a c };
}
