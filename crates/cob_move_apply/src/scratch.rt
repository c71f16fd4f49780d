//! Room for carrying out moves.

ghost use Rattle.std.specs.Prelude.{◌≡◌, ◌<◌, ◌≤◌, ℕ, List, Ok, Err, IfOk, IfErr};
ghost use Rattle.cob_copybook_tree.specs.Forests.{Forest};
ghost use Rattle.cob_copybook_tree.specs.Lengths.{greatest_number, sum_of};
ghost use Rattle.cob_copybook_tree.specs.Nodes.{Resolved};
ghost use Rattle.cob_layout.specs.Counting.{CountsOf};
ghost use Rattle.cob_layout.specs.Kept.{AreKeptOf};
ghost use Rattle.cob_layout.specs.Standing.{room_for};
ghost use Rattle.cob_layout_places.specs.Lengths.{times};
ghost use Rattle.cob_move_apply.specs.Reads.{kept_among};
ghost use Rattle.cob_move_apply.specs.Room.{room_of};

use crate::workspace::Workspace;
use cob_layout::{CountFault, Layout};
use std::alloc::{AllocError, Global};
use std::marker::Model;

/// Room for the counts of both records, and for the bytes of a sender that lies in the output record.
///
/// Contracts see how much of it there is, how many count items of the output record were read, and what is kept of the counts of either record's
/// storage.
#[derive(Drop)]
pub struct Scratch {
    pub(crate) space: Workspace,
}

impl Model for Scratch {
    ghost use Rattle.cob_move_apply.specs.Room.{Scratching};
    ghost use Rattle.cob_move_apply.specs.Surveyed.{room_in_space};

    ghost Value = { Scratching };

    ghost view = { λ s. record { room = room_in_space s.space; reads = s.space.output.reads; kept_input = s.space.input.counts.kept; kept_output = s.space.output.counts.kept } };
}

impl Scratch {
    /// Room for moves between records of these layouts.
    ///
    /// # Errors
    ///
    /// Where no memory is left.
    pub fn new(alloc: Global, input: &Layout, output: &Layout) -> Result<Scratch, AllocError>
        ensures room { IfOk result
            (λ s. s.room ≡ room_of (record { input = input.now; output = output.now })) }
        ensures none { IfOk result (λ s. s.reads ≡ 0) }
    {
        let space = Workspace::new(alloc, input, output)?;
        Ok(Scratch { space })
    }

    /// How many count items of the output record the last application of moves read. It stays at the greatest `u64`.
    pub fn reads(&self) -> u64
        ensures { result ≡ self.now.reads }
    {
        self.space.output.reads
    }

    /// Forgets what is kept of the counts of the input record, since another storage comes.
    pub fn forget_input(&mut self)
        ensures keeps { (tree : Forest Resolved) (bytes : List ℕ)
            → AreKeptOf tree bytes self.new.kept_input }
        ensures room { self.new.room ≡ self.old.room }
        ensures reads { self.new.reads ≡ self.old.reads }
        ensures output { self.new.kept_output ≡ self.old.kept_output }
    {
        self.space.input.forget();
    }

    /// Forgets what is kept of the counts of the output record, since another storage comes. No count item of it was read then.
    pub fn forget_output(&mut self)
        ensures keeps { (tree : Forest Resolved) (bytes : List ℕ)
            → AreKeptOf tree bytes self.new.kept_output }
        ensures unkept { (tree : Forest Resolved) → kept_among tree self.new.kept_output ≡ 0 }
        ensures none { self.new.reads ≡ 0 }
        ensures room { self.new.room ≡ self.old.room }
        ensures input { self.new.kept_input ≡ self.old.kept_input }
    {
        self.space.output.forget();
    }

    /// How many bytes an input record of this layout has under the counts that its bytes give. What was kept of the input before is forgotten, and the
    /// counts that are read are kept. It takes no memory.
    ///
    /// # Errors
    ///
    /// The first count that gives no number within its table's bounds, or that ends past the bytes.
    #[inline(always)]
    pub fn input_length(&mut self, layout: &Layout, bytes: &[u8]) -> Result<u16, CountFault>
        requires room { self.old.room.inputs ≡ room_for layout.now }
        ensures ok { IfOk result (λ made. (c : List ℕ) × CountsOf layout.now bytes.now (Ok c)
            × (made ≡ sum_of (times c) layout.now)) }
        ensures least { IfOk result (λ made. 0 < made) }
        ensures most { IfOk result (λ made. made ≤ sum_of greatest_number layout.now) }
        ensures err { IfErr result (λ e. CountsOf layout.now bytes.now (Err e)) }
        ensures keeps { AreKeptOf layout.now bytes.now self.new.kept_input }
        ensures room { self.new.room ≡ self.old.room }
        ensures reads { self.new.reads ≡ self.old.reads }
        ensures output { self.new.kept_output ≡ self.old.kept_output }
    {
        self.forget_input();
        layout.kept_length(bytes, &mut self.space.input.counts)
    }

    /// How many bytes an output record of this layout has under the counts that its bytes give. Counts that are kept are not read again, and those that
    /// are read are kept. It takes no memory.
    ///
    /// # Errors
    ///
    /// The first count that gives no number within its table's bounds, or that ends past the bytes.
    #[inline(always)]
    pub fn output_length(&mut self, layout: &Layout, bytes: &[u8]) -> Result<u16, CountFault>
        requires room { self.old.room.outputs ≡ room_for layout.now }
        requires kept { AreKeptOf layout.now bytes.now self.old.kept_output }
        ensures ok { IfOk result (λ made. (c : List ℕ) × CountsOf layout.now bytes.now (Ok c)
            × (made ≡ sum_of (times c) layout.now)) }
        ensures least { IfOk result (λ made. 0 < made) }
        ensures most { IfOk result (λ made. made ≤ sum_of greatest_number layout.now) }
        ensures err { IfErr result (λ e. CountsOf layout.now bytes.now (Err e)) }
        ensures keeps { AreKeptOf layout.now bytes.now self.new.kept_output }
        ensures room { self.new.room ≡ self.old.room }
        ensures reads { self.new.reads ≡ self.old.reads }
        ensures input { self.new.kept_input ≡ self.old.kept_input }
    {
        layout.kept_length(bytes, &mut self.space.output.counts)
    }
}
