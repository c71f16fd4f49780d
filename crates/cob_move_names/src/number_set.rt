//! Sets of the numbers of entries.

ghost use Rattle.std.specs.Prelude.{◌≡◌, ℕ, ◌<◌, ◌==◌, ◌||◌, false, length, OnOk};
ghost use Rattle.cob_move_names.specs.Numbers.{has};

use std::alloc::{AllocError, Global};

/// A set of numbers, as a flag for each number up to the greatest for which there is room.
#[derive(Drop)]
pub(crate) struct NumberSet {
    pub flags: Vec<bool>,
}

impl NumberSet {
    /// The set of no number.
    pub(crate) fn new(alloc: Global) -> NumberSet
        ensures { (n : ℕ) → has result n ≡ false }
    {
        NumberSet {
            flags: Vec::new(alloc),
        }
    }

    /// Whether a number is in the set.
    pub(crate) fn contains(&self, number: usize) -> bool
        ensures { result ≡ has self.now number }
    {
        self.flags.get(number).copied().unwrap_or(false)
    }

    /// Makes room for a number.
    ///
    /// # Errors
    ///
    /// Memory was refused.
    #[tactic(auto, using(crate::proofs::NumberLemmas::room_same))]
    pub(crate) fn make_room(&mut self, number: usize) -> Result<(), AllocError>
        ensures room { OnOk result (number < length self.new.flags.items) }
        ensures same { (n : ℕ) → has self.new n ≡ has self.old n }
    {
        while self.flags.len() <= number {
            self.flags.push(false)?;
        }
        Ok(())
    }

    /// Puts a number into the set, for which there is room.
    pub(crate) fn insert(&mut self, number: usize)
        requires { number < length self.old.flags.items }
        ensures { (n : ℕ) → has self.new n ≡ ((number == n) || has self.old n) }
    {
        self.flags[number] = true;
    }
}
