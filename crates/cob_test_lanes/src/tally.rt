//! What came of moves, with a sum of what the receivers hold.

/// What came of the moves between two kinds of items.
#[derive(Drop)]
pub struct Tally {
    moved: u32,
    no_number: u32,
    no_step: u32,
    sum: u64,
}

/// Adds a byte to a sum.
fn summed(sum: u64, byte: u8) -> u64 {
    (sum ^ u64::from(byte)).wrapping_mul(1_099_511_628_211)
}

impl Tally {
    /// Of no moves.
    pub fn new() -> Tally {
        Tally {
            moved: 0,
            no_number: 0,
            no_step: 0,
            sum: 14_695_981_039_346_656_037,
        }
    }

    /// Counts a move that was made or whose sender represented no number, and sums what the receiver holds.
    pub fn count(&mut self, moved: bool, bytes: &[u8]) {
        if moved {
            self.moved = self.moved.wrapping_add(1);
        } else {
            self.no_number = self.no_number.wrapping_add(1);
        }
        self.sum = summed(self.sum, moved as u8);
        for byte in bytes {
            self.sum = summed(self.sum, *byte);
        }
    }

    /// Counts a move that has no step.
    pub fn count_none(&mut self) {
        self.no_step = self.no_step.wrapping_add(1);
    }

    /// The moves that were made, those whose sender represented no number, those without a step, and the sum.
    pub fn parts(&self) -> (u32, u32, u32, u64) {
        (self.moved, self.no_number, self.no_step, self.sum)
    }
}
