//! Figures of twenty jobs.

/// In how many jobs each call gave what was asked, how many records came, and the sum over all bytes that were written.
#[derive(Clone, Copy)]
pub(crate) struct Figures {
    pub(crate) ok: u64,
    pub(crate) records: u64,
    pub(crate) sum: u64,
}

impl Figures {
    /// Nothing yet.
    pub(crate) fn new() -> Figures {
        Figures {
            ok: 0,
            records: 0,
            sum: 0,
        }
    }

    /// Adds bytes that were written to the sum.
    pub(crate) fn add(&mut self, written: &[u8]) {
        for byte in written {
            self.sum = self
                .sum
                .wrapping_mul(1_099_511_628_211)
                .wrapping_add(u64::from(*byte));
        }
    }
}
