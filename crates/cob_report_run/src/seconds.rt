//! A time as it is told.

use std::fmt;

/// Milliseconds, told in seconds.
#[derive(Clone, Copy)]
pub(crate) struct Seconds {
    pub(crate) milliseconds: u64,
}

impl fmt::Display for Seconds {
    fn fmt<W: fmt::Write>(&self, f: &mut fmt::Formatter<W>) -> fmt::Result {
        let whole = self.milliseconds / 1_000;
        let rest = self.milliseconds % 1_000;
        write!(f, "{whole}.{rest:03}")
    }
}
