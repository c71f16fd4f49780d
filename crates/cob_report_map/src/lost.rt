//! What single moves may lose, as it is marked.

use cob_back_losses::Losses;
use std::fmt;

/// What single moves that join the same may lose: digits, characters or a sign, and the description of bytes.
#[derive(Clone, Copy)]
pub struct Lost {
    pub losses: Losses,
    pub description: bool,
}

impl Lost {
    /// Whether nothing may be lost.
    pub(crate) fn is_nothing(self) -> bool {
        self.losses.are_none() && !self.description
    }
}

impl fmt::Display for Lost {
    fn fmt<W: fmt::Write>(&self, f: &mut fmt::Formatter<W>) -> fmt::Result {
        write!(f, "{}", self.losses)?;
        if !self.description {
            return Ok(());
        }
        if !self.losses.are_none() {
            write!(f, ", ")?;
        }
        write!(f, "the description")
    }
}
