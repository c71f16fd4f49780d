//! The single moves that may lose digits, characters or a sign, as they are told.

use crate::elements::write_pictured;
use cob_back_losses::Losses;
use cob_back_moves::BothLayouts;
use cob_move_data::Sent;
use cob_report_lossless::LinedSingle;
use std::fmt;

/// A single move that may lose something.
#[derive(Clone, Copy)]
pub(crate) struct Losing<'a> {
    pub(crate) layouts: BothLayouts<'a>,
    pub(crate) single: LinedSingle<'a>,
    pub(crate) losses: Losses,
}

impl fmt::Display for Losing<'_> {
    fn fmt<W: fmt::Write>(&self, f: &mut fmt::Formatter<W>) -> fmt::Result {
        let LinedSingle {
            line,
            sent,
            receiver,
        } = &self.single;
        write!(f, "may lose {}, line {line}: ", self.losses)?;
        match sent {
            Sent::Constant(_) => write!(f, "a literal")?,
            Sent::Entry { side, entry } => {
                write_pictured(f, self.layouts.of(*side), *entry, ",")?;
            }
        }
        write!(f, " to ")?;
        write_pictured(f, self.layouts.output, *receiver, "")
    }
}
