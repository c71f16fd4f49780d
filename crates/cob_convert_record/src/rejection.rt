//! Why a record that came whole becomes nothing.

use cob_convert_stream::Reason;
use cob_move_apply::Stop;

/// Why an input record that came whole has no output record.
#[derive(Clone, Copy, PartialEq, Eq)]
pub enum Rejection {
    /// It isn't one of the input layout.
    Misfit(Reason),
    /// It is one, and its conversion stops.
    Stopped(Stop),
}
