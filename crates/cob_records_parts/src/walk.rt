//! How far a stream of records has come.

ghost use Rattle.std.specs.Prelude.{◌≡◌, ◌<◌, ◌≤◌};
ghost use Rattle.cob_limits.specs.Limits.{longest_record};
ghost use Rattle.cob_records.specs.Forms.{HasBlockSize};

use cob_records::Form;

/// How far a stream of records has come, of which some are chosen.
#[derive(Clone, Copy)]
pub(crate) struct Walk {
    /// How the records stand.
    pub(crate) form: Form,
    /// The greatest length of a record.
    pub(crate) greatest: u16,
    /// How many records are passed over.
    pub(crate) skip: u64,
    /// The number of the last record that is chosen.
    pub(crate) last: u64,
    /// How many records have come.
    pub(crate) number: u64,
    /// What the open block still holds.
    pub(crate) left: u16,
    ghost block: { HasBlockSize form },
    ghost low: { 0 < greatest },
    ghost high: { greatest ≤ longest_record },
    ghost order: { skip ≤ last },
    ghost within: { number ≤ last },
}
