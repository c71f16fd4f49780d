//! A part of a file of records of one length, of which the first ones are passed over at once.

ghost use Rattle.std.specs.Prelude.{◌≡◌, ◌-◌, ◌<◌, ◌≤◌, ℕ, List, length};
ghost use Rattle.cob_records_parts.specs.Parts.{IsBehindWhole, less_by, piece_of};

use crate::whole::whole_records;

/// A part of a file of records.
#[derive(Clone, Copy, PartialEq, Eq)]
pub struct StreamPart {
    /// How many bytes of the file stand before it.
    pub from: u64,
    /// How many bytes it has at most, where it isn't all that are left.
    pub bytes: Option<u64>,
    /// How many of its records are passed over.
    pub skip: u64,
}

/// What is left of so many bytes, where they are bounded, behind the first ones.
pub(crate) fn less_by(count: u64, bytes: Option<u64>) -> Option<u64>
    ensures { result ≡ less_by count bytes }
{
    match bytes {
        None => None,
        Some(bytes) => Some(bytes.saturating_sub(count)),
    }
}

impl StreamPart {
    /// How many bytes it has of a file of so many.
    fn size_in(self, size: u64) -> u64
        ensures size { (file : List ℕ) → length file ≡ size
            → length (piece_of self.from self.bytes file) ≡ result }
        ensures within { result ≤ size - self.from }
    {
        let left = size.saturating_sub(self.from);
        match self.bytes {
            None => left,
            Some(bytes) => left.min(bytes),
        }
    }

    /// The part behind the first whole records of this one, as many of them as are passed over, in a file of so many bytes whose records have one
    /// length. What is still passed over is not there.
    pub fn jumped(self, size: u64, greatest: u16) -> StreamPart
        requires { 0 < greatest }
        ensures { (file : List ℕ) → length file ≡ size → IsBehindWhole greatest self result file }
    {
        let whole = whole_records(self.skip, self.size_in(size), greatest);
        StreamPart {
            from: self.from + whole.bytes,
            bytes: less_by(whole.bytes, self.bytes),
            skip: self.skip - whole.records,
        }
    }
}
