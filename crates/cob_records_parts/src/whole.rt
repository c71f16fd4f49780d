//! Records of one length that are passed over at once.

ghost use Rattle.std.specs.Prelude.{◌≡◌, ℕ, ◌+◌, ◌*◌, ◌<◌, ◌≤◌, List, length};
ghost use Rattle.cob_records_parts.specs.Choices.{AreInFront};

/// Whole records, and how many bytes they have.
#[derive(Clone, Copy, PartialEq, Eq)]
pub(crate) struct Whole {
    pub(crate) records: u64,
    pub(crate) bytes: u64,
}

/// The first whole records of so many bytes, where each has the same length, `skip` of them at most.
pub(crate) fn whole_records(skip: u64, size: u64, greatest: u16) -> Whole
    requires { 0 < greatest }
    ensures few { result.records ≤ skip }
    ensures bytes { result.bytes ≡ result.records * greatest }
    ensures within { result.bytes ≤ size }
    ensures most { result.records < skip → size < result.bytes + greatest }
    ensures front { (bytes : List ℕ) → length bytes ≡ size
        → AreInFront greatest result.records result.bytes bytes }
{
    let records = skip.min(size / u64::from(greatest));
    Whole {
        records,
        bytes: records * u64::from(greatest),
    }
}
