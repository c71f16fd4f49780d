//! Why no text is made of a copybook's words.

ghost use Rattle.std.specs.Prelude.{◌≡◌};
ghost use Rattle.cob_copybook_text.specs.declared.fault.RecordTextFault.TheVariants.{Memory};

use cob_copybook_record::NoRecord;
use cob_source_copies::CopyFault;
use std::alloc::{AllocError, AllocFailed};

/// Why no text is made of a copybook's words.
#[derive(Clone, Copy, Debug, PartialEq, Eq)]
pub enum RecordTextFault {
    /// They break a rule of COPY, on this line as it is counted on.
    Copy(CopyFault),
    /// They have no record of the name.
    Record(NoRecord),
    /// What they come to has no room in one text.
    TooLong,
    /// Memory was refused.
    Memory,
}

impl From<AllocError> for RecordTextFault {
    ghost from_gives = { λ _ e. e ≡ Memory };

    fn from(_refused: AllocError) -> RecordTextFault {
        RecordTextFault::Memory
    }
}

impl<T: Drop> From<AllocFailed<T>> for RecordTextFault {
    ghost from_gives = { λ _ e. e ≡ Memory };

    fn from(_refused: AllocFailed<T>) -> RecordTextFault {
        RecordTextFault::Memory
    }
}
