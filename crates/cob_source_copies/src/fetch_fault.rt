//! Why a text is not fetched.

ghost use Rattle.std.specs.Prelude.{◌≡◌};
ghost use Rattle.cob_source_copies.specs.declared.fetch_fault.FetchFault.TheVariants.{Memory};

use crate::fault::CopyFault;
use crate::name::TextName;
use cob_source::SourceFault;
use std::alloc::{AllocError, AllocFailed};

/// Why a shelf gives no answer.
#[derive(Clone, Copy, Debug, PartialEq, Eq)]
pub enum ShelfFault {
    /// The text is there, and can't be read.
    Unreadable,
    /// Memory was refused.
    Memory,
}

/// Why the texts that words copy are not fetched, with the name of the text.
#[derive(Drop)]
pub enum FetchFault {
    /// The text breaks a rule of the reference format, on this line of it.
    Source(TextName, SourceFault),
    /// The text breaks a rule of COPY, on this line as it is counted on.
    Copy(TextName, CopyFault),
    /// No text has the name.
    Unknown(TextName),
    /// The text copies itself, or one that copies it does.
    WithinItself(TextName),
    /// The text stands within `MAX_COPY_DEPTH` others.
    TooDeep(TextName),
    /// There are `MAX_COPIED_TEXTS` others.
    TooManyTexts(TextName),
    /// The shelf gives no answer.
    Shelf(TextName, ShelfFault),
    /// Memory was refused.
    Memory,
}

impl From<AllocError> for FetchFault {
    ghost from_gives = { λ _ e. e ≡ Memory };

    fn from(_refused: AllocError) -> FetchFault {
        FetchFault::Memory
    }
}

impl<T: Drop> From<AllocFailed<T>> for FetchFault {
    ghost from_gives = { λ _ e. e ≡ Memory };

    fn from(_refused: AllocFailed<T>) -> FetchFault {
        FetchFault::Memory
    }
}
