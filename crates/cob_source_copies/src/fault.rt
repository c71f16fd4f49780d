//! Rules of COPY, and faults.

ghost use Rattle.std.specs.Prelude.{◌≡◌, ◌≢◌};
ghost use Rattle.cob_source_copies.specs.declared.fault.CopyRule.TheVariants.{Memory};

use std::alloc::{AllocError, AllocFailed};
use std::fmt;
use thiserror::Error;

/// A rule of COPY that a text breaks.
#[derive(Clone, Copy, Debug, PartialEq, Eq)]
pub enum CopyRule {
    /// C1: the words behind COPY are no statement.
    Statement,
    /// C2: no text has the name.
    Unknown,
    /// C3: REPLACING in a text that holds a COPY statement itself.
    Nested,
    /// C4: over `MAX_COPIED_WORDS` words are copied.
    TooMany,
    /// C9: memory was refused.
    Memory,
}

impl CopyRule {
    /// The fault of a word COPY on this line; memory has line 0.
    pub fn on(self, line: u32) -> CopyFault
        ensures rule { result.rule ≡ self }
        ensures memory { self ≡ Memory → result.line ≡ 0 }
        ensures line { self ≢ Memory → result.line ≡ line }
    {
        let is_memory = matches!(self, CopyRule::Memory);
        let line = if is_memory { 0 } else { line };
        CopyFault { rule: self, line }
    }
}

impl fmt::Display for CopyRule {
    fn fmt<W: fmt::Write>(&self, f: &mut fmt::Formatter<W>) -> fmt::Result {
        let code = match self {
            CopyRule::Statement => "C1",
            CopyRule::Unknown => "C2",
            CopyRule::Nested => "C3",
            CopyRule::TooMany => "C4",
            CopyRule::Memory => "C9",
        };
        write!(f, "{code}")
    }
}

impl From<AllocError> for CopyRule {
    ghost from_gives = { λ _ r. r ≡ Memory };

    fn from(_refused: AllocError) -> CopyRule {
        CopyRule::Memory
    }
}

impl<T: Drop> From<AllocFailed<T>> for CopyRule {
    ghost from_gives = { λ _ r. r ≡ Memory };

    fn from(_refused: AllocFailed<T>) -> CopyRule {
        CopyRule::Memory
    }
}

/// A rule that a text breaks, and the line of the word COPY that breaks it: 0 for memory.
#[derive(Clone, Copy, Debug, PartialEq, Eq, Error)]
#[error("{rule} line {line}")]
pub struct CopyFault {
    pub rule: CopyRule,
    pub line: u32,
}

impl From<AllocError> for CopyFault {
    ghost from_gives = { λ _ e. e ≡ record { rule = Memory; line = 0 } };

    fn from(_e: AllocError) -> CopyFault {
        CopyFault {
            rule: CopyRule::Memory,
            line: 0,
        }
    }
}

impl<T: Drop> From<AllocFailed<T>> for CopyFault {
    ghost from_gives = { λ _ e. e ≡ record { rule = Memory; line = 0 } };

    fn from(_e: AllocFailed<T>) -> CopyFault {
        CopyFault {
            rule: CopyRule::Memory,
            line: 0,
        }
    }
}
