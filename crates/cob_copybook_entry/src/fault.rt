//! Rules of copybooks, and faults.

ghost use Rattle.std.specs.Prelude.{◌≡◌, ◌≢◌};
ghost use Rattle.cob_copybook_entry.specs.declared.fault.BookRule.TheVariants.{Memory};
ghost use Rattle.cob_copybook_entry.specs.Faults.{from_source};

use arrayvec::ArrayString;
use cob_picture::PictureFault;
use cob_source::{SourceFault, SourceRule};
use std::alloc::{AllocError, AllocFailed};
use std::fmt;
use thiserror::Error;

/// The most characters of a word that is left out by name.
pub const MAX_WORD: usize = 20;

/// A rule of copybooks that a text breaks.
#[derive(Clone, Copy, Debug, PartialEq, Eq)]
pub enum BookRule {
    /// A rule of the reference format, T1 to T6; a reader of words that was refused memory is told as `Memory`.
    Source(SourceRule),
    /// B1: no data entry.
    NoEntry,
    /// B2: the grammar of entries.
    Grammar,
    /// B3: level numbers, and items and groups.
    Level,
    /// B4: a picture, with its fault.
    Picture(PictureFault),
    /// B5: USAGE.
    Usage,
    /// B6: SIGN.
    Sign,
    /// B7: REDEFINES.
    Redefinition,
    /// B8: OCCURS.
    Table,
    /// B9: DEPENDING ON.
    Count,
    /// B10: VALUE.
    Value,
    /// B11: JUSTIFIED and BLANK WHEN ZERO.
    Placement,
    /// B12: a word or a level that is left out by name.
    LeftOut(ArrayString<MAX_WORD>),
    /// B13: a name that isn't one, or is reserved.
    Name,
    /// B14: a record of over 32,752 bytes.
    TooLong,
    /// B15: over 2,000 entries.
    TooMany,
    /// B19: memory was refused.
    Memory,
}

impl BookRule {
    /// The fault of an entry that begins on this line; memory has line 0.
    pub fn on(self, line: u32) -> BookFault
        ensures rule { result.rule ≡ self }
        ensures memory { self ≡ Memory → result.line ≡ 0 }
        ensures line { self ≢ Memory → result.line ≡ line }
    {
        let is_memory = matches!(self, BookRule::Memory);
        let line = if is_memory { 0 } else { line };
        BookFault { rule: self, line }
    }
}

impl fmt::Display for BookRule {
    fn fmt<W: fmt::Write>(&self, f: &mut fmt::Formatter<W>) -> fmt::Result {
        match self {
            BookRule::Source(rule) => write!(f, "{rule}"),
            BookRule::NoEntry => write!(f, "B1"),
            BookRule::Grammar => write!(f, "B2"),
            BookRule::Level => write!(f, "B3"),
            BookRule::Picture(fault) => write!(f, "B4 {fault}"),
            BookRule::Usage => write!(f, "B5"),
            BookRule::Sign => write!(f, "B6"),
            BookRule::Redefinition => write!(f, "B7"),
            BookRule::Table => write!(f, "B8"),
            BookRule::Count => write!(f, "B9"),
            BookRule::Value => write!(f, "B10"),
            BookRule::Placement => write!(f, "B11"),
            BookRule::LeftOut(word) => write!(f, "B12 {word}"),
            BookRule::Name => write!(f, "B13"),
            BookRule::TooLong => write!(f, "B14"),
            BookRule::TooMany => write!(f, "B15"),
            BookRule::Memory => write!(f, "B19"),
        }
    }
}

impl From<AllocError> for BookRule {
    ghost from_gives = { λ _ r. r ≡ Memory };

    fn from(_refused: AllocError) -> BookRule {
        BookRule::Memory
    }
}

impl<T: Drop> From<AllocFailed<T>> for BookRule {
    ghost from_gives = { λ _ r. r ≡ Memory };

    fn from(_refused: AllocFailed<T>) -> BookRule {
        BookRule::Memory
    }
}

/// A rule that a text breaks, and the line of the entry that breaks it, from 1: line 0 for memory.
#[derive(Clone, Copy, Debug, PartialEq, Eq, Error)]
#[error("{rule} line {line}")]
pub struct BookFault {
    pub rule: BookRule,
    pub line: u32,
}

impl From<SourceFault> for BookFault {
    ghost from_gives = { λ f e. e ≡ from_source f };

    fn from(fault: SourceFault) -> BookFault {
        match fault.rule {
            SourceRule::Memory => BookFault {
                rule: BookRule::Memory,
                line: 0,
            },
            rule => BookFault {
                rule: BookRule::Source(rule),
                line: fault.line,
            },
        }
    }
}

impl From<AllocError> for BookFault {
    ghost from_gives = { λ _ e. e ≡ record { rule = Memory; line = 0 } };

    fn from(_e: AllocError) -> BookFault {
        BookFault {
            rule: BookRule::Memory,
            line: 0,
        }
    }
}

impl<T: Drop> From<AllocFailed<T>> for BookFault {
    ghost from_gives = { λ _ e. e ≡ record { rule = Memory; line = 0 } };

    fn from(_e: AllocFailed<T>) -> BookFault {
        BookFault {
            rule: BookRule::Memory,
            line: 0,
        }
    }
}
