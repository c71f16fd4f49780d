ghost use Rattle.std.specs.Prelude.{◌≡◌};
ghost use Rattle.cob_source.specs.declared.fault.SourceRule.TheVariants.{Memory};

use std::alloc::{AllocError, AllocFailed};
use std::fmt;
use thiserror::Error;

/// A rule of the reference format that a text breaks.
#[derive(Clone, Copy, Debug, PartialEq, Eq)]
pub enum SourceRule {
    /// T1: a byte outside 20 to 7E in columns 7 to 72 of a line that is no comment, and in no comment behind them.
    NotAscii,
    /// T2: a tab before column 73 of a line that is no comment, and in no comment.
    Tab,
    /// T3: a literal that is open at the end of a line that no continuation follows.
    OpenLiteral,
    /// T4: a continuation without a line before it, with something in columns 8 to 11, that doesn't begin with the quote of
    /// the literal it continues, or that begins with a quote behind a literal that ended in column 72.
    BadContinuation,
    /// T5: over `MAX_TEXT_BYTES` bytes; in free format also a line of over 255 characters.
    TooLong,
    /// T6: a character in column 7 that isn't a space, `*`, `/`, `-`, `D` or `d`, of a line that isn't for a compiler alone.
    UnknownIndicator,
    /// T9: memory was refused.
    Memory,
}

impl fmt::Display for SourceRule {
    fn fmt<W: fmt::Write>(&self, f: &mut fmt::Formatter<W>) -> fmt::Result {
        let code = match self {
            SourceRule::NotAscii => "T1",
            SourceRule::Tab => "T2",
            SourceRule::OpenLiteral => "T3",
            SourceRule::BadContinuation => "T4",
            SourceRule::TooLong => "T5",
            SourceRule::UnknownIndicator => "T6",
            SourceRule::Memory => "T9",
        };
        write!(f, "{code}")
    }
}

/// A rule that a text breaks, and the line that breaks it, from 1: line 1 for a text that is too long, 0 for memory.
#[derive(Clone, Copy, Debug, PartialEq, Eq, Error)]
#[error("{rule} line {line}")]
pub struct SourceFault {
    pub rule: SourceRule,
    pub line: u32,
}

impl From<AllocError> for SourceFault {
    ghost from_gives = { λ _ e. e ≡ record { rule = Memory; line = 0 } };

    fn from(_e: AllocError) -> SourceFault {
        SourceFault {
            rule: SourceRule::Memory,
            line: 0,
        }
    }
}

impl<T: Drop> From<AllocFailed<T>> for SourceFault {
    ghost from_gives = { λ _ e. e ≡ record { rule = Memory; line = 0 } };

    fn from(_e: AllocFailed<T>) -> SourceFault {
        SourceFault {
            rule: SourceRule::Memory,
            line: 0,
        }
    }
}
