ghost use Rattle.std.specs.Prelude.{◌≡◌};
ghost use Rattle.cob_program_line.specs.Faults.{is_answer, words_fault};
ghost use Rattle.cob_program_line.specs.declared.fault.LineFault.TheVariants.{Memory};

use clap::error::ErrorKind;
use std::alloc::AllocError;
use std::io;
use std::io::{Eprint, Print};
use thiserror::Error;

/// Why the words are no command line.
#[derive(Debug, Drop, Error)]
pub enum LineFault {
    /// The words are wrong, or ask for help or the version: what to print, and whether it is a fault, `clap` says.
    #[error("{0}")]
    Words(clap::Error),
    /// A form of records that is none of f, v and b.
    #[error("bad form")]
    Form,
    /// A reading of binary items that is neither pictured nor whole, or one of zones that is neither strict nor any.
    #[error("bad reading")]
    Reading,
    /// A greatest size of blocks that is no number of one to five digits from 8 to 32,760.
    #[error("bad block")]
    Block,
    /// A piece of the input whose offset, length or number of a record is none.
    #[error("bad piece")]
    Piece,
    /// A number of records that are passed over, taken or set aside that is none.
    #[error("bad number")]
    Number,
    /// A number of pieces that is none, or 0.
    #[error("bad pieces")]
    Pieces,
    /// A listing of values that is none of text, json and csv.
    #[error("bad listing")]
    Listing,
    /// A record length of the input that is none, or 0.
    #[error("bad lrecl")]
    Lrecl,
    /// A measure of a comparison that is neither value nor bytes.
    #[error("bad measure")]
    Measure,
    /// A word is no text in UTF-8, so that no option can take it.
    #[error("a word is not text in UTF-8")]
    NotText,
    /// Memory was refused.
    #[error("memory")]
    Memory,
}

impl From<AllocError> for LineFault {
    ghost from_gives = { λ _ fault. fault ≡ Memory };

    fn from(_: AllocError) -> LineFault {
        LineFault::Memory
    }
}

impl From<clap::Error> for LineFault {
    ghost from_gives = { λ error fault. fault ≡ words_fault error };

    fn from(error: clap::Error) -> LineFault {
        match error.kind() {
            ErrorKind::OutOfMemory => LineFault::Memory,
            _ => LineFault::Words(error),
        }
    }
}

impl LineFault {
    /// Whether it is no fault, but the help or the version that the words ask for.
    pub fn is_answer(&self) -> bool
        ensures { result ≡ is_answer self.now }
    {
        match self {
            LineFault::Words(error) => !error.use_stderr(),
            LineFault::Form
            | LineFault::Reading
            | LineFault::Block
            | LineFault::Piece
            | LineFault::Number
            | LineFault::Pieces
            | LineFault::Listing
            | LineFault::Lrecl
            | LineFault::Measure
            | LineFault::NotText
            | LineFault::Memory => false,
        }
    }

    /// Prints help and the version on standard output, and a fault on standard error.
    pub fn print<R: Print + Eprint>(&self, rt: &R) -> io::Result<()> {
        match self {
            LineFault::Words(error) => error.print(rt),
            fault => eprintln!(rt; "{fault}"),
        }
    }
}
