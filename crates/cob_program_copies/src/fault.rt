//! Why copybooks are not handed over, and how that is told.

ghost use Rattle.std.specs.Prelude.{◌≡◌};
ghost use Rattle.cob_program_copies.specs.Handing.{status_of_handing, status_of_unhanded};
ghost use Rattle.cob_program_copies.specs.declared.fault.HandingFault.TheVariants.{Book};
ghost use Rattle.cob_program_copies.specs.declared.fault.BookRefusal.TheVariants.{Memory};
ghost use Rattle.cob_program_faults.specs.Ends.{EndsAs};

use crate::outputs::WrittenFile;
use cob_convert::Status;
use cob_program_faults::{CommandFault, FileName, printed, tell_fault};
use std::alloc::{AllocError, AllocFailed};
use std::io::Eprint;

/// Why a copybook that was read is not handed over.
#[derive(Drop)]
pub enum BookRefusal {
    /// It is refused, or a text that it copies: the words of the line that is told.
    Refused(String),
    /// A text that it copies is there, and a read of it failed: the words of the line that is told.
    NotRead(String),
    /// A file that the command writes holds a text that it copies: the option of the copybook, and which file it is.
    OneFile(FileName, WrittenFile),
    /// The option for exchanges says none.
    BadReplace,
    /// The option for tab stops says no number of columns.
    BadTabs,
    /// The option for the names of both records says none of its words.
    BadRecordsAs,
    /// Memory was refused.
    Memory,
}

impl From<AllocError> for BookRefusal {
    ghost from_gives = { λ _ e. e ≡ Memory };

    fn from(_refused: AllocError) -> BookRefusal {
        BookRefusal::Memory
    }
}

impl<T: Drop> From<AllocFailed<T>> for BookRefusal {
    ghost from_gives = { λ _ e. e ≡ Memory };

    fn from(_refused: AllocFailed<T>) -> BookRefusal {
        BookRefusal::Memory
    }
}

/// Why copybooks are not handed over.
#[derive(Drop)]
pub enum HandingFault {
    /// The file of a copybook is not read.
    File(CommandFault),
    /// A copybook that was read is not handed over.
    Book(BookRefusal),
}

impl From<BookRefusal> for HandingFault {
    ghost from_gives = { λ refusal e. e ≡ Book refusal };

    fn from(refusal: BookRefusal) -> HandingFault {
        HandingFault::Book(refusal)
    }
}

impl<T: Drop> From<AllocFailed<T>> for HandingFault {
    ghost from_gives = { λ _ e. e ≡ Book Memory };

    fn from(_refused: AllocFailed<T>) -> HandingFault {
        HandingFault::Book(BookRefusal::Memory)
    }
}

/// Prints why a copybook that was read is not handed over, and answers how the command ends.
fn tell_refusal<R: Eprint>(rt: &R, refusal: &BookRefusal) -> Status
    ensures { EndsAs (status_of_unhanded refusal.now) result }
{
    match refusal {
        BookRefusal::Refused(words) => printed(eprintln!(rt; "{words}"), Status::Refused),
        BookRefusal::NotRead(words) => printed(eprintln!(rt; "{words}"), Status::Device),
        BookRefusal::OneFile(book, output) => printed(
            eprintln!(rt; "a copy of {book} and {output} are one file"),
            Status::Malformed,
        ),
        BookRefusal::BadReplace => printed(eprintln!(rt; "bad replace"), Status::Malformed),
        BookRefusal::BadTabs => printed(eprintln!(rt; "bad tabs"), Status::Malformed),
        BookRefusal::BadRecordsAs => printed(eprintln!(rt; "bad records-as"), Status::Malformed),
        BookRefusal::Memory => printed(eprintln!(rt; "memory"), Status::Memory),
    }
}

/// Prints why copybooks are not handed over, and answers how the command ends.
pub fn tell_unhanded<R: Eprint>(rt: &R, fault: &HandingFault) -> Status
    ensures { EndsAs (status_of_handing fault.now) result }
{
    match fault {
        HandingFault::File(fault) => tell_fault(rt, *fault),
        HandingFault::Book(refusal) => tell_refusal(rt, refusal),
    }
}
