//! The copybooks of a line.

ghost use Rattle.std.specs.Prelude.{IfSome};
ghost use Rattle.cob_program_copies.specs.Handing.{HasBooks};

use cob_program_line::Line;

// Where a command finds the copybooks that are handed over: no file can stand beneath this device.
/// Where it finds that of the input record.
pub const IN_BOOK: &str = "/dev/null/in-book";

/// Where it finds that of the output record.
pub const OUT_BOOK: &str = "/dev/null/out-book";

/// Where it finds that of a listing.
pub const LISTED_BOOK: &str = "/dev/null/book";

/// The files of the copybooks that a command reads.
#[derive(Clone, Copy)]
pub(crate) enum BookFiles<'a> {
    /// That of a listing.
    One(&'a str),
    /// Those of the input record and of the output record.
    Both(&'a str, &'a str),
}

/// A copybook that is handed over.
#[derive(Drop)]
pub struct HandedBook<'a> {
    /// Where its command finds it.
    pub found_at: &'static str,
    /// The file that it came from.
    pub path: &'a str,
    /// Its text.
    pub text: Vec<u8>,
}

/// The files of the copybooks that the command of a line reads, where it reads some.
pub(crate) fn books_of<'a>(line: &Line<'a>) -> Option<BookFiles<'a>>
    ensures { IfSome result (λ _. HasBooks line.now) }
{
    match line {
        Line::Job | Line::Completion | Line::Manual => None,
        Line::Layout(line) => Some(BookFiles::One(line.book)),
        Line::Show(line) => Some(BookFiles::One(line.book)),
        Line::Compare(line) => Some(BookFiles::One(line.book)),
        Line::Pieces(line) => Some(BookFiles::One(line.book)),
        Line::Convert(line) => Some(BookFiles::Both(line.texts.in_book, line.texts.out_book)),
        Line::Check(line) => Some(BookFiles::Both(line.texts.in_book, line.texts.out_book)),
        Line::Explain(line) => Some(BookFiles::Both(line.texts.in_book, line.texts.out_book)),
        Line::Map(line) => Some(BookFiles::Both(line.texts.in_book, line.texts.out_book)),
        Line::Lossless(line) => Some(BookFiles::Both(line.in_book, line.out_book)),
        Line::Draft(line) => Some(BookFiles::Both(line.in_book, line.out_book)),
    }
}
