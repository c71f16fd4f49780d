//! Lines whose copybooks are handed over.

ghost use Rattle.std.specs.Prelude.{ℕ};
ghost use Rattle.cob_program_line.specs.Lines.{HasBlocks};
ghost use Rattle.cob_program_commands.specs.Commands.{IsEndOfLine};

use cob_program_copies::{IN_BOOK, LISTED_BOOK, OUT_BOOK};
use cob_program_line::{
    CheckLine, CompareLine, ConvertLine, DraftLine, ExplainLine, LayoutLine, Line, LosslessLine,
    MapLine, PiecesLine, ShowLine, TextFiles,
};

/// The files of three texts, whose copybooks are handed over.
fn handed_texts(texts: TextFiles<'_>) -> TextFiles<'_> {
    TextFiles {
        in_book: IN_BOOK,
        out_book: OUT_BOOK,
        moves: texts.moves,
    }
}

/// A line as it was, but that its command finds the copybooks where they are handed over. It ends in the same ways.
pub(crate) fn with_handed_books<'a>(line: &Line<'a>) -> Line<'a>
    requires { HasBlocks line.now }
    ensures blocks { HasBlocks result }
    ensures ends { (code : ℕ) → IsEndOfLine result code → IsEndOfLine line.now code }
{
    match line {
        Line::Convert(line) => Line::Convert(ConvertLine {
            texts: handed_texts(line.texts),
            ..*line
        }),
        Line::Check(line) => Line::Check(CheckLine {
            texts: handed_texts(line.texts),
            ..*line
        }),
        Line::Explain(line) => Line::Explain(ExplainLine {
            texts: handed_texts(line.texts),
            ..*line
        }),
        Line::Map(line) => Line::Map(MapLine {
            texts: handed_texts(line.texts),
            ..*line
        }),
        Line::Lossless(line) => Line::Lossless(LosslessLine {
            in_book: IN_BOOK,
            out_book: OUT_BOOK,
            ..*line
        }),
        Line::Draft(line) => Line::Draft(DraftLine {
            in_book: IN_BOOK,
            out_book: OUT_BOOK,
            ..*line
        }),
        Line::Layout(_) => Line::Layout(LayoutLine { book: LISTED_BOOK }),
        Line::Show(line) => Line::Show(ShowLine {
            book: LISTED_BOOK,
            ..*line
        }),
        Line::Compare(line) => Line::Compare(CompareLine {
            book: LISTED_BOOK,
            ..*line
        }),
        Line::Pieces(line) => Line::Pieces(PiecesLine {
            book: LISTED_BOOK,
            ..*line
        }),
        Line::Job => Line::Job,
        Line::Completion => Line::Completion,
        Line::Manual => Line::Manual,
    }
}
