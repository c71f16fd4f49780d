//! Why texts are refused, behind the line that says so.

use cob_convert::Status;
use cob_copybook::Role;
use cob_program_copies::{HandedBook, IN_BOOK, OUT_BOOK};
use cob_program_explained::can_be_read_again;
use cob_program_faults::{read_text, tells_a_person};
use cob_program_line::{Line, LosslessLine};
use cob_program_texts::paragraph_refusals;
use cob_report_refusal_words::{Blocks, RefusedBook, RefusedMoves, book_blocks, moves_blocks};
use std::alloc::{AllocError, Global};
use std::io::Eprint;
use std::rt::Files;

/// The most refusals that are told.
const MOST: u32 = 20;

/// The option that names a copybook, as it is told.
fn option_of(book: &HandedBook<'_>) -> &'static str {
    if book.found_at == IN_BOOK {
        "in-book"
    } else if book.found_at == OUT_BOOK {
        "out-book"
    } else {
        "book"
    }
}

/// The option that chooses one of several records in a copybook, as it is told.
fn record_option_of(book: &HandedBook<'_>) -> &'static str {
    if book.found_at == IN_BOOK {
        "in-record"
    } else if book.found_at == OUT_BOOK {
        "out-record"
    } else {
        "record-name"
    }
}

/// A copybook as its blocks tell it.
fn refused_book<'a>(book: &'a HandedBook<'a>) -> RefusedBook<'a> {
    RefusedBook {
        file: book.path,
        role: if book.found_at == OUT_BOOK {
            Role::Out
        } else {
            Role::In
        },
        record_option: record_option_of(book),
        text: book.text.as_slice(),
    }
}

/// How many refusals there are of all texts, with those of each that has some.
#[derive(Drop)]
struct Counted {
    /// How many there are.
    all: u32,
    /// Each option with its number.
    each: String,
}

/// Counts the refusals of one more text.
fn count(
    alloc: Global,
    counted: &mut Counted,
    option: &str,
    number: u32,
) -> Result<(), AllocError> {
    if number == 0 {
        return Ok(());
    }
    let behind = if counted.each.is_empty() { "" } else { ", " };
    let own = format!(in alloc; "{behind}{option} {number}")?;
    counted.each.push_str(&own)?;
    counted.all = counted.all.saturating_add(number);
    Ok(())
}

/// The last line of what is told, where more than one refusal is.
fn count_line(alloc: Global, counted: &Counted) -> Result<String, AllocError> {
    let Counted { all, each } = counted;
    if *all > MOST {
        return format!(in alloc; "{MOST} of {all} refusals told: {each}\n");
    }
    if *all > 1 {
        return format!(in alloc; "{all} refusals: {each}\n");
    }
    Ok(String::new(alloc))
}

/// Why copybooks are refused, a block for each refusal.
fn book_words(alloc: Global, books: &[HandedBook<'_>]) -> Result<String, AllocError> {
    let mut text = String::new(alloc);
    let mut counted = Counted {
        all: 0,
        each: String::new(alloc),
    };
    for book in books {
        let left = MOST.saturating_sub(counted.all);
        let Blocks {
            text: own,
            count: number,
        } = book_blocks(alloc, refused_book(book), left)?;
        text.push_str(&own)?;
        count(alloc, &mut counted, option_of(book), number)?;
    }
    text.push_str(&count_line(alloc, &counted)?)?;
    Ok(text)
}

/// Why the paragraph that an option names is refused between the records of two copybooks, a block for each refusal.
fn paragraph_blocks(
    alloc: Global,
    option: &str,
    moves: RefusedMoves<'_>,
) -> Result<String, AllocError> {
    let refusals = paragraph_refusals(alloc, moves.in_book, moves.out_book, moves.text)?;
    let Blocks {
        text: own,
        count: number,
    } = moves_blocks(alloc, moves, refusals.as_slice(), MOST)?;
    let mut counted = Counted {
        all: 0,
        each: String::new(alloc),
    };
    count(alloc, &mut counted, option, number)?;
    let mut text = own;
    text.push_str(&count_line(alloc, &counted)?)?;
    Ok(text)
}

/// Why the paragraph in a file is refused between the records of two copybooks, where it is and the file can be read once more.
fn moves_words<R: AllocGlobal + Files>(
    rt: &R,
    in_book: &[u8],
    out_book: &[u8],
    option: &str,
    path: &str,
) -> Result<String, AllocError> {
    if !can_be_read_again(rt, path) {
        return Ok(String::new(rt.alloc()));
    }
    let Ok(text) = read_text(rt, path) else {
        return Ok(String::new(rt.alloc()));
    };
    let moves = RefusedMoves {
        file: path,
        text: &text,
        in_book,
        out_book,
    };
    paragraph_blocks(rt.alloc(), option, moves)
}

/// Why a paragraph there is refused, or one back.
fn words_of_both<R: AllocGlobal + Files>(
    rt: &R,
    in_book: &[u8],
    out_book: &[u8],
    line: &LosslessLine<'_>,
) -> Result<String, AllocError> {
    let there = moves_words(rt, in_book, out_book, "there", line.there)?;
    if there.is_empty() {
        return moves_words(rt, out_book, in_book, "back", line.back);
    }
    Ok(there)
}

/// Why the paragraph of a line is refused, where its copybooks are none that are.
fn paragraph_words<R: AllocGlobal + Files>(
    rt: &R,
    line: &Line<'_>,
    books: &[HandedBook<'_>],
) -> Result<String, AllocError> {
    let (Some(input), Some(output)) = (books.first(), books.get(1)) else {
        return Ok(String::new(rt.alloc()));
    };
    let in_book = input.text.as_slice();
    let out_book = output.text.as_slice();
    match line {
        Line::Convert(line) => moves_words(rt, in_book, out_book, "moves", line.texts.moves),
        Line::Check(line) => moves_words(rt, in_book, out_book, "moves", line.texts.moves),
        Line::Explain(line) => moves_words(rt, in_book, out_book, "moves", line.texts.moves),
        Line::Map(line) => moves_words(rt, in_book, out_book, "moves", line.texts.moves),
        Line::Lossless(line) => words_of_both(rt, in_book, out_book, line),
        _ => Ok(String::new(rt.alloc())),
    }
}

/// Why a text of a line is refused: the copybooks that are, or else the paragraph.
fn refusal_words<R: AllocGlobal + Files>(
    rt: &R,
    line: &Line<'_>,
    books: &[HandedBook<'_>],
) -> Result<String, AllocError> {
    let words = book_words(rt.alloc(), books)?;
    if words.is_empty() {
        return paragraph_words(rt, line, books);
    }
    Ok(words)
}

/// Whether it is told in words why a text is refused: where that is asked for, or a person reads it.
pub(crate) fn tells_in_words<R: Files>(rt: &R, explain: bool) -> bool {
    explain || tells_a_person(rt)
}

/// Prints behind a command that ended so why a text is refused, where one is, if that is asked for or a person reads it. Where that can't be printed, or no
/// memory is left for it, the fault line stands alone.
pub(crate) fn tell_refused<R: AllocGlobal + Files + Eprint>(
    rt: &R,
    line: &Line<'_>,
    books: &[HandedBook<'_>],
    explain: bool,
    code: u8,
) {
    if code != Status::Refused.code() || !tells_in_words(rt, explain) {
        return;
    }
    if let Ok(words) = refusal_words(rt, line, books) {
        let _ = eprint!(rt; "{words}");
    }
}
