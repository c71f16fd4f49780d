//! The lists of what a paragraph leaves open, as text.

use crate::items::{marks_at, push_items, run_end};
use crate::marks::{bytes_covered, bytes_taken};
use crate::occurrences::{PlacedOccurrence, occurrences_of};
use crate::open_moves::push_open_moves;
use cob_back_moves::MovesBetween;
use cob_copybook_tree::Node;
use cob_layout::{Layout, Place};
use cob_report_lossless::LinedMoves;
use cob_report_words::NamedOccurrence;
use std::alloc::{AllocError, Global};
use std::fmt;

/// So many bytes, in words.
#[derive(Clone, Copy)]
struct Bytes {
    count: usize,
}

impl fmt::Display for Bytes {
    fn fmt<W: fmt::Write>(&self, f: &mut fmt::Formatter<W>) -> fmt::Result {
        match self.count {
            1 => write!(f, "1 byte"),
            count => write!(f, "{count} bytes"),
        }
    }
}

/// What is said of bytes that are not covered and stand behind a table that varies.
const SHIFTED: &str = ", behind a table that varies: it holds what the greatest counts put there";

/// A record, of whose bytes it is marked which are covered or taken, the words for those that are not, and what is said of them behind a table that
/// varies.
#[derive(Clone, Copy)]
struct Marked<'a> {
    words: &'static str,
    shifted: &'static str,
    layout: &'a Layout,
    marks: &'a [bool],
}

impl Marked<'_> {
    /// The marks of the bytes of a place.
    fn at(&self, place: Place) -> &[bool] {
        marks_at(self.marks, place.offset, place.length)
    }

    /// Whether no byte of a place is marked.
    fn is_open(&self, place: Place) -> bool {
        self.at(place).iter().all(|mark| !*mark)
    }

    /// What is said of an occurrence that stands behind a table that varies; nothing of others.
    fn tail(&self, occurrence: &PlacedOccurrence) -> &'static str {
        if self.shifted.is_empty() || occurrence.is_steady(self.layout) {
            ""
        } else {
            self.shifted
        }
    }

    /// How many bytes of a place are not marked.
    fn open_bytes(&self, place: Place) -> usize {
        self.at(place).iter().filter(|mark| !**mark).count()
    }
}

/// Bytes of an occurrence, from an offset of the record on.
#[derive(Clone, Copy)]
struct ByteRun {
    offset: usize,
    count: usize,
}

/// Adds a line that tells bytes of an occurrence.
fn push_bytes(
    alloc: Global,
    record: &Marked<'_>,
    occurrence: &PlacedOccurrence,
    run: ByteRun,
    text: &mut String,
) -> Result<(), AllocError> {
    let words = record.words;
    let named = occurrence.named(record.layout);
    let bytes = Bytes { count: run.count };
    let offset = run.offset;
    let tail = record.tail(occurrence);
    let line = format!(in alloc; "{words} {named}: {bytes} at {offset}{tail}\n")?;
    text.push_str(&line)?;
    Ok(())
}

/// The first and the last of several occurrences of which no byte is marked.
#[derive(Clone, Copy)]
struct WhollyOpen<'a> {
    first: &'a PlacedOccurrence,
    last: &'a PlacedOccurrence,
}

/// Adds a line that tells the bytes of all elements of an item.
fn push_elements(
    alloc: Global,
    record: &Marked<'_>,
    item: &Node,
    open: WhollyOpen<'_>,
    times: usize,
    text: &mut String,
) -> Result<(), AllocError> {
    let words = record.words;
    let named = NamedOccurrence::new(record.layout.root(), item.number, &[]);
    let Place { offset, length } = open.first.place;
    let bytes = Bytes {
        count: length as usize,
    };
    // Where the elements do not stay, the last one does not.
    let tail = record.tail(open.last);
    let line = format!(in alloc;
        "{words} {named}: {bytes} at {offset}, and so each of {times} elements{tail}\n"
    )?;
    text.push_str(&line)?;
    Ok(())
}

/// Several occurrences, where no byte of them is marked.
fn wholly_open<'a>(
    record: &Marked<'_>,
    occurrences: &'a [PlacedOccurrence],
) -> Option<WhollyOpen<'a>> {
    let (first, others) = occurrences.split_first()?;
    let last = others.last()?;
    for occurrence in occurrences {
        if !record.is_open(occurrence.place) {
            return None;
        }
    }
    Some(WhollyOpen { first, last })
}

/// Adds a line for each run of bytes of an occurrence that are not marked.
fn push_runs(
    alloc: Global,
    record: &Marked<'_>,
    occurrence: &PlacedOccurrence,
    text: &mut String,
) -> Result<(), AllocError> {
    let marks = record.at(occurrence.place);
    let front = occurrence.place.offset as usize;
    let mut from = 0;
    for _ in 0..marks.len() {
        let start = run_end(marks, from, true);
        if start == marks.len() {
            break;
        }
        from = run_end(marks, start, false);
        let run = ByteRun {
            offset: front.saturating_add(start),
            count: from - start,
        };
        push_bytes(alloc, record, occurrence, run, text)?;
    }
    Ok(())
}

/// Adds the lines of what of an item of the output record is not covered.
fn push_open_item(
    alloc: Global,
    record: &Marked<'_>,
    item: &Node,
    occurrences: &[PlacedOccurrence],
    text: &mut String,
) -> Result<(), AllocError> {
    if let Some(open) = wholly_open(record, occurrences) {
        return push_elements(alloc, record, item, open, occurrences.len(), text);
    }
    for occurrence in occurrences {
        push_runs(alloc, record, occurrence, text)?;
    }
    Ok(())
}

/// Adds the lines of an item of the input record of which no byte is taken.
fn push_untaken_item(
    alloc: Global,
    record: &Marked<'_>,
    item: &Node,
    occurrences: &[PlacedOccurrence],
    text: &mut String,
) -> Result<(), AllocError> {
    if let Some(open) = wholly_open(record, occurrences) {
        return push_elements(alloc, record, item, open, occurrences.len(), text);
    }
    for occurrence in occurrences {
        let Place { offset, length } = occurrence.place;
        if record.is_open(occurrence.place) {
            let run = ByteRun {
                offset: offset as usize,
                count: length as usize,
            };
            push_bytes(alloc, record, occurrence, run, text)?;
        }
    }
    Ok(())
}

/// How many bytes of these occurrences are not marked.
fn open_in(record: &Marked<'_>, occurrences: &[PlacedOccurrence]) -> usize {
    let mut count: usize = 0;
    for occurrence in occurrences {
        count = count.saturating_add(record.open_bytes(occurrence.place));
    }
    count
}

/// Adds the lines of the bytes of the output record that are not covered: by items with a name, and then how many those of FILLER are.
fn push_open(
    alloc: Global,
    record: &Marked<'_>,
    items: &[&Node],
    text: &mut String,
) -> Result<(), AllocError> {
    let mut nameless: usize = 0;
    for item in items {
        let occurrences = occurrences_of(alloc, record.layout, item)?;
        if item.name.is_some() {
            push_open_item(alloc, record, item, &occurrences, text)?;
        } else {
            nameless = nameless.saturating_add(open_in(record, &occurrences));
        }
    }
    if nameless > 0 {
        let words = record.words;
        let bytes = Bytes { count: nameless };
        let line = format!(in alloc; "{words} FILLER: {bytes} in all\n")?;
        text.push_str(&line)?;
    }
    Ok(())
}

/// Adds the lines of the items of the input record with a name that are not taken.
fn push_untaken(
    alloc: Global,
    record: &Marked<'_>,
    items: &[&Node],
    text: &mut String,
) -> Result<(), AllocError> {
    for item in items {
        if item.name.is_some() {
            let occurrences = occurrences_of(alloc, record.layout, item)?;
            push_untaken_item(alloc, record, item, &occurrences, text)?;
        }
    }
    Ok(())
}

/// Adds the lines of the bytes of the output record that no receiver covers.
fn push_covered(
    alloc: Global,
    moves: &LinedMoves<'_>,
    text: &mut String,
) -> Result<(), AllocError> {
    let layout = moves.moves.layouts.output;
    let marks = bytes_covered(alloc, &moves.moves)?;
    let mut items = Vec::new(alloc);
    push_items(layout.root(), &mut items)?;
    let record = Marked {
        words: "not covered",
        shifted: SHIFTED,
        layout,
        marks: &marks,
    };
    push_open(alloc, &record, &items, text)
}

/// Of each byte, whether it is marked in the first list and not in the second.
fn marked_apart(alloc: Global, marks: &[bool], others: &[bool]) -> Result<Vec<bool>, AllocError> {
    let mut apart = Vec::with_capacity(alloc, marks.len())?;
    for (mark, other) in marks.iter().zip(others.iter()) {
        apart.push(*mark && !*other)?;
    }
    Ok(apart)
}

/// Of each byte, whether it is not marked.
fn unmarked(alloc: Global, marks: &[bool]) -> Result<Vec<bool>, AllocError> {
    let mut others = Vec::with_capacity(alloc, marks.len())?;
    for mark in marks {
        others.push(!*mark)?;
    }
    Ok(others)
}

/// Of each byte of the output record, whether it is covered and a test stands before all moves to it.
fn covered_where_something_holds(
    alloc: Global,
    moves: &LinedMoves<'_>,
    untested: &[MovesBetween<'_>],
) -> Result<Vec<bool>, AllocError> {
    let mut marks = bytes_covered(alloc, &moves.moves)?;
    for always in untested {
        let own = bytes_covered(alloc, always)?;
        marks = marked_apart(alloc, &marks, &own)?;
    }
    Ok(marks)
}

/// Adds the lines of the bytes of the output record that only moves cover that a test stands before.
fn push_tested(
    alloc: Global,
    moves: &LinedMoves<'_>,
    untested: &[MovesBetween<'_>],
    text: &mut String,
) -> Result<(), AllocError> {
    let layout = moves.moves.layouts.output;
    let covered = covered_where_something_holds(alloc, moves, untested)?;
    let marks = unmarked(alloc, &covered)?;
    let mut items = Vec::new(alloc);
    push_items(layout.root(), &mut items)?;
    let record = Marked {
        words: "covered only where something holds:",
        shifted: SHIFTED,
        layout,
        marks: &marks,
    };
    push_open(alloc, &record, &items, text)
}

/// Adds the lines of the items of the input record that no sender takes.
fn push_taken(alloc: Global, moves: &LinedMoves<'_>, text: &mut String) -> Result<(), AllocError> {
    let layout = moves.moves.layouts.input;
    let marks = bytes_taken(alloc, &moves.moves)?;
    let mut items = Vec::new(alloc);
    push_items(layout.root(), &mut items)?;
    let record = Marked {
        words: "not taken",
        shifted: "",
        layout,
        marks: &marks,
    };
    push_untaken(alloc, &record, &items, text)
}

/// What a paragraph leaves open, in lines.
#[derive(Drop)]
pub struct CoverText {
    /// The lines: of the bytes of the output record that no receiver covers, of those that are covered only where something holds, of the items of the input record that no sender takes, and of the single moves
    /// that may lose something or have no number.
    pub text: String,
    /// Whether some byte is not covered, or some single move may lose something or have no number: an item that no sender takes leaves nothing open.
    pub is_open: bool,
}

/// The lines of what a paragraph leaves open, and whether it leaves anything open. Those of its moves that no test stands before are given too.
///
/// # Errors
///
/// Where no memory is left.
pub fn cover_text(
    alloc: Global,
    moves: &LinedMoves<'_>,
    untested: &[MovesBetween<'_>],
) -> Result<CoverText, AllocError> {
    let mut text = String::new(alloc);
    push_covered(alloc, moves, &mut text)?;
    let is_covered = text.is_empty();
    push_tested(alloc, moves, untested, &mut text)?;
    push_taken(alloc, moves, &mut text)?;
    let loses = push_open_moves(alloc, moves, &mut text)?;
    Ok(CoverText {
        text,
        is_open: loses || !is_covered,
    })
}
