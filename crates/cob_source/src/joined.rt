ghost use Rattle.std.specs.Prelude.{◌≡◌, ℕ, ◌+◌, ◌<◌, ◌≤◌, List, [], ◌∷◌, ◌++◌, ◌-◌, length, take, drop, slice_index_or, true, is_some, OnOk, IfErr, IfSome, Some, None};
ghost use Rattle.cob_source.specs.Tokens.{Lexeme, lexemes};
ghost use Rattle.cob_source.specs.Cuts.{open_quote, is_quote, Cuts};
ghost use Rattle.cob_source.specs.Lines.{filled, program_text, kind_of_line, trim_end, continued_text, left_out, cells_from, cells_behind, line_end, with_columns};
ghost use Rattle.cob_source.specs.Words.{ends_quoted, first_character, is_misfit, is_bad_continuation};
ghost use Rattle.cob_source.specs.Reading.{LeavesOutSpaces, EndsInSpaces, open_in, EndRefused, ContinuationRefused, IsContinued};
ghost use Rattle.cob_source.specs.declared.lines.LineKind.TheVariants.{Continuation};

use crate::cut::cut;
use crate::fault::{SourceFault, SourceRule};
use crate::lines::{
    behind, front, is_blank_text, leading_spaces, open_behind_byte, without_spaces, written_in,
    written_len,
};
use crate::token::{Cell, Cutting, Token};
use std::alloc::{AllocError, Global};

/// A line with the continuations that are joined to it so far.
#[derive(Drop)]
pub struct Joined {
    /// Its characters, with the line's end before it in front. Where no literal is open at its end, only the first one of the
    /// spaces behind what is written.
    pub cells: Vec<Cell>,
    /// The quote of the literal that is open at its end.
    pub quote: Option<u8>,
    /// The number of the last line joined to it.
    pub last: u32,
}

/// The literal that is open behind these bytes.
pub fn open_behind(quote: Option<u8>, bytes: &[u8]) -> Option<u8>
    ensures { result ≡ open_in quote bytes.now }
{
    let mut now = quote;
    for byte in bytes {
        now = open_behind_byte(now, *byte);
    }
    now
}

/// Column 8 + `i`, a space where the line doesn't reach it.
fn column_at(area: &[u8], i: usize) -> u8
    requires { i < 65 }
    ensures { result ≡ slice_index_or (filled area.now) i 0 }
{
    if i < area.len() { area[i] } else { b' ' }
}

/// Adds the first `end` columns from 8 on without the first `skipped`, a space for each that the line doesn't reach.
fn push_columns(
    area: &[u8],
    skipped: usize,
    end: usize,
    line: u32,
    cells: &mut Vec<Cell>,
) -> Result<(), AllocError>
    requires from { skipped ≤ end }
    requires few { end ≤ 65 }
    ensures { OnOk result (cells.new.items ≡ cells.old.items ++ cells_from line
        (8 + skipped) (take (end - skipped) (drop skipped (filled area.now)))) }
{
    for i in skipped..end {
        cells.push(Cell {
            line,
            column: i as u8 + 8,
            byte: column_at(area, i),
        })?;
    }
    Ok(())
}

/// Up to how many columns a line is kept: all 65 where a literal is open at its end, else one space behind what is written.
fn kept_columns(quote: Option<u8>, text: &[u8], skipped: usize) -> usize
    requires few { skipped ≤ 65 }
    requires short { length text.now ≤ 65 }
    ensures from { skipped ≤ result }
    ensures within { result ≤ 65 }
    ensures whole { is_some quote ≡ true → result ≡ 65 }
    ensures spaces { EndsInSpaces text.now skipped result }
{
    if quote.is_some() {
        65
    } else {
        (written_len(text).max(skipped) + 1).min(65)
    }
}

/// Adds the columns from 8 to 72 of a line without the first ones, and of the spaces at their end only what is kept.
fn add_columns(
    text: &[u8],
    skipped: usize,
    number: u32,
    joined: &mut Joined,
) -> Result<(), AllocError>
    requires few { skipped ≤ 65 }
    requires short { length text.now ≤ 65 }
    requires quote { joined.old.quote ≡ open_quote joined.old.cells.items }
    ensures cells { OnOk result (LeavesOutSpaces joined.new.cells.items
        (with_columns number skipped text.now joined.old.cells.items)) }
    ensures quote { OnOk result (joined.new.quote ≡ open_quote joined.new.cells.items) }
    ensures last { OnOk result (joined.new.last ≡ number) }
{
    let quote = open_behind(joined.quote, behind(text, skipped));
    let end = kept_columns(quote, text, skipped);
    push_columns(text, skipped, end, number, &mut joined.cells)?;
    joined.quote = quote;
    joined.last = number;
    Ok(())
}

/// Takes the spaces off the end.
fn drop_end(cells: &mut Vec<Cell>)
    ensures { cells.new.items ≡ trim_end cells.old.items }
{
    let mut end = cells.len();
    while end > 0 {
        if cells[end - 1].byte != b' ' {
            break;
        }
        end -= 1;
    }
    cells.truncate(end);
}

/// Begins a new line.
pub fn begin_line(number: u32, line: &[u8], joined: &mut Joined) -> Result<(), AllocError>
    ensures cells { OnOk result (LeavesOutSpaces joined.new.cells.items
        (line_end number ∷ cells_behind number 0 line.now)) }
    ensures quote { OnOk result (joined.new.quote ≡ open_quote joined.new.cells.items) }
    ensures last { OnOk result (joined.new.last ≡ number) }
{
    joined.cells.clear();
    joined.cells.push(Cell {
        line: number,
        column: 7,
        byte: b'\n',
    })?;
    joined.quote = None;
    add_columns(written_in(line), 0, number, joined)
}

/// Whether the last character is a quote.
fn ends_with_quote(cells: &[Cell]) -> bool
    ensures { result ≡ ends_quoted cells.now }
{
    match cells.last() {
        Some(c) => c.byte == b'"' || c.byte == b'\'',
        None => false,
    }
}

/// Whether a continuation that begins so doesn't fit what is before it.
fn misfits(quote: Option<u8>, cells: &[Cell], first: u8) -> bool
    ensures { result ≡ is_misfit quote cells.now first }
{
    match quote {
        Some(opening) => first != opening,
        None => ends_with_quote(cells) && (first == b'"' || first == b'\''),
    }
}

/// Whether the line may not be joined.
fn is_bad(text: &[u8], quote: Option<u8>, cells: &[Cell]) -> bool
    requires { quote ≡ open_quote cells.now }
    ensures { (line : List ℕ)
        → text.now ≡ program_text line → result ≡ is_bad_continuation cells.now line }
{
    let first = without_spaces(text).first().copied().unwrap_or(b' ');
    cells.is_empty() || !is_blank_text(front(text, 4)) || misfits(quote, cells, first)
}

/// Takes off the spaces that a continuation isn't joined behind, and gives how many columns it leaves out.
fn make_ready(text: &[u8], joined: &mut Joined) -> usize
    ensures skipped { result ≡ left_out joined.old.quote text.now }
    ensures cells { joined.new.cells.items ≡ continued_text
        joined.old.quote joined.old.cells.items }
    ensures quote { joined.new.quote ≡ joined.old.quote }
{
    let skipped = leading_spaces(text);
    match joined.quote {
        Some(_) => skipped + 1,
        None => {
            drop_end(&mut joined.cells);
            skipped
        }
    }
}

/// Joins a continuation line.
///
/// # Errors
/// T4 where the line may not be joined, T9 where memory is refused.
pub fn continue_line(number: u32, line: &[u8], joined: &mut Joined) -> Result<(), SourceFault>
    requires kind { kind_of_line line.now ≡ Continuation }
    requires quote { joined.old.quote ≡ open_quote joined.old.cells.items }
    ensures ok { OnOk result (IsContinued number
        line.now joined.old.cells.items joined.new.cells.items joined.new.quote joined.new.last) }
    ensures fault { IfErr result
        (λ f. ContinuationRefused f.rule f.line number joined.old.cells.items line.now) }
{
    let text = written_in(line);
    if is_bad(text, joined.quote, joined.cells.as_slice()) {
        return Err(SourceFault {
            rule: SourceRule::BadContinuation,
            line: number,
        });
    }
    let skipped = make_ready(text, joined);
    add_columns(text, skipped, number, joined)?;
    Ok(())
}

/// Adds the words of the joined line.
///
/// # Errors
/// T3 where a literal is open at its end, T9 where memory is refused.
pub fn cut_joined(
    alloc: Global,
    cutting: Cutting,
    joined: &Joined,
    out: &mut Vec<Token>,
) -> Result<(), SourceFault>
    requires { joined.now.quote ≡ open_quote joined.now.cells.items }
    ensures closed { OnOk result (joined.now.quote ≡ None) }
    ensures found { OnOk result ((ts : List Lexeme) × Cuts cutting joined.now.cells.items ts
        × (lexemes out.old.items ++ ts ≡ lexemes out.new.items)) }
    ensures fault { IfErr result (λ f. EndRefused f.rule f.line joined.now.quote joined.now.last) }
{
    if joined.quote.is_some() {
        return Err(SourceFault {
            rule: SourceRule::OpenLiteral,
            line: joined.last,
        });
    }
    cut(alloc, cutting, joined.cells.as_slice(), out)?;
    Ok(())
}
