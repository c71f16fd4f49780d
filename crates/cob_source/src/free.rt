//! Texts in free format.

ghost use Rattle.std.specs.Prelude.{◌≡◌, ℕ, ◌+◌, ◌<◌, ◌≤◌, List, ◌++◌, length, true, IfErr, IfNone, IfOk, IfSome, OnOk, None};
ghost use Rattle.cob_source.specs.declared.fault.SourceRule.TheVariants.{Memory, NotAscii, OpenLiteral, Tab, TooLong};
ghost use Rattle.cob_source.specs.declared.token.Cutting.TheVariants.{Whole};
ghost use Rattle.cob_source.specs.Tokens.{Lexeme, lexemes};
ghost use Rattle.cob_source.specs.Cuts.{Cuts};
ghost use Rattle.cob_source.specs.Lines.{cells_from};
ghost use Rattle.cob_source.specs.Reading.{open_in};
ghost use Rattle.cob_source.specs.Free.{AreFreeWordsOf, FitsFree, FreeLineRefused, IsFreeRefusal, breaks_free, free_text, is_free_direction, uncommented};

use crate::cut::cut;
use crate::fault::{SourceFault, SourceRule};
use crate::joined::open_behind;
use crate::lines::{
    comment_start, front, is_direction_text, is_foreign_byte, next_line, starts_with_word,
    without_spaces,
};
use crate::token::{Cell, Cutting, Token};
use cob_limits::MAX_TEXT_BYTES;
use std::alloc::{AllocError, Global};

/// How many characters a line has at most.
const LONGEST_LINE: usize = 255;

/// A line without its comment.
fn without_comment(line: &[u8]) -> &[u8]
    ensures { result.now ≡ uncommented line.now }
{
    front(line, comment_start(line))
}

/// Whether it is only for a compiler or its listing, or says that the format is free.
fn is_free_direction(bytes: &[u8]) -> bool
    ensures { result ≡ is_free_direction bytes.now }
{
    is_direction_text(bytes) || starts_with_word(without_spaces(bytes), b">>SOURCE")
}

/// What a line says.
fn said_in(line: &[u8]) -> &[u8]
    ensures said { result.now ≡ free_text line.now }
    ensures shorter { length result.now ≤ length (uncommented line.now) }
{
    let said = without_comment(line);
    if is_free_direction(said) {
        return front(said, 0);
    }
    said
}

/// Whether a line holds a tab before its comment.
fn holds_free_tab(line: &[u8]) -> bool
    ensures { result ≡ breaks_free Tab line.now }
{
    let said = without_comment(line);
    said.iter().any(|b| *b == b'\t')
}

/// Whether a line holds a byte outside 20 to 7E before its comment, a tab apart.
fn holds_free_foreign(line: &[u8]) -> bool
    ensures { result ≡ breaks_free NotAscii line.now }
{
    let said = without_comment(line);
    said.iter().any(|b| is_foreign_byte(*b))
}

/// Whether a line is too long before its comment.
fn is_too_long(line: &[u8]) -> bool
    ensures { result ≡ breaks_free TooLong line.now }
{
    without_comment(line).len() > LONGEST_LINE
}

/// Whether a literal is open at the end of a line.
fn leaves_open(line: &[u8]) -> bool
    ensures { result ≡ breaks_free OpenLiteral line.now }
{
    open_behind(None, said_in(line)).is_some()
}

/// The rule that a line breaks.
fn free_fault(line: &[u8]) -> Option<SourceRule>
    ensures some { IfSome result (λ r. (breaks_free r line.now ≡ true)) }
    ensures none { IfNone result (FitsFree line.now) }
{
    if holds_free_tab(line) {
        Some(SourceRule::Tab)
    } else if holds_free_foreign(line) {
        Some(SourceRule::NotAscii)
    } else if is_too_long(line) {
        Some(SourceRule::TooLong)
    } else if leaves_open(line) {
        Some(SourceRule::OpenLiteral)
    } else {
        None
    }
}

/// The characters of a line, from its first column on.
fn cells_of(alloc: Global, line: u32, text: &[u8]) -> Result<Vec<Cell>, AllocError>
    requires { length text.now ≤ 255 }
    ensures { IfOk result (λ v. v.items ≡ cells_from line 1 text.now) }
{
    let mut cells = Vec::with_capacity(alloc, text.len())?;
    let mut count: usize = 0;
    let mut rest = text;
    while let Some((first, more)) = rest.split_first() {
        cells.push(Cell {
            line,
            column: count as u8 + 1,
            byte: *first,
        })?;
        count += 1;
        rest = more;
    }
    Ok(cells)
}

/// Puts the words of one line behind those so far.
///
/// # Errors
///
/// The rule that the line breaks, and T9 where memory is refused.
fn take_free_line(
    alloc: Global,
    number: u32,
    line: &[u8],
    out: &mut Vec<Token>,
) -> Result<(), SourceFault>
    ensures fits { OnOk result (FitsFree line.now) }
    ensures found { OnOk result ((here : List Lexeme)
        × Cuts Whole (cells_from number 1 (free_text line.now)) here
        × (lexemes out.old.items ++ here ≡ lexemes out.new.items)) }
    ensures fault { IfErr result (λ f. FreeLineRefused f.rule f.line number line.now) }
{
    if let Some(rule) = free_fault(line) {
        return Err(SourceFault { rule, line: number });
    }
    let cells = cells_of(alloc, number, said_in(line))?;
    cut(alloc, Cutting::Whole, cells.as_slice(), out)?;
    Ok(())
}

/// The words, literals and stops of a text in free format, as [`crate::tokens`] gives them of one in reference format: what stands on a line counts from its first
/// character on, up to a comment, and each line is cut by itself.
///
/// # Errors
///
/// A rule that a line breaks, with its number: T1, T2, T3 (no literal goes on on the next line), T5 (over 255 characters, or the text is too long). T9, with line 0,
/// only where memory is refused.
pub fn free_tokens(alloc: Global, text: &[u8]) -> Result<Vec<Token>, SourceFault>
    // What is read are the words of the text, which then breaks no rule.
    ensures words { IfOk result (λ v. AreFreeWordsOf text.now (lexemes v.items)) }
    // A text that has words is read, memory aside.
    ensures reads { (ts : List Lexeme)
        → AreFreeWordsOf text.now ts → IfErr result (λ f. f.rule ≡ Memory) }
    // A refused text breaks the rule that is named, on the line that is named.
    ensures refused { IfErr result (λ f. IsFreeRefusal f.rule f.line text.now) }
{
    if text.len() > MAX_TEXT_BYTES {
        return Err(SourceFault {
            rule: SourceRule::TooLong,
            line: 1,
        });
    }
    let mut out = Vec::new(alloc);
    let mut number: u32 = 1;
    let mut rest = text;
    while !rest.is_empty() {
        let (line, more) = next_line(rest);
        take_free_line(alloc, number, line, &mut out)?;
        number += 1;
        rest = more;
    }
    Ok(out)
}
