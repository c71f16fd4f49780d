ghost use Rattle.std.specs.Prelude.{◌≡◌, ℕ, ◌+◌, ◌<◌, ◌≤◌, List, ◌++◌, ◌∷◌, true, false, length, take, drop, IfOk, OnOk, Some, None};
ghost use Rattle.std.specs.List.{AllByRecursion};
ghost use Rattle.cob_source.specs.Tokens.{Lexeme, lexemes};
ghost use Rattle.cob_source.specs.Cuts.{IsPlain, is_plain, is_gap, is_quote, plain_first, quote_first, open_from, open_quote, stop, words_before_sign, lexemes_of, Chunk, Body, NotFirstQuote, literal, Cuts};

use crate::token::{Cell, Cutting, Token, TokenKind};
use crate::word::push_words;
use std::alloc::{AllocError, Global};

/// Whether the character is a space or a line's end.
fn is_gap(byte: u8) -> bool
    ensures { result ≡ is_gap byte }
{
    byte == b' ' || byte == b'\n'
}

/// Whether the character may stand in a word.
fn is_plain(byte: u8) -> bool
    ensures { result ≡ is_plain byte }
{
    !matches!(byte, b' ' | b'\n' | b'"' | b'\'')
}

/// How many characters of a word stand in front.
fn chunk_len(cells: &[Cell]) -> usize
    ensures within { result ≤ length cells.now }
    ensures each { AllByRecursion IsPlain (take result cells.now) }
    ensures other { plain_first (drop result cells.now) ≡ false }
{
    for (i, cell) in cells.iter().enumerate() {
        if !is_plain(cell.byte) {
            return i;
        }
    }
    cells.len()
}

/// Adds a stop.
fn push_stop(alloc: Global, period: Cell, out: &mut Vec<Token>) -> Result<(), AllocError>
    ensures ok { OnOk result (lexemes out.new.items ≡ lexemes out.old.items ++ stop period) }
{
    let mut text = Vec::new(alloc);
    text.push(period.byte)?;
    out.push(Token {
        kind: TokenKind::Stop,
        text,
        line: period.line,
        column: period.column,
    })?;
    Ok(())
}

/// Adds the words of these characters without one sign at their end, and the stop.
fn push_signed(
    alloc: Global,
    cutting: Cutting,
    cells: &[Cell],
    out: &mut Vec<Token>,
) -> Result<(), AllocError>
    requires { 0 < length cells.now }
    ensures ok { OnOk result
        (lexemes out.new.items ≡ lexemes out.old.items ++ words_before_sign cutting cells.now) }
{
    let end = cells.len() - 1;
    let last = cells[end];
    match last.byte {
        b',' | b';' => push_words(alloc, cutting, &cells[..end], out),
        b'.' => {
            push_words(alloc, cutting, &cells[..end], out)?;
            push_stop(alloc, last, out)
        }
        _ => push_words(alloc, cutting, cells, out),
    }
}

/// Whether a quote stands in front.
fn starts_with_quote(cells: &[Cell]) -> bool
    ensures { result ≡ quote_first cells.now }
{
    match cells.first() {
        Some(c) => c.byte == b'"' || c.byte == b'\'',
        None => false,
    }
}

/// Adds the words and the stop of characters between spaces and quotes.
fn push_chunk(
    alloc: Global,
    cutting: Cutting,
    chunk: &[Cell],
    behind: &[Cell],
    out: &mut Vec<Token>,
) -> Result<(), AllocError>
    requires { 0 < length chunk.now }
    ensures ok { OnOk result (lexemes out.new.items ≡ lexemes out.old.items ++ lexemes_of cutting
        (Chunk chunk.now) behind.now) }
{
    if starts_with_quote(behind) {
        push_words(alloc, cutting, chunk, out)
    } else {
        push_signed(alloc, cutting, chunk, out)
    }
}

/// The characters of a literal behind its quote, and what follows it.
fn literal_at(alloc: Global, cells: &[Cell], quote: u8) -> Result<(Vec<u8>, &[Cell]), AllocError>
    requires quote { is_quote quote ≡ true }
    requires closed { open_from (Some quote) cells.now ≡ None }
    ensures found { IfOk result (λ r. (inside : List Cell)
        × Body quote inside r.0.items × NotFirstQuote quote r.1.now
        × (cells.now ≡ inside ++ r.1.now)) }
    ensures closed { IfOk result (λ r. open_quote r.1.now ≡ None) }
    ensures shorter { IfOk result (λ r. length r.1.now ≤ length cells.now) }
{
    let mut text = Vec::new(alloc);
    let mut rest = cells;
    while let Some((first, after)) = rest.split_first() {
        if first.byte != quote {
            text.push(first.byte)?;
            rest = after;
            continue;
        }
        let Some((second, behind)) = after.split_first() else {
            return Ok((text, after));
        };
        if second.byte != quote {
            return Ok((text, after));
        }
        text.push(quote)?;
        rest = behind;
    }
    unreachable!()
}

/// Adds a literal.
fn push_literal(opening: Cell, text: Vec<u8>, out: &mut Vec<Token>) -> Result<(), AllocError>
    ensures ok { OnOk result
        (lexemes out.new.items ≡ lexemes out.old.items ++ literal opening text.items) }
{
    out.push(Token {
        kind: TokenKind::Literal,
        text,
        line: opening.line,
        column: opening.column,
    })?;
    Ok(())
}

/// Adds the words, literals and stops of characters at whose end no literal is open.
pub fn cut(
    alloc: Global,
    cutting: Cutting,
    cells: &[Cell],
    out: &mut Vec<Token>,
) -> Result<(), AllocError>
    requires { open_quote cells.now ≡ None }
    ensures found { OnOk result ((ts : List Lexeme)
        × Cuts cutting cells.now ts × (lexemes out.old.items ++ ts ≡ lexemes out.new.items)) }
{
    let mut rest = cells;
    while let Some((first, after)) = rest.split_first() {
        if is_gap(first.byte) {
            rest = after;
        } else if is_plain(first.byte) {
            let (chunk, behind) = rest.split_at(chunk_len(rest));
            push_chunk(alloc, cutting, chunk, behind, out)?;
            rest = behind;
        } else {
            let (text, behind) = literal_at(alloc, after, first.byte)?;
            push_literal(*first, text, out)?;
            rest = behind;
        }
    }
    Ok(())
}
