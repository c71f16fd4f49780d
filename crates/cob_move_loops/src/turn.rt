//! The words of a turn.

ghost use Rattle.std.specs.Prelude.{◌≡◌, ℕ, drop, false, Some, IfOk, IfSome, option_map};
ghost use Rattle.cob_copybook_clauses.specs.Terms.{word_class};
ghost use Rattle.cob_source.specs.Tokens.{lexeme, lexemes};
ghost use Rattle.cob_move_loops.specs.Reading.{counters};
ghost use Rattle.cob_move_loops.specs.Turns.{amount_of_kind, counted_number, in_turn, numeral, number_of_name, open_by, passed_by, shifted_number, shifted_of_kind, sum_in, whole_in, word_by};

use cob_copybook_clauses::{WordClass, word_class};
use cob_copybook_entries::whole;
use cob_limits::MAX_COUNTER_DIGITS;
use cob_source::{Token, TokenKind};
use itoa::Buffer;
use std::alloc::{AllocError, Global};

/// A counter and its number in a turn.
#[derive(Clone, Copy)]
pub struct Counter<'a> {
    pub name: &'a [u8],
    pub number: u32,
}

/// The number of the counter with this name.
fn number_of_name(turn: &[Counter<'_>], name: &[u8]) -> Option<u32>
    ensures { result ≡ number_of_name (counters turn.now) name.now }
{
    let (first, more) = turn.split_first()?;
    if first.name == name {
        return Some(first.number);
    }
    number_of_name(more, name)
}

/// The number of the counter that a word is, if it is one.
fn counted_number(turn: &[Counter<'_>], token: &Token) -> Option<u32>
    ensures { result ≡ counted_number (counters turn.now) (lexeme token.now) }
{
    match token.kind {
        TokenKind::Word => number_of_name(turn, token.text.as_slice()),
        TokenKind::Literal | TokenKind::Stop => None,
    }
}

/// The same word once more.
///
/// # Errors
///
/// Where no memory is left.
fn copy_of(alloc: Global, token: &Token) -> Result<Token, AllocError>
    ensures { IfOk result (λ t. lexeme t ≡ lexeme token.now) }
{
    let text = Vec::from_slice(alloc, token.text.as_slice())?;
    Ok(Token {
        text,
        line: token.line,
        column: token.column,
        kind: token.kind,
    })
}

/// The word of a number in the place of another one.
///
/// # Errors
///
/// Where no memory is left.
fn numeral(alloc: Global, token: &Token, number: u64) -> Result<Token, AllocError>
    ensures { IfOk result (λ t. lexeme t ≡ numeral (lexeme token.now) number) }
{
    let mut buffer = Buffer::new();
    let text = Vec::from_slice(alloc, buffer.format(number).as_bytes())?;
    Ok(Token {
        text,
        line: token.line,
        column: token.column,
        kind: TokenKind::Word,
    })
}

/// The number that one to nine digits spell.
fn whole_in(text: &[u8]) -> Option<u32>
    ensures { result ≡ whole_in text.now }
{
    whole(text, MAX_COUNTER_DIGITS)
}

/// The number of a word of digits.
fn amount_in(token: &Token) -> Option<u32>
    ensures { result ≡ amount_of_kind (lexeme token.now).kind (lexeme token.now).text }
{
    match token.kind {
        TokenKind::Word => whole_in(token.text.as_slice()),
        TokenKind::Literal | TokenKind::Stop => None,
    }
}

/// A number with another added to it, behind +, or taken away from it, behind -.
fn shifted_number(sign: &[u8], number: u32, amount: u32) -> Option<u64>
    ensures { result ≡ shifted_number sign.now number amount }
{
    if sign == b"+".as_slice() {
        return Some(u64::from(number) + u64::from(amount));
    }
    if sign == b"-".as_slice() {
        return Some(u64::from(number.saturating_sub(amount)));
    }
    None
}

/// A number with another added to it or taken away from it, where a sign stands before that.
fn shifted_by(sign: &Token, number: u32, amount: u32) -> Option<u64>
    ensures { result ≡ shifted_of_kind (lexeme sign.now).kind (lexeme sign.now).text number (Some amount) }
{
    match sign.kind {
        TokenKind::Word => shifted_number(sign.text.as_slice(), number, amount),
        TokenKind::Literal | TokenKind::Stop => None,
    }
}

/// What a counter's number and the two words behind it make, and what is behind these: a sign, and a number. It is so within brackets alone.
fn sum_in(inside: bool, number: u32, words: &[Token]) -> Option<(u64, &[Token])>
    ensures sum { option_map (λ r. r.0) result ≡ sum_in inside number (lexemes words.now) }
    ensures rest { IfSome result (λ r. lexemes r.1.now ≡ drop 2 (lexemes words.now)) }
{
    if !inside {
        return None;
    }
    let (sign, behind) = words.split_first()?;
    let (word, rest) = behind.split_first()?;
    let amount = amount_in(word)?;
    let sum = shifted_by(sign, number, amount)?;
    Some((sum, rest))
}

/// The word in the place of the one in front, and the words behind it that are not passed over.
///
/// # Errors
///
/// Where no memory is left.
fn word_in<'a>(
    alloc: Global,
    turn: &[Counter<'_>],
    inside: bool,
    first: &Token,
    more: &'a [Token],
) -> Result<(Token, &'a [Token]), AllocError>
    ensures word { IfOk result (λ r. lexeme r.0 ≡ word_by inside (lexeme first.now)
        (lexemes more.now) (counted_number (counters turn.now) (lexeme first.now))) }
    ensures rest { IfOk result (λ r. lexemes r.1.now ≡ drop (passed_by inside (lexemes more.now)
        (counted_number (counters turn.now) (lexeme first.now))) (lexemes more.now)) }
{
    let Some(number) = counted_number(turn, first) else {
        return Ok((copy_of(alloc, first)?, more));
    };
    match sum_in(inside, number, more) {
        Some((sum, rest)) => Ok((numeral(alloc, first, sum)?, rest)),
        None => Ok((numeral(alloc, first, u64::from(number))?, more)),
    }
}

/// Whether brackets are open behind a word.
pub(crate) fn opens(inside: bool, token: &Token) -> bool
    ensures { result ≡ open_by inside (word_class (lexeme token.now)) }
{
    match word_class(token) {
        WordClass::OpenBracket => true,
        WordClass::CloseBracket => false,
        _ => inside,
    }
}

/// Words in a turn: the number of each counter in its place.
///
/// # Errors
///
/// Where no memory is left.
pub fn in_turn(
    alloc: Global,
    words: &[Token],
    turn: &[Counter<'_>],
) -> Result<Vec<Token>, AllocError>
    ensures { IfOk result (λ v. lexemes v.items
        ≡ in_turn (counters turn.now) false 0 (lexemes words.now)) }
{
    let mut out = Vec::with_capacity(alloc, words.len())?;
    let mut inside = false;
    let mut rest = words;
    while let Some((first, more)) = rest.split_first() {
        let (word, behind) = word_in(alloc, turn, inside, first, more)?;
        out.push(word)?;
        inside = opens(inside, first);
        rest = behind;
    }
    Ok(out)
}
