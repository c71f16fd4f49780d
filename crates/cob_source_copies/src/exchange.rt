//! Text words put for others.

ghost use Rattle.std.specs.Prelude.{◌≡◌, ◌++◌, ◌∷◌, [], map, drop, IfOk, OnOk, option_map};
ghost use Rattle.cob_source.specs.Tokens.{lexemes};
ghost use Rattle.cob_source_copies.specs.TextWords.{text_word};
ghost use Rattle.cob_source_copies.specs.Exchanges.{are_same_text_words, begin_with, exchanged, first_fitting, in_place_of, is_one_kind, part_of_x, put_by, put_for, replaced, replacing, replacing_by};

use crate::copying::push_copies;
use crate::fragment::{Fragment, fragments};
use crate::writing::push_together;
use cob_source::{Token, TokenKind};
use std::alloc::{AllocError, Global};

/// One `x BY y` of REPLACING.
#[derive(Drop)]
pub struct Exchange {
    /// x: the text words that are looked for.
    pub from: Vec<Fragment>,
    /// y: those that are put for them.
    pub to: Vec<Fragment>,
}

/// Whether two are of one kind.
fn is_one_kind(a: TokenKind, b: TokenKind) -> bool
    ensures { result ≡ is_one_kind a b }
{
    match a {
        TokenKind::Word => matches!(b, TokenKind::Word),
        TokenKind::Literal => matches!(b, TokenKind::Literal),
        TokenKind::Stop => matches!(b, TokenKind::Stop),
    }
}

/// Whether two text words are the same.
fn are_same_text_words(a: &Fragment, b: &Fragment) -> bool
    ensures { result ≡ are_same_text_words (text_word a.now) (text_word b.now) }
{
    is_one_kind(a.token.kind, b.token.kind) && a.token.text.as_slice() == b.token.text.as_slice()
}

/// Whether text words begin with others.
fn begin_with(from: &[Fragment], fragments: &[Fragment]) -> bool
    ensures { result ≡ begin_with (map text_word from.now) (map text_word fragments.now) }
{
    let mut left = from;
    let mut rest = fragments;
    while let Some((wanted, others)) = left.split_first() {
        let Some((first, more)) = rest.split_first() else {
            return false;
        };
        if !are_same_text_words(wanted, first) {
            return false;
        }
        left = others;
        rest = more;
    }
    true
}

/// The first exchange whose x stands in front.
fn first_fitting<'a>(exchanges: &'a [Exchange], fragments: &[Fragment]) -> Option<&'a Exchange>
    ensures { option_map (λ e. replacing e.now) result
        ≡ first_fitting (map replacing exchanges.now) (map text_word fragments.now) }
{
    let mut rest = exchanges;
    while let Some((first, more)) = rest.split_first() {
        if begin_with(first.from.as_slice(), fragments) {
            return Some(first);
        }
        rest = more;
    }
    None
}

/// Puts a text word in the place of another one behind those so far.
///
/// # Errors
///
/// Where no memory is left.
fn push_in_place(
    alloc: Global,
    place: &Fragment,
    joins: bool,
    fragment: &Fragment,
    out: &mut Vec<Fragment>,
) -> Result<(), AllocError>
    ensures { OnOk result (map text_word out.new.items ≡ map text_word out.old.items
        ++ in_place_of (text_word place.now) joins (text_word fragment.now) ∷ []) }
{
    let token = Token {
        text: Vec::from_slice(alloc, fragment.token.text.as_slice())?,
        line: place.token.line,
        column: place.token.column,
        kind: fragment.token.kind,
    };
    out.push(Fragment { token, joins })?;
    Ok(())
}

/// Puts a part of no character in the place of a text word behind those so far.
///
/// # Errors
///
/// Where no memory is left.
fn push_nothing(alloc: Global, place: &Fragment, out: &mut Vec<Fragment>) -> Result<(), AllocError>
    ensures { OnOk result (map text_word out.new.items ≡ map text_word out.old.items
        ++ put_for (text_word place.now) []) }
{
    let token = Token {
        text: Vec::new(alloc),
        line: place.token.line,
        column: place.token.column,
        kind: TokenKind::Word,
    };
    out.push(Fragment {
        token,
        joins: place.joins,
    })?;
    Ok(())
}

/// Puts text words for those of which this is the first behind those so far.
///
/// # Errors
///
/// Where no memory is left.
fn push_for(
    alloc: Global,
    place: &Fragment,
    to: &[Fragment],
    out: &mut Vec<Fragment>,
) -> Result<(), AllocError>
    ensures { OnOk result (map text_word out.new.items ≡ map text_word out.old.items
        ++ put_for (text_word place.now) (map text_word to.now)) }
{
    let Some((head, more)) = to.split_first() else {
        return push_nothing(alloc, place, out);
    };
    push_in_place(alloc, place, place.joins, head, out)?;
    let mut rest = more;
    while let Some((next, others)) = rest.split_first() {
        push_in_place(alloc, place, next.joins, next, out)?;
        rest = others;
    }
    Ok(())
}

/// The text words behind the first so many.
fn behind(fragments: &[Fragment], count: usize) -> &[Fragment]
    ensures { result.now ≡ drop count fragments.now }
{
    if count > fragments.len() {
        return &[];
    }
    &fragments[count..]
}

/// Puts what stands in the end where the first text word stands behind those so far, and answers what is behind the x that it begins.
///
/// # Errors
///
/// Where no memory is left.
fn push_first<'a>(
    alloc: Global,
    exchanges: &[Exchange],
    fragments: &'a [Fragment],
    first: &Fragment,
    more: &'a [Fragment],
    out: &mut Vec<Fragment>,
) -> Result<&'a [Fragment], AllocError>
    ensures put { OnOk result (map text_word out.new.items ≡ map text_word out.old.items
        ++ put_by (text_word first.now)
        (first_fitting (map replacing exchanges.now) (map text_word fragments.now))) }
    ensures rest { IfOk result (λ r. r.now ≡ drop
        (part_of_x (first_fitting (map replacing exchanges.now) (map text_word fragments.now))) more.now) }
{
    let Some(exchange) = first_fitting(exchanges, fragments) else {
        push_in_place(alloc, first, first.joins, first, out)?;
        return Ok(more);
    };
    push_for(alloc, first, exchange.to.as_slice(), out)?;
    Ok(behind(more, exchange.from.len().saturating_sub(1)))
}

/// Text words with each x replaced.
///
/// # Errors
///
/// Where no memory is left.
fn exchanged(
    alloc: Global,
    exchanges: &[Exchange],
    fragments: &[Fragment],
) -> Result<Vec<Fragment>, AllocError>
    ensures { IfOk result (λ v. map text_word v.items
        ≡ exchanged (map replacing exchanges.now) 0 (map text_word fragments.now)) }
{
    let mut out = Vec::new(alloc);
    let mut rest = fragments;
    while let Some((first, more)) = rest.split_first() {
        rest = push_first(alloc, exchanges, rest, first, more, &mut out)?;
    }
    Ok(out)
}

/// Puts words with each x replaced behind those so far. From the left the first exchange that fits is made, and what is put isn't looked at again.
///
/// # Errors
///
/// Where no memory is left.
pub(crate) fn push_replaced(
    alloc: Global,
    exchanges: &[Exchange],
    words: &[Token],
    out: &mut Vec<Token>,
) -> Result<(), AllocError>
    ensures { OnOk result (lexemes out.new.items ≡ lexemes out.old.items
        ++ replaced (map replacing exchanges.now) (lexemes words.now)) }
{
    if exchanges.is_empty() {
        return push_copies(alloc, words, out);
    }
    let cut = fragments(alloc, words)?;
    let put = exchanged(alloc, exchanges, cut.as_slice())?;
    push_together(alloc, put.as_slice(), out)
}

/// Words with each x replaced, as COPY of a text with these words would put them. From the left the first exchange that fits is made, and what is put isn't
/// looked at again.
///
/// # Errors
///
/// Where no memory is left.
pub fn replaced(
    alloc: Global,
    exchanges: &[Exchange],
    words: &[Token],
) -> Result<Vec<Token>, AllocError>
    ensures { IfOk result (λ v. lexemes v.items
        ≡ replaced (map replacing exchanges.now) (lexemes words.now)) }
{
    let mut out = Vec::new(alloc);
    push_replaced(alloc, exchanges, words, &mut out)?;
    Ok(out)
}

impl Exchange {
    /// The exchange of these words, if x has a text word.
    ///
    /// # Errors
    ///
    /// Where no memory is left.
    pub fn of(alloc: Global, x: &[Token], y: &[Token]) -> Result<Option<Exchange>, AllocError>
        ensures { IfOk result (λ r. option_map replacing r
            ≡ replacing_by (lexemes x.now) (lexemes y.now)) }
    {
        let from = fragments(alloc, x)?;
        if from.is_empty() {
            return Ok(None);
        }
        let to = fragments(alloc, y)?;
        Ok(Some(Exchange { from, to }))
    }
}
