//! The exchanges that an option says.

use crate::fault::BookRefusal;
use cob_source::{SourceRule, Token, tokens};
use cob_source_copies::Exchange;
use std::alloc::{AllocError, Global};

/// How many columns the area of a line has, from 8 to 72.
const AREA: usize = 65;

/// The words of one side of an exchange, as they would stand in the area of a line.
fn words_of(alloc: Global, said: &str) -> Result<Vec<Token>, BookRefusal> {
    if said.len() > AREA {
        return Err(BookRefusal::BadReplace);
    }
    let mut line = Vec::from_slice(alloc, b"       ")?;
    line.extend_from_slice(said.as_bytes())?;
    match tokens(alloc, line.as_slice()) {
        Ok(words) => Ok(words),
        Err(fault) => match fault.rule {
            SourceRule::Memory => Err(BookRefusal::Memory),
            _ => Err(BookRefusal::BadReplace),
        },
    }
}

/// The exchange that `x=y` says.
fn exchange_of(alloc: Global, said: &str) -> Result<Exchange, BookRefusal> {
    let Some((x, y)) = said.split_once('=') else {
        return Err(BookRefusal::BadReplace);
    };
    let from = words_of(alloc, x)?;
    let to = words_of(alloc, y)?;
    match Exchange::of(alloc, from.as_slice(), to.as_slice())? {
        Some(exchange) => Ok(exchange),
        None => Err(BookRefusal::BadReplace),
    }
}

/// The exchanges that an option says: `x=y`, parted by semicolons.
///
/// # Errors
///
/// One of them is none; want of memory.
pub(crate) fn exchanges_of(alloc: Global, said: &str) -> Result<Vec<Exchange>, BookRefusal> {
    let mut exchanges = Vec::new(alloc);
    for part in said.split(';') {
        exchanges.push(exchange_of(alloc, part)?)?;
    }
    Ok(exchanges)
}
