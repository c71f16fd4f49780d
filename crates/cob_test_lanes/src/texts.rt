//! Senders of characters and edited ones, with drawn bytes.

ghost use Rattle.std.specs.Prelude.{◌≡◌, ◌≤◌, length, IsTrue, vec_len};
ghost use Rattle.cob_picture.specs.Positions.{shows_number};

use crate::draws::Draws;
use crate::senders::{Drawn, drawn_parts, front, push_spoiled};
use cob_copybook_tree::Item;
use cob_decimal::{Digits, MAX_DIGITS, Number};
use cob_edit::edit;
use std::alloc::{AllocError, Global};

/// Whether an item shows a number: it has digits.
fn shows_digits(item: &Item) -> bool
    ensures { result ≡ shows_number item.now.picture.category }
{
    item.picture.digits() > 0
}

/// These digits, as many as a number has.
fn digits_of(digits: &[u8]) -> Digits {
    let mut list = Digits::new();
    for digit in digits {
        if list.as_slice().len() < MAX_DIGITS {
            list.push(*digit % 10);
        }
    }
    list
}

/// The text of a number, of these digits in the places of an edited item.
pub fn text_of(
    alloc: Global,
    item: &Item,
    negative: bool,
    digits: &[u8],
) -> Result<Vec<u8>, AllocError> {
    let mut text = vec![in alloc; 0x40u8; usize::from(item.picture.size())]?;
    if shows_digits(item) {
        let number = Number::new(negative, digits_of(digits), item.picture.scale());
        edit(&item.picture, item.blank, &number, text.as_mut_slice());
    }
    Ok(text)
}

/// Digits as characters.
fn numerals(alloc: Global, digits: &[u8]) -> Result<Vec<u8>, AllocError> {
    let mut text = Vec::new(alloc);
    for digit in digits {
        text.push(0xF0 | *digit)?;
    }
    Ok(text)
}

/// How many digits are drawn: as many as an edited item shows, or one for each character.
fn count_of(item: &Item) -> usize
    ensures { result ≤ 31 }
{
    if item.picture.digits() > 0 {
        usize::from(item.picture.digits())
    } else if item.size() <= 31 {
        usize::from(item.size())
    } else {
        31
    }
}

/// The bytes of a record up to those of an item of characters or an edited one at its end: digits, or the text of a number.
pub fn drawn_text(alloc: Global, item: &Item, draws: &mut Draws) -> Result<Vec<u8>, AllocError> {
    let mut record = front(alloc, draws)?;
    let drawn = drawn_parts(draws, count_of(item), item.picture.signed());
    let digits = &drawn.digits[..drawn.count];
    let mut text = if shows_digits(item) {
        text_of(
            alloc,
            item,
            item.picture.signed() && drawn.is_minus(),
            digits,
        )?
    } else {
        numerals(alloc, digits)?
    };
    push_spoiled(&mut record, text.as_mut_slice(), draws)?;
    Ok(record)
}
