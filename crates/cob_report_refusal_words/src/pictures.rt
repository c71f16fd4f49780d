//! Pictures that are refused.

use crate::entry::{picture_word, word_of};
use crate::phrases::{Part, Phrase};
use crate::told::{Caret, Told, said_plainly};
use cob_copybook_clauses::WordClass;
use cob_picture::{Picture, PictureFault};
use cob_source::Token;

/// A symbol of a picture with its repeat.
#[derive(Clone, Copy)]
struct Piece {
    /// Its first character.
    symbol: u8,
    /// How often it stands there.
    count: u32,
    /// How many characters it is written with.
    length: usize,
}

/// The number that a digit is the last of, behind these others.
fn with_digit(number: u32, digit: u8) -> u32 {
    number
        .saturating_mul(10)
        .saturating_add(u32::from(digit.saturating_sub(b'0')))
}

/// The number behind a bracket that opens, and how many characters it takes with both brackets.
fn number_in_bracket(inside: &[u8]) -> (u32, usize) {
    let mut number: u32 = 0;
    let mut length: usize = 1;
    for character in inside {
        length = length.saturating_add(1);
        if *character == b')' {
            return (number, length);
        }
        number = with_digit(number, *character);
    }
    (number, length)
}

/// The number in a bracket in front, and how many characters it takes with both brackets; nothing where none stands there.
fn repeat_in_front(text: &[u8]) -> (u32, usize) {
    match text.first() {
        Some(b'(') => number_in_bracket(behind_many(text, 1)),
        _ => (1, 0),
    }
}

/// How many characters the symbol in front has.
fn symbol_len(text: &[u8]) -> usize {
    if text.starts_with(b"CR".as_slice()) || text.starts_with(b"DB".as_slice()) {
        2
    } else {
        1
    }
}

/// The symbol of a picture in front, of which this is the first character, with its repeat.
fn piece_of(symbol: u8, text: &[u8]) -> Piece {
    let own = symbol_len(text);
    let (count, repeat) = repeat_in_front(behind_many(text, own));
    Piece {
        symbol,
        count,
        length: own.saturating_add(repeat),
    }
}

/// The first symbol of a picture with its repeat.
fn piece_in_front(text: &[u8]) -> Option<Piece> {
    match text.first() {
        Some(symbol) => Some(piece_of(*symbol, text)),
        None => None,
    }
}

/// A text behind so many characters.
fn behind_many(text: &[u8], count: usize) -> &[u8] {
    let (_, rest) = text.split_at(count.min(text.len()));
    rest
}

/// So many characters of a text.
fn front_of(text: &[u8], count: usize) -> &[u8] {
    let (front, _) = text.split_at(count.min(text.len()));
    front
}

/// Whether no picture has these symbols in this order.
fn is_out_of_order(front: &[u8]) -> bool {
    matches!(Picture::read(front), Err(PictureFault::Order))
}

/// How many characters of a text stand in the longest front of it that some picture has.
fn good_front(text: &[u8]) -> usize {
    let mut end: usize = 0;
    let mut good: usize = 0;
    for _ in 0..text.len() {
        let Some(piece) = piece_in_front(behind_many(text, end)) else {
            return good;
        };
        end = end.saturating_add(piece.length).min(text.len());
        if !is_out_of_order(front_of(text, end)) {
            good = end;
        }
    }
    good
}

/// How often a symbol stands in a text, a repeat as once.
fn count_of(text: &[u8], symbol: u8) -> u32 {
    let mut count: u32 = 0;
    for character in text {
        if *character == symbol {
            count = count.saturating_add(1);
        }
    }
    count
}

/// How the symbol is told that stands out of order, as many of which stand before it.
fn order_form(before: u32) -> &'static str {
    match before {
        0 => "in PIC {} the {} may not stand behind what is before it",
        1 => "in PIC {} the second {} may not stand behind what is before it",
        2 => "in PIC {} the third {} may not stand behind what is before it",
        _ => "in PIC {} the next {} may not stand behind what is before it",
    }
}

/// How many digits a symbol with its repeat has.
fn digits_of(piece: Piece) -> u32 {
    match piece.symbol {
        b'9' | b'Z' | b'*' | b'P' => piece.count,
        _ => 0,
    }
}

/// How many digits the symbols of a picture have.
fn digits_in(text: &[u8]) -> u32 {
    let mut digits: u32 = 0;
    let mut rest = text;
    for _ in 0..text.len() {
        let Some(piece) = piece_in_front(rest) else {
            return digits;
        };
        digits = digits.saturating_add(digits_of(piece));
        rest = behind_many(rest, piece.length);
    }
    digits
}

/// What is wrong with the order of symbols.
fn order_words(text: &[u8]) -> Phrase<'_> {
    let good = good_front(text);
    let rest = behind_many(text, good);
    match rest.first() {
        Some(symbol) => Phrase::of_two(
            order_form(count_of(front_of(text, good), *symbol)),
            Part::Bytes(text),
            Part::Bytes(front_of(rest, 1)),
        ),
        None => Phrase::of(
            "the symbols of PIC {} stand in an order that no picture has",
            Part::Bytes(text),
        ),
    }
}

/// What is wrong with the number of digits.
fn digit_words(text: &[u8]) -> Phrase<'_> {
    match digits_in(text) {
        0 => Phrase::of("PIC {} has no digit", Part::Bytes(text)),
        digits => Phrase::of_two(
            "PIC {} has {} digits, and 31 are the most",
            Part::Bytes(text),
            Part::Number(digits as usize),
        ),
    }
}

/// Whether a character begins a symbol.
fn is_symbol(character: u8) -> bool {
    b"AX9SVPB0/,.Z*$+-CD()".as_slice().contains(&character)
}

/// A picture from its first symbol on that is none.
fn from_unknown(text: &[u8]) -> &[u8] {
    let mut rest = text;
    for _ in 0..text.len() {
        let Some(piece) = piece_in_front(rest) else {
            return rest;
        };
        if !is_symbol(piece.symbol) {
            return rest;
        }
        rest = behind_many(rest, piece.length);
    }
    rest
}

/// What is wrong with a symbol that is none.
fn symbol_words(text: &[u8]) -> Phrase<'_> {
    let rest = from_unknown(text);
    if rest.is_empty() {
        return Phrase::of("a character of PIC {} is no symbol", Part::Bytes(text));
    }
    Phrase::of_two(
        "in PIC {} {} is no symbol",
        Part::Bytes(text),
        Part::Bytes(front_of(rest, 1)),
    )
}

/// The symbols that are left out, and how each is told.
static LEFT_OUT: [(u8, &str); 5] = [
    (b'N', "in PIC {} N is left out: it is a national character"),
    (
        b'E',
        "in PIC {} E is left out: it is a number with an exponent",
    ),
    (
        b'G',
        "in PIC {} G is left out: it is a character of two bytes",
    ),
    (b'U', "in PIC {} U is left out: it is a character in UTF-8"),
    (b'P', "in PIC {} P is left out in an edited picture"),
];

/// How a symbol is told that is left out.
fn left_out_form(text: &[u8]) -> &'static str {
    for (symbol, form) in &LEFT_OUT {
        if text.contains(symbol) {
            return *form;
        }
    }
    "in PIC {} a currency sign before a floating sign is left out"
}

/// What is wrong with a picture.
fn what_of(text: &[u8], fault: PictureFault) -> Phrase<'_> {
    let form = match fault {
        PictureFault::Empty => "no picture stands behind PIC",
        PictureFault::UnknownSymbol => return symbol_words(text),
        PictureFault::BadRepeat => {
            "in PIC {} a bracket holds no number above 0, or stands behind no symbol"
        }
        PictureFault::Order => return order_words(text),
        PictureFault::Digits => return digit_words(text),
        PictureFault::TooLong => {
            "PIC {} has over 50 characters, or more bytes than an item may have"
        }
        PictureFault::LeftOut => left_out_form(text),
    };
    Phrase::of(form, Part::Bytes(text))
}

/// Whether an entry is a packed number.
fn is_packed(entry: &[Token]) -> bool {
    for word in entry {
        if word.text.as_slice() == b"COMP-3".as_slice() {
            return true;
        }
    }
    false
}

/// Which characters have the bytes of a packed item with so many digits.
fn packed_words(digits: usize) -> Phrase<'static> {
    Phrase::of_two(
        "PIC X({}) has the bytes of a packed item of {} digits",
        Part::Number((digits / 2).saturating_add(1)),
        Part::Number(digits),
    )
}

/// What to do where a number has too many digits.
fn digits_hint(entry: &[Token], text: &[u8]) -> Option<Phrase<'static>> {
    let digits = digits_in(text) as usize;
    if digits == 0 {
        return None;
    }
    if is_packed(entry) {
        return Some(packed_words(digits));
    }
    if word_of(entry, WordClass::UsageName).is_some() {
        return None;
    }
    Some(Phrase::of("PIC X({}) has its bytes", Part::Number(digits)))
}

/// Where the rules of pictures stand.
const PICTURES: &str = "PROFILE.md, Pictures";

/// Whether symbols are those of a number that is stored.
fn is_stored(symbols: &[u8]) -> bool {
    symbols.contains(&b'S') || symbols.contains(&b'V')
}

/// What to do with symbols that are out of order: a point or a comma that is printed stands in no picture with S or V.
fn order_hint(text: &[u8]) -> &'static str {
    let good = good_front(text);
    if !is_stored(front_of(text, good)) {
        return PICTURES;
    }
    match text.get(good) {
        Some(b'.') => {
            "S and V stand in numbers that are stored, and the point in printed ones: write V for the point, or - for S"
        }
        Some(b',') => {
            "S and V stand in numbers that are stored, and the comma in printed ones: leave the comma out, or write - for S and . for V"
        }
        _ => PICTURES,
    }
}

/// What to do with a picture that is none, if that is known.
fn hint_of(entry: &[Token], text: &[u8], fault: PictureFault) -> Option<Phrase<'static>> {
    match fault {
        PictureFault::Digits => digits_hint(entry, text),
        PictureFault::LeftOut => Some(Phrase::plain("PIC X with as many bytes has its storage")),
        PictureFault::Order => Some(Phrase::plain(order_hint(text))),
        _ => Some(Phrase::plain(PICTURES)),
    }
}

/// What is told of an entry whose picture is none.
pub(crate) fn told_picture(entry: &[Token], fault: PictureFault) -> Told<'_> {
    let Some(word) = picture_word(entry) else {
        return said_plainly(entry, "the picture is none");
    };
    let text = word.text.as_slice();
    Told {
        at: Some(Caret::under(word)),
        what: what_of(text, fault),
        hint: hint_of(entry, text, fault),
    }
}
