//! The order of texts.

ghost use Rattle.std.specs.Prelude.{◌≡◌, ◌+◌, ◌<◌, true, false, ℕ, List, length, replicate};
ghost use Rattle.std.specs.Ordering.{ordering_reverse};
ghost use Rattle.cob_copybook_entry.specs.Described.{Repeated};
ghost use Rattle.cob_move_receive.specs.Characters.{AreBytesOf, GivesConstant, IsByteOf, figurative_byte};
ghost use Rattle.cob_move_condition.specs.Compared.{text_order};
ghost use Rattle.cob_move_condition.specs.Texts.{BeginsBy, first_or_space, behind_first};

use cob_copybook_tree::Figurative;
use cob_cp037::{QUOTE, SPACE, ZERO, encode_char};
use std::cmp::Ordering;

/// The first byte of a text and those behind it; a space and nothing where there is none.
fn next_byte(text: &[u8]) -> (u8, &[u8])
    ensures byte { result.0 ≡ first_or_space text.now }
    ensures behind { result.1.now ≡ behind_first text.now }
{
    match text.split_first() {
        Some((byte, behind)) => (*byte, behind),
        None => (SPACE, text),
    }
}

/// Whether something is left of one of two texts.
fn any_left(first: &[u8], second: &[u8]) -> bool
    ensures goes { result ≡ true → 0 < length first.now + length second.now }
    ensures ends { result ≡ false → length first.now + length second.now ≡ 0 }
{
    !(first.is_empty() && second.is_empty())
}

/// The order of two texts, the shorter with spaces behind it.
pub(crate) fn text_order(first: &[u8], second: &[u8]) -> Ordering
    ensures { result ≡ text_order first.now second.now }
{
    let mut left = first;
    let mut right = second;
    while any_left(left, right) {
        let (one, behind) = next_byte(left);
        let (other, others) = next_byte(right);
        if one < other {
            return Ordering::Less;
        }
        if other < one {
            return Ordering::Greater;
        }
        left = behind;
        right = others;
    }
    Ordering::Equal
}

/// The order of a text and as many times one byte.
fn fill_order(text: &[u8], fill: u8) -> Ordering
    ensures { result ≡ text_order text.now (replicate (length text.now) fill) }
{
    let mut left = text;
    while let Some((byte, behind)) = left.split_first() {
        if *byte < fill {
            return Ordering::Less;
        }
        if fill < *byte {
            return Ordering::Greater;
        }
        left = behind;
    }
    Ordering::Equal
}

/// The byte of a figurative constant.
fn figurative_byte(figurative: Figurative) -> u8
    ensures { result ≡ figurative_byte figurative }
{
    match figurative {
        Figurative::Space => SPACE,
        Figurative::Zero => ZERO,
        Figurative::HighValue => 0xFF,
        Figurative::LowValue => 0x00,
        Figurative::Quote => QUOTE,
    }
}

/// The order of a text and a figurative constant, which is as long.
pub(crate) fn figurative_order(text: &[u8], figurative: Figurative) -> Ordering
    ensures { result ≡ text_order text.now
        (replicate (length text.now) (figurative_byte figurative)) }
{
    fill_order(text, figurative_byte(figurative))
}

/// The byte of a character: its own in code page 037, and a space for one that has none there.
fn byte_of(character: u8) -> u8
    ensures { IsByteOf character result }
{
    encode_char(character).unwrap_or(SPACE)
}

/// The byte of the first character of a literal and the characters behind it; a space and nothing where there is none.
fn next_character(literal: &[u8]) -> (u8, &[u8])
    ensures coded { BeginsBy literal.now result.0 result.1.now }
    ensures behind { result.1.now ≡ behind_first literal.now }
{
    match literal.split_first() {
        Some((character, behind)) => (byte_of(*character), behind),
        None => (SPACE, literal),
    }
}

/// The order of a text and a quoted literal.
pub(crate) fn literal_order(text: &[u8], literal: &[u8]) -> Ordering
    ensures { (coded : List ℕ)
        × AreBytesOf literal.now coded × (result ≡ text_order text.now coded) }
{
    let mut left = text;
    let mut right = literal;
    while any_left(left, right) {
        let (one, behind) = next_byte(left);
        let (other, others) = next_character(right);
        if one < other {
            return Ordering::Less;
        }
        if other < one {
            return Ordering::Greater;
        }
        left = behind;
        right = others;
    }
    Ordering::Equal
}

/// The order of a text and ALL with a literal, which is as long.
pub(crate) fn repeated_order(text: &[u8], literal: &[u8]) -> Ordering
    ensures { (coded : List ℕ) × GivesConstant (Repeated literal.now) (length text.now) coded
        × (result ≡ text_order text.now coded) }
{
    if literal.is_empty() {
        return fill_order(text, SPACE);
    }
    for (at, byte) in text.iter().enumerate() {
        let other = byte_of(literal[at % literal.len()]);
        if *byte < other {
            return Ordering::Less;
        }
        if other < *byte {
            return Ordering::Greater;
        }
    }
    Ordering::Equal
}

/// The order the other way round.
pub(crate) fn reversed(order: Ordering) -> Ordering
    ensures { result ≡ ordering_reverse order }
{
    match order {
        Ordering::Less => Ordering::Greater,
        Ordering::Equal => Ordering::Equal,
        Ordering::Greater => Ordering::Less,
    }
}
