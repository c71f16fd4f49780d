//! Constants laid out, and texts compared with them.

ghost use Rattle.std.specs.Prelude.{◌≡◌, ◌+◌, ◌≤◌, ℕ, List, drop, length, take, IfOk, IfSome, IsTrue};
ghost use Rattle.std.specs.Slice.Scan.{big_endian};
ghost use Rattle.cob_copybook_entry.specs.Described.{plain_value};
ghost use Rattle.cob_move_receive.specs.Characters.{GivesConstant, padded};
ghost use Rattle.cob_move_condition.specs.Compared.{text_order};
ghost use Rattle.cob_move_constants.specs.LaidOut.{IsLaidOut};

use cob_copybook_tree::Value;
use cob_move_receive::{Sent, receive_in_group};
use std::alloc::{AllocError, Global};
use std::cmp::Ordering;

/// Whether so many bytes have room in others.
fn is_within(length: usize, size: usize) -> bool
    ensures { IsTrue result → length ≤ size }
{
    length <= size
}

/// Whether the characters of a constant have room in so many bytes. Of a number that isn't asked.
fn has_room(value: &Value, size: usize) -> bool
    ensures { IsTrue result → (text : List ℕ) → GivesConstant (plain_value value.now) size text
        → length text ≤ size }
{
    match value {
        Value::Number { .. } => false,
        Value::Literal(text) => is_within(text.as_bytes().len(), size),
        Value::Figurative(_) | Value::All(_) => true,
    }
}

/// Writes the characters of a constant from the left, with spaces behind them.
fn put_constant(value: &Value, bytes: &mut [u8])
    ensures { (text : List ℕ) × GivesConstant (plain_value value.now) (length bytes.old) text
        × (bytes.new ≡ padded (length bytes.old) text) }
{
    receive_in_group(&Sent::Constant(value), bytes);
}

/// The bytes that stand for a constant beside texts of so many bytes. None for a number, and for a literal with more characters.
///
/// # Errors
///
/// Where no memory is left.
pub fn laid_out(alloc: Global, value: &Value, size: usize) -> Result<Option<Vec<u8>>, AllocError>
    ensures laid { IfOk result
        (λ found. IfSome found (λ laid. IsLaidOut (plain_value value.now) size laid.items)) }
{
    if !has_room(value, size) {
        return Ok(None);
    }
    let mut laid = vec![in alloc; 0u8; size]?;
    put_constant(value, &mut laid);
    Ok(Some(laid))
}

/// Eight bytes from a place on, as one number.
#[inline(always)]
fn eight_from(bytes: &[u8], at: usize) -> u64
    requires { at + 8 ≤ length bytes.now }
    ensures { result ≡ big_endian 0 (take 8 (drop at bytes.now)) }
{
    u64::from_be_bytes([
        bytes[at],
        bytes[at + 1],
        bytes[at + 2],
        bytes[at + 3],
        bytes[at + 4],
        bytes[at + 5],
        bytes[at + 6],
        bytes[at + 7],
    ])
}

/// Four bytes from a place on, as one number.
#[inline(always)]
fn four_from(bytes: &[u8], at: usize) -> u32
    requires { at + 4 ≤ length bytes.now }
    ensures { result ≡ big_endian 0 (take 4 (drop at bytes.now)) }
{
    u32::from_be_bytes([bytes[at], bytes[at + 1], bytes[at + 2], bytes[at + 3]])
}

/// The order of what is left of two texts of one length from a place on, byte by byte.
#[inline(always)]
fn order_from(text: &[u8], other: &[u8], start: usize) -> Ordering
    requires long { length text.now ≡ length other.now }
    requires within { start ≤ length text.now }
    ensures { result ≡ text_order (drop start text.now) (drop start other.now) }
{
    let mut at = start;
    while at < text.len() {
        if text[at] < other[at] {
            return Ordering::Less;
        }
        if other[at] < text[at] {
            return Ordering::Greater;
        }
        at += 1;
    }
    Ordering::Equal
}

/// The order of what is left of two texts of one length from a place on: that of their next four bytes, as one number, where there are as many and they differ.
#[inline(always)]
fn order_by_fours(text: &[u8], other: &[u8], start: usize) -> Ordering
    requires long { length text.now ≡ length other.now }
    requires within { start ≤ length text.now }
    ensures { result ≡ text_order (drop start text.now) (drop start other.now) }
{
    if text.len() - start < 4 {
        return order_from(text, other, start);
    }
    let one = four_from(text, start);
    let two = four_from(other, start);
    if one < two {
        return Ordering::Less;
    }
    if two < one {
        return Ordering::Greater;
    }
    order_from(text, other, start + 4)
}

/// The order of two texts of one length. Eight bytes are looked at as one number, whose order is theirs.
#[inline(always)]
pub fn order_of_equals(text: &[u8], other: &[u8]) -> Ordering
    requires { length text.now ≡ length other.now }
    ensures order { result ≡ text_order text.now other.now }
{
    let mut at = 0;
    while text.len() - at >= 8 {
        let one = eight_from(text, at);
        let two = eight_from(other, at);
        if one < two {
            return Ordering::Less;
        }
        if two < one {
            return Ordering::Greater;
        }
        at += 8;
    }
    order_by_fours(text, other, at)
}
