//! Numbers that are not below zero, in few steps where digits stand in zone F, or the number is packed or binary.

ghost use Rattle.std.specs.Prelude.{◌≡◌, ◌+◌, ◌/◌, ◌%◌, ◌≤◌, ◌<◌, ◌^◌, ℕ, List, Bool, false, length, slice_index, IfSome, IsTrue, Some};
ghost use Rattle.byteorder.specs.Endian.{big_number};
ghost use Rattle.cob_codec.specs.Binary.{IsBinary, binary_length};
ghost use Rattle.cob_codec.specs.Naturals.{IsNaturalOf};
ghost use Rattle.cob_codec.specs.Packed.{IsPacked, halves};
ghost use Rattle.cob_codec.specs.Sign.{sign_meaning};
ghost use Rattle.cob_codec.specs.Zoned.{IsZoned, digit_bytes};
ghost use Rattle.cob_decimal.specs.Decimal.{IsDigits, number_of};

use crate::binary::Binary;
use crate::packed::Packed;
use crate::zoned::Zoned;
use byteorder::{BigEndian, ByteOrder};
use cob_cp037::ZERO;

/// The most digits of a number that is read in few steps: those that a `u32` always holds.
const MOST_QUICK_DIGITS: u8 = 9;

/// The number of bytes that are digits in zone F.
fn number_of_text(bytes: &[u8]) -> Option<u32>
    requires few { length bytes.now ≤ 9 }
    ensures { IfSome result (λ v. (digits : List ℕ) × IsDigits digits
        × (bytes.now ≡ digit_bytes digits) × (v ≡ number_of digits)) }
{
    let mut value = 0;
    for byte in bytes {
        if *byte < ZERO {
            return None;
        }
        let digit = *byte - ZERO;
        if digit > 9 {
            return None;
        }
        value = value * 10 + u32::from(digit);
    }
    Some(value)
}

/// The number of half bytes that are all digits.
fn number_of_halves(bytes: &[u8]) -> Option<u32>
    requires few { length bytes.now ≤ 4 }
    ensures { IfSome result (λ v. IsDigits (halves bytes.now)
        × (v ≡ number_of (halves bytes.now))) }
{
    let mut value = 0;
    for byte in bytes {
        let high = *byte / 16;
        let low = *byte % 16;
        if high > 9 || low > 9 {
            return None;
        }
        value = value * 100 + u32::from(high) * 10 + u32::from(low);
    }
    Some(value)
}

/// Whether a sign code is plus, be the item signed or not.
fn is_plus(code: u8) -> bool
    ensures { IsTrue result → (signed : Bool) → sign_meaning signed code ≡ Some false }
{
    match code {
        0xA | 0xC | 0xE | 0xF => true,
        _ => false,
    }
}

/// Whether an even number of digits has a zero in front of them.
fn is_padded(count: u8, front: &[u8]) -> bool
    ensures { IsTrue result → count % 2 ≡ 0 → slice_index front.now 0 ≤ 9 }
{
    if count % 2 == 1 {
        return true;
    }
    match front.first() {
        Some(byte) => *byte <= 9,
        None => true,
    }
}

/// The unsigned number of a binary item's bytes, of which there are at most four.
fn few_unsigned_in(count: u8, bytes: &[u8]) -> u32
    requires few { count ≤ 9 }
    requires long { length bytes.now ≡ binary_length count }
    ensures { result ≡ big_number (length bytes.now) bytes.now }
{
    if count <= 4 {
        u32::from(BigEndian::read_u16(bytes))
    } else {
        BigEndian::read_u32(bytes)
    }
}

/// A power of ten that a `u32` holds.
fn few_power_of_ten(exponent: u8) -> u32
    requires { exponent ≤ 9 }
    ensures { result ≡ 10 ^ exponent }
{
    match exponent {
        0 => 1,
        1 => 10,
        2 => 100,
        3 => 1_000,
        4 => 10_000,
        5 => 100_000,
        6 => 1_000_000,
        7 => 10_000_000,
        8 => 100_000_000,
        _ => 1_000_000_000,
    }
}

impl Zoned {
    /// The number of zoned bytes, if all their digits stand in zone F and are few. None says nothing of the bytes.
    #[inline(always)]
    pub fn natural(bytes: &[u8]) -> Option<u32>
        requires { 0 < length bytes.now }
        ensures { IfSome result (λ v. (count : ℕ) (signed leading : Bool)
            → length bytes.now ≡ count → IsNaturalOf (IsZoned count signed leading) bytes.now v) }
    {
        if bytes.len() > usize::from(MOST_QUICK_DIGITS) {
            return None;
        }
        number_of_text(bytes)
    }
}

impl Packed {
    /// The number of packed bytes of so many digits, if its sign is plus and they are few. None says nothing of the bytes.
    #[inline(always)]
    pub fn natural(count: u8, bytes: &[u8]) -> Option<u32>
        requires some { 0 < count }
        requires long { length bytes.now ≡ count / 2 + 1 }
        ensures { IfSome result (λ v. (signed : Bool)
            → IsNaturalOf (IsPacked count signed) bytes.now v) }
    {
        if count > MOST_QUICK_DIGITS {
            return None;
        }
        let end = bytes.len() - 1;
        let front = &bytes[..end];
        let last = bytes[end];
        let digit = last / 16;
        if digit > 9 {
            return None;
        }
        if !is_plus(last % 16) {
            return None;
        }
        if !is_padded(count, front) {
            return None;
        }
        match number_of_halves(front) {
            Some(value) => Some(value * 10 + u32::from(digit)),
            None => None,
        }
    }
}

impl Binary {
    /// The number of binary bytes under so many digits, if it is not below zero, the digits hold it, and they are few. None says nothing of
    /// the bytes.
    ///
    /// The bytes of a number below zero are those of an unsigned one that no such digits hold.
    #[inline(always)]
    pub fn natural(count: u8, bytes: &[u8]) -> Option<u32>
        requires { length bytes.now ≡ binary_length count }
        ensures { IfSome result (λ v. (signed : Bool)
            → IsNaturalOf (IsBinary count signed) bytes.now v) }
    {
        if count > MOST_QUICK_DIGITS {
            return None;
        }
        let number = few_unsigned_in(count, bytes);
        if number >= few_power_of_ten(count) {
            return None;
        }
        Some(number)
    }
}
