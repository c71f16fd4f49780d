//! Flaws of numbers with a separate sign.

ghost use Rattle.std.specs.Prelude.{◌≡◌, ◌+◌, ◌-◌, ◌<◌, ℕ, List, Bool, if◌then◌else◌, IsTrue, IfNone, IfSome, length};
ghost use Rattle.cob_codec.specs.Separate.{IsSignedSeparately};
ghost use Rattle.cob_codec.specs.Flaws.{AllSuit, IsFirstFlaw, separate_wanted, separate_wanted_in};

use crate::flaw::{ExpectedPart, Flaw, suits};
use crate::separate::Separate;
use crate::shape::Shape;
use crate::storage::Storage;

/// The number of the byte of so many that has the sign: the first where the sign leads, else the last.
fn sign_byte_at(leads: bool, count: usize) -> usize
    requires { 0 < count }
    ensures { result ≡ (if leads then 0 else count - 1) }
{
    if leads { 0 } else { count - 1 }
}

/// What a byte has to be, where the sign's byte has this number.
fn separate_wanted(place: usize, at: usize) -> ExpectedPart
    ensures { result ≡ separate_wanted place at }
{
    if at == place {
        ExpectedPart::SignByte
    } else {
        ExpectedPart::DigitByte
    }
}

/// The first byte of a number with a separate sign that isn't as its place asks.
fn first_in_separate(shape: &Shape, bytes: &[u8]) -> Option<Flaw>
    requires { 0 < length bytes.now }
    ensures found { IfSome result (IsFirstFlaw shape.now.signed
        (separate_wanted_in shape.now (length bytes.now)) bytes.now) }
    ensures none { IfNone result (AllSuit shape.now.signed
        (separate_wanted_in shape.now (length bytes.now)) bytes.now) }
{
    let place = sign_byte_at(shape.leading, bytes.len());
    for (at, found) in bytes.iter().enumerate() {
        let wanted = separate_wanted(place, at);
        if !suits(shape.signed, wanted, *found) {
            return Some(Flaw {
                at,
                found: *found,
                wanted,
            });
        }
    }
    None
}

/// Why bytes with a separate sign represent no number: the first byte that isn't as its place asks. None exactly where they represent one.
pub fn separate_flaw(shape: &Shape, bytes: &[u8]) -> Option<Flaw>
    requires taken { IsTrue shape.now.signed }
    requires long { length bytes.now ≡ shape.now.digits + 1 }
    ensures found { IfSome result (IsFirstFlaw shape.now.signed
        (separate_wanted_in shape.now (length bytes.now)) bytes.now) }
    ensures only { IfSome result (λ flaw. (negative : Bool) (ds : List ℕ)
        → IsSignedSeparately shape.now.digits shape.now.leading bytes.now negative ds → ⊥) }
    ensures none { IfNone result ((negative : Bool) × (digits : List ℕ)
        × IsSignedSeparately shape.now.digits shape.now.leading bytes.now negative digits) }
{
    match Separate::read(shape, bytes) {
        Some(_) => None,
        None => first_in_separate(shape, bytes),
    }
}
