//! Flaws of packed numbers.

ghost use Rattle.std.specs.Prelude.{◌≡◌, ◌≤◌, ◌+◌, ◌/◌, ℕ, List, Bool, IfNone, IfSome, length};
ghost use Rattle.cob_codec.specs.Packed.{IsPacked, halves};
ghost use Rattle.cob_limits.specs.Limits.{most_digits};
ghost use Rattle.cob_codec.specs.Flaws.{AllSuit, IsFirstFlaw, packed_wanted};

use crate::flaw::{ExpectedPart, Flaw, suits};
use crate::halves::half_at;
use crate::packed::Packed;
use crate::shape::Shape;
use crate::storage::Storage;

/// What a half byte of a packed item of so many digits has to be.
fn packed_wanted(count: u8, at: usize) -> ExpectedPart
    requires { count ≤ most_digits }
    ensures { result ≡ packed_wanted count at }
{
    let pad = usize::from((count + 1) % 2);
    if at < pad {
        ExpectedPart::Zero
    } else if at < pad + usize::from(count) {
        ExpectedPart::Digit
    } else {
        ExpectedPart::Sign
    }
}

/// The first half byte of packed bytes that isn't as its place asks.
fn first_in_packed(shape: &Shape, bytes: &[u8]) -> Option<Flaw>
    ensures found { IfSome result (IsFirstFlaw
        shape.now.signed (packed_wanted shape.now.digits) (halves bytes.now)) }
    ensures none { IfNone result (AllSuit
        shape.now.signed (packed_wanted shape.now.digits) (halves bytes.now)) }
{
    for at in 0..2 * bytes.len() {
        let found = half_at(bytes, at);
        let wanted = packed_wanted(shape.digits, at);
        if !suits(shape.signed, wanted, found) {
            return Some(Flaw { at, found, wanted });
        }
    }
    None
}

/// Why packed bytes represent no number: the first half byte that isn't as its place asks. None exactly where they represent one.
pub fn packed_flaw(shape: &Shape, bytes: &[u8]) -> Option<Flaw>
    requires { length bytes.now ≡ shape.now.digits / 2 + 1 }
    ensures found { IfSome result (IsFirstFlaw
        shape.now.signed (packed_wanted shape.now.digits) (halves bytes.now)) }
    ensures only { IfSome result (λ flaw. (negative : Bool) (digits : List ℕ)
        → IsPacked shape.now.digits shape.now.signed bytes.now negative digits → ⊥) }
    ensures none { IfNone result ((negative : Bool) × (digits : List ℕ)
        × IsPacked shape.now.digits shape.now.signed bytes.now negative digits) }
{
    match Packed::read(shape, bytes) {
        Some(_) => None,
        None => first_in_packed(shape, bytes),
    }
}
