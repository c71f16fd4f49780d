//! Flaws of zoned numbers.

ghost use Rattle.std.specs.Prelude.{◌≡◌, ◌<◌, ℕ, List, Bool, IfNone, IfSome, length};
ghost use Rattle.cob_codec.specs.Packed.{halves};
ghost use Rattle.cob_codec.specs.Flaws.{AllSuit, IsFirstFlaw, IsZonedBy, zoned_wanted, zoned_wanted_in};

use crate::flaw::{ExpectedPart, Flaw, suits};
use crate::halves::half_at;
use crate::shape::Shape;
use crate::storage::Storage;
use crate::zoned::{Zoned, sign_place};

/// What a half byte of a zoned item has to be, whose sign stands in this byte.
fn zoned_wanted(place: usize, at: usize) -> ExpectedPart
    ensures { result ≡ zoned_wanted place at }
{
    if at % 2 == 1 {
        ExpectedPart::Digit
    } else if at / 2 == place {
        ExpectedPart::Sign
    } else {
        ExpectedPart::Zone
    }
}

/// The first half byte of zoned bytes that isn't as its place asks.
fn first_in_zoned(shape: &Shape, bytes: &[u8]) -> Option<Flaw>
    requires { 0 < length bytes.now }
    ensures found { IfSome result (IsFirstFlaw shape.now.signed
        (zoned_wanted_in shape.now (length bytes.now))
        (halves bytes.now)) }
    ensures none { IfNone result (AllSuit shape.now.signed
        (zoned_wanted_in shape.now (length bytes.now))
        (halves bytes.now)) }
{
    let place = sign_place(shape.signed, shape.leading, bytes.len());
    for at in 0..2 * bytes.len() {
        let found = half_at(bytes, at);
        let wanted = zoned_wanted(place, at);
        if !suits(shape.signed, wanted, found) {
            return Some(Flaw { at, found, wanted });
        }
    }
    None
}

/// Why zoned bytes represent no number: the first half byte that isn't as its place asks. None exactly where they represent one.
pub fn zoned_flaw(shape: &Shape, bytes: &[u8]) -> Option<Flaw>
    requires { length bytes.now ≡ shape.now.digits }
    ensures found { IfSome result (IsFirstFlaw shape.now.signed
        (zoned_wanted_in shape.now (length bytes.now))
        (halves bytes.now)) }
    ensures only { IfSome result (λ flaw. (negative : Bool) (digits : List ℕ)
        → IsZonedBy shape.now bytes.now negative digits
        → ⊥) }
    ensures none { IfNone result ((negative : Bool) × (digits : List ℕ)
        × IsZonedBy shape.now bytes.now negative digits) }
{
    match Zoned::read(shape, bytes) {
        Some(_) => None,
        None => first_in_zoned(shape, bytes),
    }
}
