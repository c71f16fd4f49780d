ghost use Rattle.std.specs.Prelude.{◌≡◌, ◌<◌, ℕ, List, Bool, length, IfSome, IsTrue};
ghost use Rattle.cob_decimal.specs.Answers.{AnswersNumber};
ghost use Rattle.cob_codec.specs.Laws.{HasStoredLength, OneNumber, ReadsBack, RepresentsHeld};
ghost use Rattle.cob_codec.specs.Sign.{IsHeld};
ghost use Rattle.cob_codec.specs.declared.shape.Shape.{Shape};

use crate::shape::Shape;
use cob_decimal::Number;

/// A kind of storage of numbers: what the USAGE clause and SIGN SEPARATE choose.
///
/// The caller hands a shape that the kind takes, and bytes of exactly the item's length. Code that is generic over the kind proves
/// what it needs from the members, the calls and `laws`. The stored form of a number is one, since `stored` is a function of it.
pub trait Storage {
    /// The shapes that this kind takes.
    ghost takes: { Shape → Type 0 };

    /// How many bytes an item has.
    ghost size: { Shape → ℕ };

    /// The bytes of an item represent the number of these digits, negative or not, at the shape's scale.
    ghost represents: { Shape → List ℕ → Bool → List ℕ → Type 0 };

    /// The bytes that are written for such a number.
    ghost stored: { Shape → Bool → List ℕ → List ℕ };

    /// How many bytes an item has: 1 to 32.
    fn length(shape: &Shape) -> u16
        requires { takes shape.now }
        ensures { result ≡ size shape.now };

    /// The number that the bytes of an item represent: exactly the shape's digits, at its scale. None exactly where they represent no
    /// number.
    fn read(shape: &Shape, bytes: &[u8]) -> Option<Number>
        requires taken { takes shape.now }
        requires long { length bytes.now ≡ size shape.now }
        ensures found { IfSome result (λ v. represents shape.now bytes.now v.negative v.digits) }
        ensures scale { IfSome result (λ v. v.scale ≡ shape.now.scale) }
        ensures only { (negative : Bool) (digits : List ℕ)
            → represents shape.now bytes.now negative digits
            → AnswersNumber result negative digits };

    /// Writes the stored form of a number into all bytes of an item.
    ///
    /// The number has exactly the shape's digits and scale, as `Number::align` makes it, and is negative only where the shape is signed.
    fn store(shape: &Shape, number: &Number, bytes: &mut [u8])
        requires taken { takes shape.now }
        requires long { length bytes.old ≡ size shape.now }
        requires digits { length number.now.digits ≡ shape.now.digits }
        requires scale { number.now.scale ≡ shape.now.scale }
        requires sign { IsTrue number.now.negative → IsTrue shape.now.signed }
        ensures bytes { bytes.new ≡ stored shape.now number.now.negative number.now.digits }
        ensures held { IsHeld
            shape.now.digits shape.now.signed number.now.negative number.now.digits };

    /// What holds of these words: what was stored has the item's length and reads back, bytes represent at most one number, and what
    /// they represent is a number that the item can hold. It does nothing; code that is generic over the kind calls it for its clauses.
    fn laws()
        ensures stored_length { (shape : Shape) → takes shape
            → HasStoredLength shape.digits shape.signed (stored shape) (size shape) }
        ensures reads_back { (shape : Shape) → takes shape
            → ReadsBack shape.digits shape.signed (stored shape) (represents shape) }
        ensures one_number { (shape : Shape) → takes shape → OneNumber (represents shape) }
        ensures held { (shape : Shape) → takes shape
            → RepresentsHeld shape.digits shape.signed (represents shape) };
}
