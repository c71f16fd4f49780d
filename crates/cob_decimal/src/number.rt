//! Decimal numbers.

ghost use Rattle.std.specs.Prelude.{◌≡◌, ◌<◌, ◌≤◌, ◌≤ℤ◌, ◌↔◌, length, IsTrue, IfSome, IfNone, ◌≢◌};
ghost use Rattle.cob_limits.specs.Limits.{greatest_scale, least_scale, most_digits};
ghost use Rattle.cob_decimal.specs.Decimal.{number_of, aligned};
ghost use Rattle.cob_decimal.specs.Literals.{Literal, IsLiteral, IsValueOf, literal_text, IsNumberText};

use crate::literal::{is_literal, or_empty, split_point, split_sign};
use crate::number_text::{places, without_zeros, write_fraction, write_whole, zeros_of};
use crate::{Digits, MAX_DIGITS, MAX_SCALE, MIN_SCALE};
use arrayvec::ArrayVec;

/// A decimal number: its digits, read as a whole number, times ten to the power of minus the scale, with a sign.
///
/// The digits 3 4 5 6 with scale 1 are 345.6, and 3 with scale -2 is 300. Zero is never negative. Zeros in front are kept, so a
/// number remembers how many digits it was given.
#[derive(Drop)]
pub struct Number {
    negative: bool,
    digits: Digits,
    scale: i8,
    pub ghost nonzero: { IsTrue negative → 0 < number_of digits },
    pub ghost low: { least_scale ≤ℤ scale },
    pub ghost high: { scale ≤ℤ greatest_scale },
}

impl Number {
    /// The number of these parts. A zero loses its minus.
    pub fn new(negative: bool, digits: Digits, scale: i8) -> Number
        requires low { least_scale ≤ℤ scale }
        requires high { scale ≤ℤ greatest_scale }
        ensures sign { IsTrue result.negative ↔ (IsTrue negative × (0 < number_of digits)) }
        ensures digits { result.digits ≡ digits }
        ensures scale { result.scale ≡ scale }
    {
        let negative = negative && !digits.is_zero();
        Number {
            negative,
            digits,
            scale,
        }
    }

    /// The number that a numeric literal stands for, and `None` where the text is no numeric literal.
    ///
    /// A numeric literal is `[+ or -] digits [. digits]` or `[+ or -] . digits`, with 1 to [`MAX_DIGITS`] digits in all. The scale
    /// is the count of digits behind the point. (ANSI X3.23-1985, Language Concepts: numeric literals.)
    pub fn of_text(text: &[u8]) -> Option<Number>
        // What is read is a literal, with its value.
        ensures found { IfSome result (λ n. (l : Literal)
            × IsLiteral l × (text.now ≡ literal_text l) × IsValueOf l n.negative n.digits n.scale) }
        // Every literal is read.
        ensures only { IfNone result ((l : Literal) → IsLiteral l → text.now ≢ literal_text l) }
    {
        let (sign, unsigned) = split_sign(text);
        let (whole, fraction) = split_point(unsigned);
        if !is_literal(whole, fraction) {
            return None;
        }
        let mut digits = Digits::new();
        digits.push_text(whole);
        let fraction = or_empty(fraction);
        digits.push_text(fraction);
        Some(Number::new(sign == Some(true), digits, fraction.len() as i8))
    }

    /// Writes the number as text in place of what `out` holds: `-0.50`, `300`, `0`.
    ///
    /// A minus stands before a negative number. The whole part has no zero in front, and is `0` where there is nothing else. A
    /// positive scale is followed by a point and by as many digits; for a negative one the zeros left of the point are written.
    pub fn write_text(&self, out: &mut ArrayVec<u8, 64>)
        ensures { IsNumberText self.now.negative
            (number_of self.now.digits) self.now.scale out.new.items }
    {
        let digits = self.digits.as_slice();
        let places = places(self.scale);
        let point = digits.len().saturating_sub(places);
        out.clear();
        if self.negative {
            out.push(b'-');
        }
        let zeros = zeros_of(self.scale) as usize;
        write_whole(out, without_zeros(&digits[..point]), zeros);
        write_fraction(out, &digits[point..], places);
    }

    /// The number put into `digits` digits at `scale`, as a MOVE puts it into a numeric receiver.
    ///
    /// The points are put one on another, the receiver's missing digits are zeros, and digits beyond it are cut at both ends and
    /// never rounded. The minus stays only where the receiver is `signed` and something is left. (ANSI X3.23-1985, Nucleus: the MOVE
    /// statement; Language Concepts: standard alignment rules.)
    pub fn align(&self, digits: u8, scale: i8, signed: bool) -> Number
        requires most { digits ≤ most_digits }
        requires low { least_scale ≤ℤ scale }
        requires high { scale ≤ℤ greatest_scale }
        ensures length { length result.digits ≡ digits }
        ensures magnitude { number_of result.digits
            ≡ aligned (number_of self.now.digits) self.now.scale scale digits }
        ensures sign { IsTrue result.negative
            ↔ (IsTrue self.now.negative × IsTrue signed × (0 < number_of result.digits)) }
        ensures scale { result.scale ≡ scale }
    {
        let shift = i16::from(scale) - i16::from(self.scale);
        let mut moved = Digits::new();
        for place in 0..digits {
            let power = i16::from(digits - 1 - place);
            let digit = self.digits.digit(power - shift);
            moved.push(digit);
        }
        Number::new(self.negative && signed, moved, scale)
    }

    /// Whether the number is below zero.
    pub fn negative(&self) -> bool
        ensures { result ≡ self.now.negative }
    {
        self.negative
    }

    /// The digits, the highest first.
    pub fn digits(&self) -> &Digits
        ensures { result.now ≡ self.now.digits }
    {
        &self.digits
    }

    /// How many of the digits stand behind the point; below zero, how many places lie between the last digit and the point.
    pub fn scale(&self) -> i8
        ensures value { result ≡ self.now.scale }
        ensures low { least_scale ≤ℤ result }
        ensures high { result ≤ℤ greatest_scale }
    {
        self.scale
    }

    /// The same number once more. It takes no memory, and so cannot fail.
    pub fn clone(&self) -> Number
        ensures { result ≡ self.now }
    {
        Number {
            negative: self.negative,
            digits: self.digits.clone(),
            scale: self.scale,
        }
    }
}
