//! Lists of decimal digits.

ghost use Rattle.std.specs.Prelude.{◌≡◌, ◌+◌, ◌<◌, ◌≤◌, ◌↔◌, [], ◌∷◌, ◌++◌, length, IsTrue, ◌==◌};
ghost use Rattle.std.specs.List.{list_all};
ghost use Rattle.cob_limits.specs.Limits.{most_digits};
ghost use Rattle.cob_decimal.specs.Decimal.{IsDigits, number_of, digit_at};
ghost use Rattle.cob_decimal.specs.Literals.{AreDigits, digits_in};

use crate::MAX_DIGITS;
use arrayvec::ArrayVec;
use std::marker::Model;

/// At most [`MAX_DIGITS`] decimal digits, the highest first.
///
/// Contracts see the list of the digits, each 0 to 9. A zero in front is a digit like another: `0 7` and `7` stand for one number,
/// and are two lists.
#[derive(Drop, PartialEq, Eq)]
pub struct Digits {
    items: ArrayVec<u8, MAX_DIGITS>,
}

impl Model for Digits {
    ghost use Rattle.std.specs.Prelude.{List, ℕ, ◌≤◌, length};
    ghost use Rattle.cob_decimal.specs.Decimal.{IsDigits};

    ghost Value = { List ℕ };

    ghost view = { λ d. d.items.items };

    ghost invariant = { λ d. IsDigits d.items.items };

    ghost inverse = { λ ds. record { items = record { items = ds } } };
}

impl Digits {
    /// No digits.
    pub fn new() -> Digits
        ensures { result ≡ [] }
    {
        Digits {
            items: ArrayVec::new(),
        }
    }

    /// These digits, the highest first.
    pub fn from_slice(digits: &[u8]) -> Digits
        requires digits { IsDigits digits.now }
        requires room { length digits.now ≤ most_digits }
        ensures { result ≡ digits.now }
    {
        let mut copy = Digits::new();
        for digit in digits {
            copy.push(*digit);
        }
        copy
    }

    /// Adds a digit at the end, as the lowest.
    pub fn push(&mut self, digit: u8)
        requires digit { digit < 10 }
        requires room { length self.old < most_digits }
        ensures { self.new ≡ self.old ++ digit ∷ [] }
    {
        self.items.push(digit);
    }

    /// The digits, the highest first.
    pub fn as_slice(&self) -> &[u8]
        ensures value { result.now ≡ self.now }
        ensures digits { IsDigits self.now }
        ensures fits { length self.now ≤ most_digits }
    {
        self.items.as_slice()
    }

    /// Whether the digits stand for zero. No digits do.
    #[tactic(auto, using(crate::proofs::DecimalLemmas::all_zero))]
    pub fn is_zero(&self) -> bool
        ensures { IsTrue result ↔ (number_of self.now ≡ 0) }
    {
        are_zeros(self.items.as_slice())
    }

    /// The same digits once more. It takes no memory, and so cannot fail.
    pub fn clone(&self) -> Digits
        ensures { result ≡ self.now }
    {
        Digits::from_slice(self.as_slice())
    }

    /// Adds the digits of a text.
    pub(crate) fn push_text(&mut self, text: &[u8])
        requires digits { AreDigits text.now }
        requires room { length self.old + length text.now ≤ most_digits }
        ensures { self.new ≡ self.old ++ digits_in text.now }
    {
        for character in text {
            self.push(*character - b'0');
        }
    }

    /// The digit at a power of ten, and zero where there is none.
    pub(crate) fn digit(&self, power: i16) -> u8
        ensures value { result ≡ digit_at (number_of self.now) power }
        ensures digit { result < 10 }
    {
        let digits = self.items.as_slice();
        if power < 0 {
            return 0;
        }
        let from_end = power as usize;
        if from_end < digits.len() {
            digits[digits.len() - 1 - from_end]
        } else {
            0
        }
    }
}

/// Whether each digit is zero.
pub fn are_zeros(digits: &[u8]) -> bool
    ensures { result ≡ list_all (λ d. d == 0) digits.now }
{
    digits.iter().all(|digit| *digit == 0)
}
