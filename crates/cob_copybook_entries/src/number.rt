//! Whole numbers, as digits.

ghost use Rattle.std.specs.Prelude.{◌≡◌, ℕ, ◌≤◌, ◌↔◌, length, Some, IfSome, IsTrue};
ghost use Rattle.cob_decimal.specs.Decimal.{number_of as number_in};
ghost use Rattle.cob_decimal.specs.Literals.{AreDigits, digits_in};
ghost use Rattle.cob_copybook_entries.specs.Meaning.{IsIntegerText};

use cob_decimal::are_digits;

/// The number that a text of 1 to `most` digits spells.
pub fn whole(text: &[u8], most: usize) -> Option<u32>
    requires { most ≤ 9 }
    ensures found { IfSome result (λ n. IsIntegerText most text.now n) }
    ensures only { (n : ℕ) → IsIntegerText most text.now n → result ≡ Some n }
{
    if text.is_empty() || text.len() > most || !are_digits(text) {
        return None;
    }
    Some(number_of(text))
}

/// The number that up to nine digits spell.
fn number_of(text: &[u8]) -> u32
    requires digits { AreDigits text.now }
    requires short { length text.now ≤ 9 }
    ensures { result ≡ number_in (digits_in text.now) }
{
    let mut number: u32 = 0;
    for character in text {
        number = number * 10 + u32::from(*character - b'0');
    }
    number
}
