//! Digits as characters.

ghost use Rattle.std.specs.Prelude.{◌≡◌, ◌≤◌, ◌+◌, ◌*◌, ◌++◌, length, replicate};
ghost use Rattle.cob_limits.specs.Limits.{most_digits};
ghost use Rattle.cob_cp037.specs.Named.{zero_byte};
ghost use Rattle.cob_decimal.specs.Decimal.{IsDigits};
ghost use Rattle.cob_move_receive.specs.Characters.{numerals, numerals_to_point};

use arrayvec::ArrayVec;
use cob_cp037::ZERO;
use cob_decimal::{Number, zeros_of};
use cob_limits::MAX_DIGITS;

/// The most digits of a number, with the zeros up to the point.
const MAX_NUMERALS: usize = 2 * MAX_DIGITS;

/// The digits of a number as characters.
pub(crate) type Numerals = ArrayVec<u8, MAX_NUMERALS>;

/// Adds digits as characters.
fn push_digits(text: &mut Numerals, digits: &[u8])
    requires digits { IsDigits digits.now }
    requires room { length text.old.items + length digits.now ≤ 2 * most_digits }
    ensures { text.new.items ≡ text.old.items ++ numerals digits.now }
{
    for digit in digits {
        text.push(*digit + ZERO);
    }
}

/// Adds zeros.
fn push_zeros(text: &mut Numerals, zeros: usize)
    requires { length text.old.items + zeros ≤ 2 * most_digits }
    ensures { text.new.items ≡ text.old.items ++ replicate zeros zero_byte }
{
    for i in 0..zeros {
        text.push(ZERO);
    }
}

/// The digits of a number as characters, without its sign, with a zero for each place up to the point.
pub(crate) fn numerals_to_point(number: &Number) -> Numerals
    ensures { result.items ≡ numerals_to_point number.now.digits number.now.scale }
{
    let mut text = ArrayVec::new();
    push_digits(&mut text, number.digits().as_slice());
    push_zeros(&mut text, usize::from(zeros_of(number.scale())));
    text
}

/// The digits of a number as characters, as they are written.
pub(crate) fn numerals(number: &Number) -> Numerals
    ensures { result.items ≡ numerals number.now.digits }
{
    let mut text = ArrayVec::new();
    push_digits(&mut text, number.digits().as_slice());
    text
}
