//! The order of numbers.

ghost use Rattle.std.specs.Prelude.{◌≡◌, ◌*◌, ◌/◌, ◌%◌, ◌^◌, ◌≤◌, ◌-ℤ◌, ◌≤ℤ◌, pos, length};
ghost use Rattle.std.specs.Ordering.{nat_cmp};
ghost use Rattle.cob_decimal.specs.Decimal.{IsDigits, number_of};
ghost use Rattle.cob_limits.specs.Limits.{greatest_scale, least_scale, most_digits};
ghost use Rattle.cob_move_receive.specs.Sent.{amount};
ghost use Rattle.cob_move_condition.specs.Compared.{amount_order, finer_scale};

use cob_decimal::Number;
use std::cmp::Ordering;

/// The digit at a power of ten of a number in units finer by so many places.
fn scaled_digit(digits: &[u8], finer: usize, power: usize) -> u8
    requires { IsDigits digits.now }
    ensures { result ≡ number_of digits.now * 10 ^ finer / 10 ^ power % 10 }
{
    if power < finer {
        return 0;
    }
    let from_end = power - finer;
    if from_end < digits.len() {
        digits[digits.len() - 1 - from_end]
    } else {
        0
    }
}

/// The order of two magnitudes, each in units finer by so many places.
fn magnitude_order(first: &[u8], finer: usize, second: &[u8], second_finer: usize) -> Ordering
    requires first { IsDigits first.now }
    requires second { IsDigits second.now }
    requires first_few { length first.now ≤ most_digits }
    requires second_few { length second.now ≤ most_digits }
    requires low { finer ≤ 100 }
    requires high { second_finer ≤ 100 }
    ensures { result ≡ nat_cmp (number_of first.now * 10 ^ finer)
        (number_of second.now * 10 ^ second_finer) }
{
    let size = (first.len() + finer).max(second.len() + second_finer);
    for step in 0..size {
        let power = size - 1 - step;
        let x = scaled_digit(first, finer, power);
        let y = scaled_digit(second, second_finer, power);
        if x < y {
            return Ordering::Less;
        }
        if y < x {
            return Ordering::Greater;
        }
    }
    Ordering::Equal
}

/// How many places the finer of two units is finer than the first.
fn places_finer(scale: i8, other: i8) -> usize
    requires low { least_scale ≤ℤ scale }
    requires high { scale ≤ℤ greatest_scale }
    requires other_low { least_scale ≤ℤ other }
    requires other_high { other ≤ℤ greatest_scale }
    ensures value { finer_scale scale other -ℤ scale ≡ pos result }
    ensures few { result ≤ 100 }
{
    if scale < other {
        (i16::from(other) - i16::from(scale)) as usize
    } else {
        0
    }
}

/// The order of two numbers.
pub(crate) fn number_order(first: &Number, second: &Number) -> Ordering
    ensures { result ≡ amount_order (amount first.now) (amount second.now) }
{
    let finer = places_finer(first.scale(), second.scale());
    let second_finer = places_finer(second.scale(), first.scale());
    let ours = first.digits().as_slice();
    let theirs = second.digits().as_slice();
    match (first.negative(), second.negative()) {
        (false, false) => magnitude_order(ours, finer, theirs, second_finer),
        (false, true) => Ordering::Greater,
        (true, false) => Ordering::Less,
        (true, true) => magnitude_order(theirs, second_finer, ours, finer),
    }
}
