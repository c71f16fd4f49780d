//! The parts of a number's text.

ghost use Rattle.std.specs.Prelude.{◌≡◌, ◌+◌, ◌<◌, ◌≤◌, ◌==◌, ◌++◌, length, drop, replicate};
ghost use Rattle.std.specs.List.{prefix_len};
ghost use Rattle.arrayvec.specs.ArrayVec.{array_vec_len};
ghost use Rattle.cob_decimal.specs.Decimal.{IsDigits, number_of};
ghost use Rattle.cob_decimal.specs.Literals.{characters, fraction_text, digits_behind_point};
ghost use Rattle.cob_decimal.specs.Parts.{IsSignificant, zeros_of, whole_part, fraction_part};

use arrayvec::ArrayVec;

/// How many digits stand behind the point.
pub(crate) fn places(scale: i8) -> usize
    ensures { result ≡ digits_behind_point scale }
{
    if scale > 0 { scale as usize } else { 0 }
}

/// How many zeros stand between the last digit of a number of this scale and the point.
pub fn zeros_of(scale: i8) -> u8
    ensures { result ≡ zeros_of scale }
{
    if scale < 0 { scale.unsigned_abs() } else { 0 }
}

/// The digits from the first that is not zero on.
pub fn without_zeros(digits: &[u8]) -> &[u8]
    ensures rest { result.now ≡ drop (prefix_len (λ d. d == 0) digits.now) digits.now }
    ensures digits { IsDigits digits.now → IsDigits result.now }
    ensures value { number_of result.now ≡ number_of digits.now }
    ensures first { IsSignificant result.now }
{
    for (at, digit) in digits.iter().enumerate() {
        if *digit != 0 {
            return &digits[at..];
        }
    }
    &[]
}

/// Adds the whole part: digits without zeros in front, then zeros; for no digits a single zero.
pub(crate) fn write_whole(out: &mut ArrayVec<u8, 64>, digits: &[u8], zeros: usize)
    requires valid { IsDigits digits.now }
    requires room { array_vec_len out.old + length digits.now + zeros < 64 }
    ensures { out.new.items ≡ out.old.items ++ characters (whole_part digits.now zeros) }
{
    if digits.is_empty() {
        push_zeros(out, 1);
    } else {
        push_characters(out, digits);
        push_zeros(out, zeros);
    }
}

/// Adds a point and the digits behind it, with zeros in front up to that many places; nothing where there are no places.
pub(crate) fn write_fraction(out: &mut ArrayVec<u8, 64>, digits: &[u8], places: usize)
    requires valid { IsDigits digits.now }
    requires fits { length digits.now ≤ places }
    requires room { array_vec_len out.old + places < 64 }
    ensures { out.new.items ≡ out.old.items ++ fraction_text (fraction_part digits.now places) }
{
    if places > 0 {
        out.push(b'.');
        push_zeros(out, places - digits.len());
        push_characters(out, digits);
    }
}

/// Adds the characters of digits.
fn push_characters(out: &mut ArrayVec<u8, 64>, digits: &[u8])
    requires valid { IsDigits digits.now }
    requires room { array_vec_len out.old + length digits.now ≤ 64 }
    ensures { out.new.items ≡ out.old.items ++ characters digits.now }
{
    for digit in digits {
        out.push(*digit + b'0');
    }
}

/// Adds zeros.
fn push_zeros(out: &mut ArrayVec<u8, 64>, count: usize)
    requires { array_vec_len out.old + count ≤ 64 }
    ensures { out.new.items ≡ out.old.items ++ characters (replicate count 0) }
{
    for i in 0..count {
        out.push(b'0');
    }
}
