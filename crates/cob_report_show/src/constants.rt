//! Constants, as a source text writes them.

ghost use Rattle.std.specs.Prelude.{◌≡◌, ◌≤◌, ◌<◌, ◌+◌, ◌*◌, ◌++◌, length, flat_map};
ghost use Rattle.cob_decimal.specs.Decimal.{IsDigits};
ghost use Rattle.cob_decimal.specs.Literals.{characters, digits_behind_point};
ghost use Rattle.cob_copybook_entry.specs.Described.{plain_value};
ghost use Rattle.cob_limits.specs.Limits.{longest_literal, most_digits};
ghost use Rattle.cob_report_show.specs.Constants.{constant_text, figurative_word, in_quotes, literal_character, pointed, written_sign};

use arrayvec::ArrayVec;
use cob_copybook_entry::{Figurative, Value};
use cob_decimal::Number;

/// Room for a constant and a word in front of it: a quoted literal of 160 quotation marks, each written twice, behind ALL.
const ROOM: usize = 512;

/// A constant, made up before it is written.
pub(crate) type ConstantText = ArrayVec<u8, ROOM>;

/// Adds a text.
pub(crate) fn push_part(out: &mut ConstantText, text: &[u8])
    requires { length out.old.items + length text.now ≤ 512 }
    ensures { out.new.items ≡ out.old.items ++ text.now }
{
    out.try_extend_from_slice(text).unwrap();
}

/// Adds the characters of digits.
fn push_digits(out: &mut ConstantText, digits: &[u8])
    requires valid { IsDigits digits.now }
    requires room { length out.old.items + length digits.now ≤ 512 }
    ensures { out.new.items ≡ out.old.items ++ characters digits.now }
{
    for digit in digits {
        out.push(*digit + b'0');
    }
}

/// How many digits stand behind the point.
fn places_of(scale: i8) -> usize
    ensures { result ≡ digits_behind_point scale }
{
    if scale > 0 { scale as usize } else { 0 }
}

/// Adds digits, of which so many stand behind a point.
fn push_pointed(out: &mut ConstantText, places: usize, digits: &[u8])
    requires valid { IsDigits digits.now }
    requires room { length out.old.items + length digits.now + 1 ≤ 512 }
    ensures { out.new.items ≡ out.old.items ++ pointed places digits.now }
{
    if places == 0 {
        push_digits(out, digits);
    } else {
        let (whole, fraction) = digits.split_at(digits.len().saturating_sub(places));
        push_digits(out, whole);
        out.push(b'.');
        push_digits(out, fraction);
    }
}

/// The sign of a number, where one is written.
fn written_sign(signed: bool, negative: bool) -> &'static [u8]
    ensures text { result.now ≡ written_sign signed negative }
    ensures short { length result.now ≤ 1 }
{
    match (signed, negative) {
        (false, _) => b"",
        (true, false) => b"+",
        (true, true) => b"-",
    }
}

/// Adds a number, with its sign where one is written.
fn push_numeric(out: &mut ConstantText, signed: bool, number: &Number)
    requires { length out.old.items + 33 ≤ 512 }
    ensures { out.new.items ≡ out.old.items ++ (written_sign signed number.now.negative
        ++ pointed (digits_behind_point number.now.scale) number.now.digits) }
{
    push_part(out, written_sign(signed, number.negative()));
    push_pointed(out, places_of(number.scale()), number.digits().as_slice());
}

/// A character of a quoted literal: a quotation mark stands twice.
fn push_character(out: &mut ConstantText, character: u8)
    requires { length out.old.items + 2 ≤ 512 }
    ensures text { out.new.items ≡ out.old.items ++ literal_character character }
    ensures long { length out.new.items ≤ length out.old.items + 2 }
{
    out.push(character);
    if character == b'"' {
        out.push(character);
    }
}

/// Adds characters in quotation marks.
fn push_quoted(out: &mut ConstantText, text: &[u8])
    requires room { length out.old.items + 322 ≤ 512 }
    requires short { length text.now ≤ longest_literal }
    ensures { out.new.items ≡ out.old.items ++ in_quotes text.now }
{
    out.push(b'"');
    for character in text {
        push_character(out, *character);
    }
    out.push(b'"');
}

/// The word of a figurative constant.
fn figurative_word(figurative: Figurative) -> &'static [u8]
    ensures text { result.now ≡ figurative_word figurative }
    ensures short { length result.now ≤ 10 }
{
    match figurative {
        Figurative::Space => b"SPACE",
        Figurative::Zero => b"ZERO",
        Figurative::HighValue => b"HIGH-VALUE",
        Figurative::LowValue => b"LOW-VALUE",
        Figurative::Quote => b"QUOTE",
    }
}

/// Adds a constant.
pub(crate) fn push_constant(out: &mut ConstantText, value: &Value)
    requires { length out.old.items + 326 ≤ 512 }
    ensures { out.new.items ≡ out.old.items ++ constant_text (plain_value value.now) }
{
    match value {
        Value::Number { signed, number } => push_numeric(out, *signed, number),
        Value::Literal(text) => push_quoted(out, text.as_bytes()),
        Value::Figurative(figurative) => push_part(out, figurative_word(*figurative)),
        Value::All(text) => {
            push_part(out, b"ALL ");
            push_quoted(out, text.as_bytes());
        }
    }
}
