//! Constants, as they stand on the page.

ghost use Rattle.std.specs.Prelude.{◌≡◌, ◌++◌, ◌≤◌, length};
ghost use Rattle.std.specs.Fmt.{WritesOnOk};
ghost use Rattle.std.specs.List.{flat_map};
ghost use Rattle.cob_decimal.specs.Decimal.{IsDigits};
ghost use Rattle.cob_decimal.specs.Literals.{characters, digits_behind_point};
ghost use Rattle.cob_copybook_entry.specs.Described.{plain_value};
ghost use Rattle.cob_report_show.specs.Constants.{constant_text, figurative_word, in_quotes, literal_character, pointed, written_sign};
ghost use Rattle.cob_report_boxes.specs.Shown.{shown};

use crate::texts::write_character;
use cob_copybook_tree::{Figurative, Value};
use cob_decimal::Number;
use std::fmt;

/// A literal or a figurative constant, which prints as a source text writes it, with its escapes.
#[derive(Clone, Copy)]
pub struct EscapedConstant<'a> {
    pub value: &'a Value,
}

/// Writes digits.
fn write_digits<W: fmt::Write>(f: &mut fmt::Formatter<W>, digits: &[u8]) -> fmt::Result
    requires { IsDigits digits.now }
    ensures { WritesOnOk W.write_str_gives f.old result (shown (characters digits.now)) f.new }
{
    for digit in digits {
        write_character(f, *digit + b'0')?;
    }
    Ok(())
}

/// How many digits stand behind the point.
fn places_of(scale: i8) -> usize
    ensures { result ≡ digits_behind_point scale }
{
    if scale > 0 { scale as usize } else { 0 }
}

/// Writes digits, of which so many stand behind a point.
fn write_pointed<W: fmt::Write>(
    f: &mut fmt::Formatter<W>,
    places: usize,
    digits: &[u8],
) -> fmt::Result
    requires { IsDigits digits.now }
    ensures { WritesOnOk W.write_str_gives f.old result (shown (pointed places digits.now)) f.new }
{
    if places == 0 {
        return write_digits(f, digits);
    }
    let (whole, fraction) = digits.split_at(digits.len().saturating_sub(places));
    write_digits(f, whole)?;
    f.write_str(".")?;
    write_digits(f, fraction)
}

/// The sign of a number, where one is written.
fn written_sign(signed: bool, negative: bool) -> &'static str
    ensures { result.now ≡ shown (written_sign signed negative) }
{
    match (signed, negative) {
        (false, _) => "",
        (true, false) => "+",
        (true, true) => "-",
    }
}

/// Writes a number, with its sign where one is written.
fn write_number<W: fmt::Write>(
    f: &mut fmt::Formatter<W>,
    signed: bool,
    number: &Number,
) -> fmt::Result
    ensures { WritesOnOk W.write_str_gives f.old result
        (shown (written_sign signed number.now.negative
        ++ pointed (digits_behind_point number.now.scale) number.now.digits)) f.new }
{
    f.write_str(written_sign(signed, number.negative()))?;
    write_pointed(f, places_of(number.scale()), number.digits().as_slice())
}

/// Writes a character of a literal: a quotation mark stands twice.
fn write_literal_character<W: fmt::Write>(f: &mut fmt::Formatter<W>, character: u8) -> fmt::Result
    ensures { WritesOnOk W.write_str_gives f.old result (shown (literal_character character)) f.new }
{
    if character == b'"' {
        return f.write_str("&quot;&quot;");
    }
    write_character(f, character)
}

/// Writes the characters of a literal.
fn write_literal<W: fmt::Write>(f: &mut fmt::Formatter<W>, text: &[u8]) -> fmt::Result
    ensures { WritesOnOk W.write_str_gives f.old result
        (shown (flat_map literal_character text.now)) f.new }
{
    for character in text {
        write_literal_character(f, *character)?;
    }
    Ok(())
}

/// Writes a literal in quotation marks, each one in it twice.
fn write_quoted<W: fmt::Write>(f: &mut fmt::Formatter<W>, text: &[u8]) -> fmt::Result
    ensures { WritesOnOk W.write_str_gives f.old result (shown (in_quotes text.now)) f.new }
{
    f.write_str("&quot;")?;
    write_literal(f, text)?;
    f.write_str("&quot;")
}

/// The word of a figurative constant.
fn figurative_word(figurative: Figurative) -> &'static str
    ensures { result.now ≡ shown (figurative_word figurative) }
{
    match figurative {
        Figurative::Space => "SPACE",
        Figurative::Zero => "ZERO",
        Figurative::HighValue => "HIGH-VALUE",
        Figurative::LowValue => "LOW-VALUE",
        Figurative::Quote => "QUOTE",
    }
}

impl fmt::Display for EscapedConstant<'_> {
    ghost use Rattle.std.specs.Prelude.{Some};
    ghost use Rattle.cob_copybook_entry.specs.Described.{plain_value};
    ghost use Rattle.cob_report_show.specs.Constants.{constant_text};
    ghost use Rattle.cob_report_boxes.specs.Shown.{shown};

    ghost output = { λ constant. Some (shown (constant_text (plain_value constant.value.now))) };

    fn fmt<W: fmt::Write>(&self, f: &mut fmt::Formatter<W>) -> fmt::Result {
        match self.value {
            Value::Number { signed, number } => write_number(f, *signed, number),
            Value::Literal(text) => write_quoted(f, text.as_bytes()),
            Value::Figurative(figurative) => f.write_str(figurative_word(*figurative)),
            Value::All(text) => {
                f.write_str("ALL ")?;
                write_quoted(f, text.as_bytes())
            }
        }
    }
}
