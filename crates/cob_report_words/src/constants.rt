//! Constants, as they are written.

use cob_copybook_tree::{Figurative, Value};
use cob_decimal::Number;
use std::fmt;

/// A constant, which prints as a source text writes it: `+007.50`, `"a ""b"""`, `SPACE`, `ALL "-"`.
#[derive(Clone, Copy)]
pub struct ConstantText<'a> {
    pub value: &'a Value,
}

/// The sign of a number.
fn sign_of(number: &Number) -> &'static str {
    if number.negative() { "-" } else { "+" }
}

/// Writes a numeric literal as it is written, with its sign where it has one, its zeros and its point: `+007.50`.
fn write_numeric_literal<W: fmt::Write>(
    f: &mut fmt::Formatter<W>,
    signed: bool,
    number: &Number,
) -> fmt::Result {
    if signed {
        write!(f, "{}", sign_of(number))?;
    }
    let digits = number.digits().as_slice();
    let places = usize::from(number.scale().unsigned_abs());
    for (at, digit) in digits.iter().enumerate() {
        if at.saturating_add(places) == digits.len() {
            write!(f, ".")?;
        }
        write!(f, "{digit}")?;
    }
    Ok(())
}

/// The word of a figurative constant.
fn figurative_word(figurative: Figurative) -> &'static str {
    match figurative {
        Figurative::Space => "SPACE",
        Figurative::Zero => "ZERO",
        Figurative::HighValue => "HIGH-VALUE",
        Figurative::LowValue => "LOW-VALUE",
        Figurative::Quote => "QUOTE",
    }
}

/// Writes a quoted literal, a quotation mark in it twice.
fn write_literal<W: fmt::Write>(f: &mut fmt::Formatter<W>, text: &[u8]) -> fmt::Result {
    write!(f, "\"")?;
    for character in text {
        if *character == b'"' {
            write!(f, "\"\"")?;
        } else {
            write!(f, "{}", char::from(*character))?;
        }
    }
    write!(f, "\"")
}

impl fmt::Display for ConstantText<'_> {
    fn fmt<W: fmt::Write>(&self, f: &mut fmt::Formatter<W>) -> fmt::Result {
        match self.value {
            Value::Number { signed, number } => write_numeric_literal(f, *signed, number),
            Value::Literal(text) => write_literal(f, text.as_bytes()),
            Value::Figurative(figurative) => write!(f, "{}", figurative_word(*figurative)),
            Value::All(text) => {
                write!(f, "ALL ")?;
                write_literal(f, text.as_bytes())
            }
        }
    }
}
