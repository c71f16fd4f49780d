//! Constants as they are written in rows.

use cob_copybook_entry::{Figurative, Text, Value};
use cob_decimal::Number;
use cob_limits::MAX_LITERAL;
use cob_test_rows::RowFault;

/// The figurative constant of this name.
pub(crate) fn figurative(name: &str) -> Option<Figurative> {
    match name {
        "SPACE" => Some(Figurative::Space),
        "ZERO" => Some(Figurative::Zero),
        "HIGH-VALUE" => Some(Figurative::HighValue),
        "LOW-VALUE" => Some(Figurative::LowValue),
        "QUOTE" => Some(Figurative::Quote),
        _ => None,
    }
}

/// The characters between quotes.
fn quoted(written: &str) -> Option<Text> {
    let characters = written.strip_prefix('"')?.strip_suffix('"')?;
    if characters.len() > MAX_LITERAL {
        return None;
    }
    Some(Text::of(characters.as_bytes()))
}

/// The numeric literal that is written so.
fn number(written: &str) -> Option<Value> {
    let number = Number::of_text(written.as_bytes())?;
    let signed = written.starts_with('+') || written.starts_with('-');
    Some(Value::Number { signed, number })
}

/// The constant that is written so: a quoted literal, ALL and one, a figurative constant, or a numeric literal.
pub fn constant_of(written: &str) -> Result<Value, RowFault> {
    if let Some(figurative) = figurative(written) {
        return Ok(Value::Figurative(figurative));
    }
    if let Some(text) = quoted(written) {
        return Ok(Value::Literal(text));
    }
    if let Some(behind) = written.strip_prefix("ALL ") {
        return quoted(behind).map(Value::All).ok_or(RowFault::BadRow);
    }
    number(written).ok_or(RowFault::BadRow)
}
