//! The entries of a text, each by itself.

use crate::refusal::Refusal;
use crate::texts::{entries_of, many_of, push_word};
use arrayvec::ArrayVec;
use cob_copybook_entries::name_of_text;
use cob_copybook_entry::{Entry, Name, Occurs, Qualified, Sign, Usage, Value};
use cob_decimal::Number;
use cob_picture::Picture;
use cob_test_rows::{Row, RowFault};
use std::alloc::{AllocError, Global};
use std::fmt::Write;

/// Writes the answer to a row's question about a text.
pub(crate) fn answer(alloc: Global, row: &Row, out: &mut String) -> Result<(), Refusal> {
    match row.field(0)? {
        "entries" => answer_to(alloc, row.lines(alloc, 1)?.as_slice(), out),
        "text" => answer_to(alloc, row.text(alloc, 1)?.as_slice(), out),
        "many" => answer_to_many(alloc, many_of(alloc, row)?.as_slice(), out),
        "name" => Ok(push_own_name(out, row.field(1)?)?),
        _ => Err(Refusal::Row(RowFault::BadRow)),
    }
}

/// Writes the entries of a text.
fn answer_to(alloc: Global, text: &[u8], out: &mut String) -> Result<(), Refusal> {
    Ok(push_entries(out, entries_of(alloc, text)?.as_slice())?)
}

/// Writes how many entries a text has.
fn answer_to_many(alloc: Global, text: &[u8], out: &mut String) -> Result<(), Refusal> {
    let list = entries_of(alloc, text)?;
    Ok(write!(out, "{} entries", list.len())?)
}

/// Writes the name that a text is, or that it is none.
fn push_own_name(out: &mut String, text: &str) -> Result<(), AllocError> {
    match name_of_text(text.as_bytes()) {
        Some(name) => write!(out, "{name}"),
        None => out.push_str("none"),
    }
}

/// Writes entries.
fn push_entries(out: &mut String, list: &[Entry]) -> Result<(), AllocError> {
    for entry in list {
        if !out.is_empty() {
            out.push_str(" | ")?;
        }
        push_entry(out, entry)?;
    }
    Ok(())
}

/// Writes an entry: line, level, name, and its clauses in one order.
fn push_entry(out: &mut String, entry: &Entry) -> Result<(), AllocError> {
    write!(out, "{}:{}", entry.line, entry.level)?;
    push_name(out, " ", &entry.name, " FILLER")?;
    push_name(out, " redefines ", &entry.redefines, "")?;
    push_picture(out, &entry.picture)?;
    push_usage(out, entry.usage)?;
    push_sign(out, entry.sign)?;
    push_occurs(out, &entry.occurs)?;
    push_value(out, &entry.value)?;
    out.push_str(if entry.justified { " justified" } else { "" })?;
    out.push_str(if entry.blank { " blank" } else { "" })
}

/// Writes a name behind a mark, or what stands for one that there isn't.
fn push_name(
    out: &mut String,
    mark: &str,
    name: &Option<Name>,
    none: &str,
) -> Result<(), AllocError> {
    match name {
        Some(name) => write!(out, "{mark}{name}"),
        None => out.push_str(none),
    }
}

/// Writes a picture, if there is one.
fn push_picture(out: &mut String, picture: &Option<Picture>) -> Result<(), AllocError> {
    match picture {
        Some(picture) => write!(out, " {:?} {} bytes", picture.category(), picture.size()),
        None => Ok(()),
    }
}

/// Writes a usage, if there is one.
fn push_usage(out: &mut String, usage: Option<Usage>) -> Result<(), AllocError> {
    match usage {
        Some(usage) => write!(out, " {usage:?}"),
        None => Ok(()),
    }
}

/// Writes where a sign stands, if the entry says it.
fn push_sign(out: &mut String, sign: Option<Sign>) -> Result<(), AllocError> {
    let Some(sign) = sign else {
        return Ok(());
    };
    out.push_str(if sign.leading {
        " leading"
    } else {
        " trailing"
    })?;
    out.push_str(if sign.separate { " separate" } else { "" })
}

/// Writes a table that varies.
fn push_varying(
    out: &mut String,
    least: u32,
    most: u32,
    count: &Qualified,
) -> Result<(), AllocError> {
    write!(out, " {least} to {most} by {}", count.name)?;
    for name in &count.qualifiers {
        write!(out, " of {name}")?;
    }
    Ok(())
}

/// Writes an OCCURS clause, if there is one.
fn push_occurs(out: &mut String, occurs: &Option<Occurs>) -> Result<(), AllocError> {
    match occurs {
        Some(Occurs::Fixed(times)) => write!(out, " {times} times"),
        Some(Occurs::Varying { least, most, count }) => push_varying(out, *least, *most, count),
        None => Ok(()),
    }
}

/// Writes a number as text.
fn push_number(out: &mut String, number: &Number) -> Result<(), AllocError> {
    let mut text: ArrayVec<u8, 64> = ArrayVec::new();
    number.write_text(&mut text);
    push_word(out, text.as_slice())
}

/// Writes a constant.
pub(crate) fn push_constant(out: &mut String, value: &Value) -> Result<(), AllocError> {
    match value {
        Value::Number { signed, number } => {
            out.push_str(if *signed { "signed " } else { "" })?;
            push_number(out, number)
        }
        Value::Literal(text) => {
            out.push('=')?;
            push_word(out, text.as_bytes())
        }
        Value::Figurative(figurative) => write!(out, "{figurative:?}"),
        Value::All(text) => {
            out.push_str("all =")?;
            push_word(out, text.as_bytes())
        }
    }
}

/// Writes a VALUE clause, if there is one.
fn push_value(out: &mut String, value: &Option<Value>) -> Result<(), AllocError> {
    match value {
        Some(value) => {
            out.push_str(" value ")?;
            push_constant(out, value)
        }
        None => Ok(()),
    }
}
