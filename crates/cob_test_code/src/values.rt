//! Names, constants and faults by themselves.

use arrayvec::ArrayVec;
use cob_copybook_entries::name_of_text;
use cob_copybook_entry::{BookFault, BookRule, Figurative, Name, Text, Value};
use cob_decimal::Number;
use cob_source::SourceRule;
use std::alloc::Global;
use std::fmt::Write;
use std::process::Abort;
use std::test::Fail;

/// A copy of a name has its characters.
#[test]
fn copies_of_names(rt: HostRuntime) -> Result<(), Fail> {
    for text in ["A", "1-A", "A_B-1"] {
        match name_of_text(text.as_bytes()) {
            Some(name) => {
                assert_eq!(rt; name.as_bytes(), text.as_bytes());
                assert_eq!(rt; format!(in rt.alloc(); "{}", name.clone())?.as_str(), text);
            }
            None => assert!(rt; false, "{text} was refused"),
        }
    }
    let name = Name::from_characters(b"IN-RECORD 1");
    assert_eq!(rt; format!(in rt.alloc(); "{name}")?.as_str(), "IN-RECORD 1");
    Ok(())
}

/// The characters of a constant, behind its kind.
fn shown(alloc: Global, value: &Value) -> Result<String, Fail> {
    let mut out = String::new(alloc);
    match value {
        Value::Number { signed, number } => {
            let mut text: ArrayVec<u8, 64> = ArrayVec::new();
            number.write_text(&mut text);
            out.push_str(if *signed { "signed " } else { "" })?;
            push_bytes(&mut out, text.as_slice())?;
        }
        Value::Literal(text) => push_bytes(&mut out, text.as_bytes())?,
        Value::All(text) => {
            out.push_str("all ")?;
            push_bytes(&mut out, text.as_bytes())?;
        }
        Value::Figurative(figurative) => write!(out, "{figurative:?}")?,
    }
    Ok(out)
}

/// Writes characters of ASCII.
fn push_bytes(out: &mut String, bytes: &[u8]) -> Result<(), Fail> {
    for byte in bytes {
        out.push(char::from(*byte))?;
    }
    Ok(())
}

/// Whether the copy of a constant is shown so.
fn assert_copied(rt: &impl Abort, alloc: Global, value: &Value, want: &str) -> Result<(), Fail> {
    assert_eq!(rt; shown(alloc, &value.clone())?.as_str(), want);
    Ok(())
}

/// A copy of a constant is that constant.
#[test]
fn copies_of_constants(rt: HostRuntime) -> Result<(), Fail> {
    let alloc = rt.alloc();
    match Number::of_text(b"-1.5") {
        Some(number) => {
            let value = Value::Number {
                signed: true,
                number,
            };
            assert_copied(&rt, alloc, &value, "signed -1.5")?;
        }
        None => assert!(rt; false, "-1.5 was refused"),
    }
    assert_copied(&rt, alloc, &Value::Literal(Text::of(b"a b")), "a b")?;
    assert_copied(&rt, alloc, &Value::All(Text::of(b"*")), "all *")?;
    assert_copied(&rt, alloc, &Value::Figurative(Figurative::Zero), "Zero")
}

/// What a fault prints.
#[test]
fn printed_faults(rt: HostRuntime) -> Result<(), Fail> {
    for (rule, want) in [
        (BookRule::Source(SourceRule::Tab), "T2 line 7"),
        (BookRule::NoEntry, "B1 line 7"),
        (BookRule::Grammar, "B2 line 7"),
        (BookRule::Level, "B3 line 7"),
        (BookRule::Usage, "B5 line 7"),
        (BookRule::Sign, "B6 line 7"),
        (BookRule::Redefinition, "B7 line 7"),
        (BookRule::Table, "B8 line 7"),
        (BookRule::Count, "B9 line 7"),
        (BookRule::Value, "B10 line 7"),
        (BookRule::Placement, "B11 line 7"),
        (BookRule::Name, "B13 line 7"),
        (BookRule::TooLong, "B14 line 7"),
        (BookRule::TooMany, "B15 line 7"),
        (BookRule::Memory, "B19 line 7"),
    ] {
        let fault = BookFault { rule, line: 7 };
        assert_eq!(rt; format!(in rt.alloc(); "{fault}")?.as_str(), want);
    }
    Ok(())
}
