//! The parts of a command's definition.

use clap::{Arg, ArgAction, Command};
use std::alloc::{AllocError, Global};

/// Whether help tells of a command: it says what the command does.
pub(crate) fn is_told(command: &Command<'_>) -> bool {
    command.get_about().is_some()
}

/// What completes the value of an option.
#[derive(Clone, Copy)]
pub(crate) enum Values<'a> {
    /// It has no value.
    Nothing,
    /// The name of a file.
    Files,
    /// One of these words, between which are spaces.
    Words(&'a str),
}

/// Whether the reading with this default is one of zones.
fn reads_zones(default: Option<&str>) -> bool {
    matches!(default, Some("strict"))
}

/// What completes the value of this name, beside its default.
fn values_for<'a>(value: &str, default: Option<&'a str>) -> Values<'a> {
    match value {
        "<FILE>" => Values::Files,
        "<FORM>" => Values::Words("f v b"),
        "<READING>" if reads_zones(default) => Values::Words("strict any"),
        "<READING>" => Values::Words("pictured whole"),
        "<LISTING>" => Values::Words("text json csv"),
        "<MEASURE>" => Values::Words("value bytes"),
        "<HOW>" => Values::Words("own in-out"),
        _ => Values::Words(default.unwrap_or("")),
    }
}

/// An option's default, where it has one and takes a value.
pub(crate) fn default_of<'a>(option: &Arg<'a>) -> Option<&'a str> {
    option.get_default_values().first().copied()
}

/// An option as it stands in command lines: its name, and what its value is called where it takes one.
pub(crate) fn label_of(alloc: Global, option: &Arg<'_>) -> Result<String, AllocError> {
    match option.get_action() {
        ArgAction::Set => format!(in alloc; "{option}"),
        _ => {
            let name = option.get_id();
            format!(in alloc; "--{name}")
        }
    }
}

/// What completes the value of an option.
pub(crate) fn values_of<'a>(alloc: Global, option: &Arg<'a>) -> Result<Values<'a>, AllocError> {
    let label = label_of(alloc, option)?;
    match label.as_str().split_once(' ') {
        Some((_, value)) => Ok(values_for(value, default_of(option))),
        None => Ok(Values::Nothing),
    }
}

/// Adds texts that stand one behind another.
pub(crate) fn push_all(
    text: &mut String,
    first: &str,
    second: &str,
    third: &str,
) -> Result<(), AllocError> {
    text.push_str(first)?;
    text.push_str(second)?;
    text.push_str(third)
}
