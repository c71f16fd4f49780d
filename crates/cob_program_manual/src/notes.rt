//! What help says of a command behind its options: an example, and remarks.

use crate::words::push_words;
use clap::error::ErrorKind;
use clap::{Command, Error};
use cob_program_options::program;
use std::alloc::{AllocError, Global};

// What an example begins with.
const EXAMPLE: &str = "Example:";

// How the last line of the options ends.
const LAST_OPTION: &str = "Print help\n";

// What stands before and behind an example.
const BEFORE_EXAMPLE: &str = ".PP\n.RS\n.nf\n\\&";

const BEHIND_EXAMPLE: &str = "\n.fi\n.RE\n";

// What stands before the first remark, and between two of them.
const BEFORE_REMARKS: &str = ".SH DESCRIPTION\n.nf\n\\&";

const BETWEEN_REMARKS: &str = ".sp\n\\&";

// What stands between lines that are not filled.
const LINE_END: &str = "\n\\&";

/// What the program answers to these words, which ask for a help, in place of reading them.
fn answer_to(alloc: Global, words: &[String]) -> Result<Option<Error>, AllocError> {
    let program = program(alloc, "")?;
    Ok(program.try_get_matches_from(words).err())
}

/// What an answer prints, where it is not that memory was refused.
fn printed(alloc: Global, answer: &Error) -> Result<String, AllocError> {
    if answer.kind() == ErrorKind::OutOfMemory {
        return Err(AllocError);
    }
    format!(in alloc; "{answer}")
}

/// What the program prints for these words, which ask for a help.
fn help_for(alloc: Global, words: &[String]) -> Result<String, AllocError> {
    match answer_to(alloc, words)? {
        Some(answer) => printed(alloc, &answer),
        None => Ok(String::new(alloc)),
    }
}

/// What the program prints as the help of a command.
pub(crate) fn help_of(alloc: Global, command: &Command<'_>) -> Result<String, AllocError> {
    let mut words = Vec::new(alloc);
    words.push(String::from_str(alloc, command.get_name())?)?;
    words.push(String::from_str(alloc, "--help")?)?;
    help_for(alloc, words.as_slice())
}

/// What stands in a help behind the options.
fn notes_in(help: &str) -> &str {
    match help.split_once(LAST_OPTION) {
        Some((_, notes)) => notes.trim(),
        None => "",
    }
}

/// Adds the example that a help has, where it has one.
pub(crate) fn push_example(text: &mut String, help: &str) -> Result<(), AllocError> {
    for paragraph in notes_in(help).split("\n\n") {
        if let Some(example) = paragraph.strip_prefix(EXAMPLE) {
            push_words(
                text,
                BEFORE_EXAMPLE,
                example.trim_start(),
                LINE_END,
                BEHIND_EXAMPLE,
            )?;
        }
    }
    Ok(())
}

/// Adds a remark, behind others or as the first.
fn push_remark(text: &mut String, behind_others: bool, remark: &str) -> Result<(), AllocError> {
    if behind_others {
        push_words(text, BETWEEN_REMARKS, remark, LINE_END, "\n")
    } else {
        push_words(text, BEFORE_REMARKS, remark, LINE_END, "\n")
    }
}

/// Adds what a help has beside its example, where it has something: paragraphs whose lines stand by themselves.
pub(crate) fn push_remarks(text: &mut String, help: &str) -> Result<(), AllocError> {
    let mut remarks = false;
    for paragraph in notes_in(help).split("\n\n") {
        if !paragraph.starts_with(EXAMPLE) {
            push_remark(text, remarks, paragraph)?;
            remarks = true;
        }
    }
    if remarks {
        text.push_str(".fi\n")?;
    }
    Ok(())
}
