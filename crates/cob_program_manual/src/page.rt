//! The manual pages: one of the program, and one of each command.

use crate::notes::{help_of, push_example, push_remarks};
use crate::parts::{default_of, is_told, label_of, push_all};
use crate::words::{BROKEN, FILLED, push_words};
use clap::{Arg, Command};
use std::alloc::{AllocError, Global};

// What stands before the examples of the program's page.
const HEAD: &str = ".TH COBCONV 1 \"\" \"cobconv\" \"User Commands\"
.SH NAME
cobconv \\- convert files of COBOL records by two copybooks and a paragraph of MOVE statements
.SH SYNOPSIS
\\fBcobconv\\fR \\fICOMMAND\\fR [\\fIOPTION\\fR]...
.br
\\fBcobconv help\\fR [\\fICOMMAND\\fR]
.br
\\fBcobconv\\fR < \\fIJOB\\fR
.SH EXAMPLES
";

// What stands between these and the commands.
const MIDDLE: &str = "
.SH COMMANDS
Each command has a page of its own. \\fBcobconv help\\fR \\fICOMMAND\\fR prints its options, as \\fB\\-\\-help\\fR behind it does, and the program has
\\fB\\-\\-version\\fR.
";

// What stands behind the commands, and behind the options of each command.
const TAIL: &str = ".SH EXIT STATUS
.TP
0
All is done.
.TP
1
A record stopped the run, or was set aside; or a strict check found something open; or records that were compared differ.
.TP
2
The command line or the job is malformed.
.TP
3
A text is refused.
.TP
4
A device failed.
.TP
5
Memory was refused.
";

/// Adds the name of a command in capitals.
fn push_capitals(text: &mut String, name: &str) -> Result<(), AllocError> {
    for letter in name.chars() {
        text.push(letter.to_ascii_uppercase())?;
    }
    Ok(())
}

/// Adds the example in the help of a command behind what the command does.
fn push_told_example(
    text: &mut String,
    command: &Command<'_>,
    help: &str,
) -> Result<(), AllocError> {
    let about = command.get_about().unwrap_or("");
    push_words(text, ".PP\n\\&", about, FILLED, ":\n")?;
    push_example(text, help)
}

/// Adds a command to the list of commands: its page, and what it does.
fn push_listed(text: &mut String, command: &Command<'_>) -> Result<(), AllocError> {
    let about = command.get_about().unwrap_or("");
    push_all(text, ".TP\n\\fBcobconv\\-", command.get_name(), "\\fR(1)\n")?;
    push_words(text, "\\&", about, FILLED, "\n")
}

/// Adds the name and value of an option.
fn push_label(alloc: Global, text: &mut String, option: &Arg<'_>) -> Result<(), AllocError> {
    let label = label_of(alloc, option)?;
    push_words(text, ".TP\n\\fB\\&", &label, FILLED, "\\fR\n\\&")
}

/// Adds an option: its name and value, its help, and its default or that it has to be there.
fn push_option(alloc: Global, text: &mut String, option: &Arg<'_>) -> Result<(), AllocError> {
    push_label(alloc, text, option)?;
    push_words(text, "", option.get_help().unwrap_or(""), BROKEN, "")?;
    if option.is_required_set() {
        return text.push_str(" (required)\n");
    }
    match default_of(option) {
        Some(default) => push_words(text, "\\& (default: ", default, FILLED, ")\n"),
        None => text.push_str("\n"),
    }
}

/// Adds the options that a command has to have, as its words stand.
fn push_required(
    alloc: Global,
    text: &mut String,
    command: &Command<'_>,
) -> Result<(), AllocError> {
    for option in command.get_arguments() {
        if option.is_required_set() {
            let label = label_of(alloc, option)?;
            push_words(text, " ", &label, FILLED, "")?;
        }
    }
    Ok(())
}

/// Adds what stands before the options on the page of a command: its name, how its words stand, its example, and what else help says of it.
fn push_front(
    alloc: Global,
    text: &mut String,
    command: &Command<'_>,
    help: &str,
) -> Result<(), AllocError> {
    let name = command.get_name();
    text.push_str(".TH COBCONV\\-")?;
    push_capitals(text, name)?;
    text.push_str(" 1 \"\" \"cobconv\" \"User Commands\"\n.SH NAME\n")?;
    push_all(text, "cobconv\\-", name, " \\- ")?;
    push_words(text, "", command.get_about().unwrap_or(""), FILLED, "\n")?;
    push_all(text, ".SH SYNOPSIS\n\\fBcobconv ", name, "\\fR")?;
    push_required(alloc, text, command)?;
    text.push_str(" [\\fIOPTION\\fR]...\n.SH EXAMPLES\n")?;
    push_example(text, help)?;
    push_remarks(text, help)
}

/// Adds the page of a command with this help.
fn push_command(
    alloc: Global,
    text: &mut String,
    command: &Command<'_>,
    help: &str,
) -> Result<(), AllocError> {
    push_front(alloc, text, command, help)?;
    text.push_str(".SH OPTIONS\n")?;
    for option in command.get_arguments() {
        push_option(alloc, text, option)?;
    }
    text.push_str(TAIL)?;
    text.push_str(".SH SEE ALSO\n\\fBcobconv\\fR(1)\n")
}

/// What the commands have in the manual pages.
#[derive(Drop)]
struct Parts {
    /// An example of each.
    examples: String,
    /// The list of them.
    listed: String,
    /// A page of each.
    pages: String,
}

/// Adds what a command has in the manual pages.
fn push_parts(alloc: Global, parts: &mut Parts, command: &Command<'_>) -> Result<(), AllocError> {
    let help = help_of(alloc, command)?;
    push_told_example(&mut parts.examples, command, &help)?;
    push_listed(&mut parts.listed, command)?;
    push_command(alloc, &mut parts.pages, command, &help)
}

/// What the commands of a program that help tells of have in the manual pages.
fn parts_of(alloc: Global, program: &Command<'_>) -> Result<Parts, AllocError> {
    let mut parts = Parts {
        examples: String::new(alloc),
        listed: String::new(alloc),
        pages: String::new(alloc),
    };
    for command in program.get_subcommands() {
        if is_told(command) {
            push_parts(alloc, &mut parts, command)?;
        }
    }
    Ok(parts)
}

/// Adds the manual pages of a program with these commands: its own, and then one of each command that help tells of. Each begins with a line `.TH`.
pub(crate) fn push_pages(
    alloc: Global,
    text: &mut String,
    program: &Command<'_>,
) -> Result<(), AllocError> {
    let parts = parts_of(alloc, program)?;
    push_all(text, HEAD, &parts.examples, ".SH DESCRIPTION\n")?;
    push_words(
        text,
        "\\&",
        program.get_about().unwrap_or(""),
        FILLED,
        MIDDLE,
    )?;
    push_all(text, &parts.listed, TAIL, &parts.pages)
}
