use crate::parts::{Values, is_told, push_all, values_of};
use clap::{Arg, Command};
use std::alloc::{AllocError, Global};

// What stands before the names of the commands.
const HEAD: &str =
    "# The completion of command lines of cobconv for bash, as `cobconv completion` prints it.
_cobconv() {
    local word=${COMP_WORDS[COMP_CWORD]} before=${COMP_WORDS[COMP_CWORD - 1]} words=
    COMPREPLY=()
    if [[ $word == = ]]; then
        word=
    elif [[ $before == = ]]; then
        before=${COMP_WORDS[COMP_CWORD - 2]}
    fi
    if ((COMP_CWORD == 1)); then
        words='";

// What stands between these and the cases of each command.
const MIDDLE: &str = "help --help --version'
    else
        case \"${COMP_WORDS[1]} $before\" in
";

// What stands behind the cases of the commands.
const TAIL: &str = "        esac
    fi
    mapfile -t COMPREPLY < <(compgen -W \"$words\" -- \"$word\")
}
complete -F _cobconv cobconv
";

/// The case of an option of a command, in which this is done with these words.
fn push_line(
    text: &mut String,
    command: &str,
    option: &str,
    done: &str,
    words: &str,
    behind: &str,
) -> Result<(), AllocError> {
    push_all(text, "        '", command, " --")?;
    push_all(text, option, "') ", done)?;
    push_all(text, words, behind, " ;;\n")
}

/// The case of an option whose value is completed.
fn push_case(
    alloc: Global,
    text: &mut String,
    command: &str,
    option: &Arg<'_>,
) -> Result<(), AllocError> {
    let name = option.get_id();
    match values_of(alloc, option)? {
        Values::Nothing => Ok(()),
        Values::Files => push_line(text, command, name, "compopt -o default; return", "", ""),
        Values::Words(words) => push_line(text, command, name, "words='", words, "'"),
    }
}

/// The names of all options of a command.
fn push_labels(text: &mut String, command: &Command<'_>) -> Result<(), AllocError> {
    for option in command.get_arguments() {
        push_all(text, "--", option.get_id(), " ")?;
    }
    Ok(())
}

/// The cases of a command: of its options with a value, and then of the names of all its options.
fn push_cases(alloc: Global, text: &mut String, command: &Command<'_>) -> Result<(), AllocError> {
    let name = command.get_name();
    for option in command.get_arguments() {
        push_case(alloc, text, name, option)?;
    }
    push_all(text, "        '", name, " '*) words='")?;
    push_labels(text, command)?;
    text.push_str("--help' ;;\n")
}

/// The names of the commands, each with a space behind it.
fn push_names(text: &mut String, program: &Command<'_>) -> Result<(), AllocError> {
    for command in program.get_subcommands() {
        if is_told(command) {
            push_all(text, command.get_name(), " ", "")?;
        }
    }
    Ok(())
}

/// The case of the command `help`, behind which the name of a command stands.
fn push_help(text: &mut String, program: &Command<'_>) -> Result<(), AllocError> {
    text.push_str("        'help help') words='")?;
    push_names(text, program)?;
    text.push_str("' ;;\n")
}

/// Adds what bash needs to complete the command lines of a program with these commands.
pub(crate) fn push_completion(
    alloc: Global,
    text: &mut String,
    program: &Command<'_>,
) -> Result<(), AllocError> {
    text.push_str(HEAD)?;
    push_names(text, program)?;
    text.push_str(MIDDLE)?;
    push_help(text, program)?;
    for command in program.get_subcommands() {
        if is_told(command) {
            push_cases(alloc, text, command)?;
        }
    }
    text.push_str(TAIL)
}
