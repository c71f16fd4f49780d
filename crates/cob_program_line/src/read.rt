//! The line that words say.

ghost use Rattle.std.specs.Prelude.{◌≡◌, ◌⊎◌, IfErr, IfOk, map};
ghost use Rattle.cob_program_line.specs.Faults.{IsFaultIn, IsFaultOf};
ghost use Rattle.cob_program_line.specs.Lines.{HasBlocks, IsCommandLineOf, SaysCommand};
ghost use Rattle.cob_program_line.specs.declared.fault.LineFault.TheVariants.{Memory};
ghost use Rattle.cob_program_options.specs.Looks.{look_of};
ghost use Rattle.cob_program_options.specs.Commands.{IsComplete};

use crate::commands::command_line;
use crate::fault::LineFault;
use crate::line::{CommandLine, Handing, Line};
use crate::values::handing_of;
use clap::ArgMatches;
use cob_program_options::{flag, program};
use std::alloc::Global;
use std::convert::AsStr;

// What the name of a command and these options say.
fn whole_line<'a>(name: &str, options: &ArgMatches<'a>) -> Result<CommandLine<'a>, LineFault>
    requires { IsComplete name.now (look_of options.now) }
    ensures options { IfOk result (SaysCommand name.now (look_of options.now)) }
    ensures lacks { IfErr result (λ _. (said : CommandLine)
        → SaysCommand name.now (look_of options.now) said → ⊥) }
    ensures fault { IfErr result (IsFaultIn (look_of options.now)) }
    ensures blocks { IfOk result (λ said. HasBlocks said.line) }
{
    let line = command_line(name, options)?;
    Ok(CommandLine {
        line,
        explain: flag(options, "explain"),
        handing: handing_of(options),
    })
}

/// Reads the words after the program's name: which command they ask for, and what its options name. No words at all ask for a job. The version is what
/// `--version` prints.
///
/// # Errors
///
/// [`LineFault::Words`] where the words are wrong or ask for help or the version, [`LineFault::Memory`], and the first of these that is: an option
/// for a form names neither f nor v nor b ([`LineFault::Form`]), the one for binary items names neither reading ([`LineFault::Reading`]), one for
/// the size of blocks says none beside the letter b ([`LineFault::Block`]), the one for a listing names none ([`LineFault::Listing`]), one for a
/// piece of the input says no number ([`LineFault::Piece`]), one for a number of records says none ([`LineFault::Number`]), the one for a number of
/// pieces says none from 1 on ([`LineFault::Pieces`]), the one for a record length says none from 1 on ([`LineFault::Lrecl`]).
pub fn line_of<'a, S: AsStr>(
    alloc: Global,
    words: &'a [S],
    version: &'a str,
) -> Result<CommandLine<'a>, LineFault>
    ensures options { IfOk result (IsCommandLineOf (map S.text words.entry.now)) }
    ensures refused { IfErr result (λ fault. (fault ≡ Memory)
        ⊎ ((said : CommandLine) → IsCommandLineOf (map S.text words.entry.now) said → ⊥)) }
    ensures fault { IfErr result (λ fault. (fault ≡ Memory)
        ⊎ IsFaultOf (map S.text words.entry.now) fault) }
    // The blocks of its forms may have their greatest sizes.
    ensures blocks { IfOk result (λ said. HasBlocks said.line) }
{
    if words.is_empty() {
        return Ok(CommandLine {
            line: Line::Job,
            explain: false,
            handing: Handing::plain(),
        });
    }
    let matches = program(alloc, version)?.try_get_matches_from(words)?;
    match matches.subcommand() {
        Some((name, options)) => whole_line(name, options),
        None => unreachable!(),
    }
}
