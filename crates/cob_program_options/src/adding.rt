//! Commands with more options.

ghost use Rattle.std.specs.Prelude.{◌≡◌, false};
ghost use Rattle.clap.specs.Words.{App, app_of, rule_of, with_rule};
ghost use Rattle.cob_program_options.specs.Rules.{with_option, with_options};
ghost use Rattle.cob_program_options.specs.Definitions.{kind_of, options_in, options_of};
ghost use Rattle.cob_program_options.specs.Program.{Makes};

use crate::arguments::{alone, defaulted, optional, required};
use crate::definition::{OptionDefinition, Standing};
use clap::{Arg, Command};
use std::alloc::{AllocError, Global};

// An option, as `clap` takes it.
fn argument<'a>(alloc: Global, option: &OptionDefinition<'a>) -> Arg<'a>
    ensures rule { (app : App) → with_rule app (rule_of result)
        ≡ with_option app option.now.name.now (kind_of option.now.standing) }
    ensures local { result.global ≡ false }
{
    match option.standing {
        Standing::Required(value) => required(alloc, option.name, value, option.help),
        Standing::Default(value, word) => {
            defaulted(alloc, option.name, value, word, option.help)
        }
        Standing::Optional(value) => optional(alloc, option.name, value, option.help),
        Standing::Alone => alone(alloc, option.name, option.help),
    }
}

// A command with an option more.
fn with_option<'a>(
    alloc: Global,
    command: Command<'a>,
    option: &OptionDefinition<'a>,
) -> Result<Command<'a>, AllocError>
    ensures { Makes (with_option (app_of command.entry)
        option.now.name.now (kind_of option.now.standing)) result }
{
    command.arg(argument(alloc, option))
}

// A command with the options of a group more.
fn with_options<'a>(
    alloc: Global,
    command: Command<'a>,
    options: &[OptionDefinition<'a>],
) -> Result<Command<'a>, AllocError>
    ensures { Makes (with_options (app_of command.entry) (options_in options.now)) result }
{
    let mut command = command;
    for option in options {
        command = with_option(alloc, command, option)?;
    }
    Ok(command)
}

// A command with the options of these groups more.
pub(crate) fn with_groups<'a>(
    alloc: Global,
    command: Command<'a>,
    groups: &[&[OptionDefinition<'a>]],
) -> Result<Command<'a>, AllocError>
    ensures { Makes (with_options (app_of command.entry) (options_of groups.now)) result }
{
    let mut command = command;
    for group in groups {
        command = with_options(alloc, command, group)?;
    }
    Ok(command)
}
