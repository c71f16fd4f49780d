//! Conversions that say why a record stops them.

ghost use Rattle.cob_program_convert.specs.Ends.{MayEndAside, MayEndConvert};
ghost use Rattle.cob_program_faults.specs.Ends.{EndsAmong, EndsAs, EndsAside, status_of_conversion};
ghost use Rattle.cob_program_faults.specs.Faults.{status_of};
ghost use Rattle.cob_program_faults.specs.declared.fault.CommandFault.TheVariants.{Stopped as StoppedFault};
ghost use Rattle.cob_records.specs.Forms.{HasBlockSize};

use crate::stops::stop_words;
use cob_convert::Status;
use cob_convert_stream::RunFault;
use cob_program_convert::{convert, convert_aside, tell_converted};
use cob_program_ends::is_standard_output;
use cob_program_faults::{CommandDone, CommandFault, printed, tell_fault};
use cob_program_line::ConvertLine;
use std::io::{Eprint, Input, Print};
use std::rt::{Clock, Files};

/// Prints words behind a fault, where there are some, and answers how a command ends that would end so.
fn tell_words<R: Eprint>(rt: &R, status: Status, words: &str) -> Status
    ensures { EndsAs status result }
{
    if words.is_empty() {
        status
    } else {
        printed(eprintln!(rt; "{words}"), status)
    }
}

/// Prints what is wrong behind a fault, where it is known, and answers how a command ends that would end so.
pub(crate) fn tell_known<R: Eprint>(rt: &R, status: Status, words: Option<String>) -> Status
    ensures { EndsAs status result }
{
    match words {
        Some(words) => tell_words(rt, status, &words),
        None => status,
    }
}

/// Prints the fault line of a record or a device that stopped a run, and behind it why a record did, and answers how the command ends.
fn tell_stop<R: AllocGlobal + Files + Input + Eprint>(
    rt: &R,
    line: &ConvertLine<'_>,
    fault: RunFault,
) -> Status
    requires in_block { HasBlockSize line.now.forms.input }
    requires out_block { HasBlockSize line.now.forms.output }
    ensures { EndsAs (status_of (StoppedFault fault)) result }
{
    let status = tell_fault(rt, CommandFault::Stopped(fault));
    tell_known(rt, status, stop_words(rt, line, fault))
}

/// Prints what a conversion comes to, and behind a stop why, and answers how it ends.
pub fn tell_explained<R: AllocGlobal + Files + Input + Print + Eprint>(
    rt: &R,
    line: &ConvertLine<'_>,
    beside: bool,
    outcome: Result<CommandDone, CommandFault>,
) -> Status
    requires in_block { HasBlockSize line.now.forms.input }
    requires out_block { HasBlockSize line.now.forms.output }
    ensures { EndsAs (status_of_conversion outcome) result }
{
    match outcome {
        Err(CommandFault::Stopped(fault)) => tell_stop(rt, line, fault),
        other => tell_converted(rt, beside, other),
    }
}

/// Converts, prints how many records there were or what is at fault, and of a record why it stops the run, and answers how the program ends.
pub fn do_convert_explained<R: AllocGlobal + Files + Input + Print + Eprint + Clock>(
    rt: &R,
    line: &ConvertLine<'_>,
) -> Status
    requires in_block { HasBlockSize line.now.forms.input }
    requires out_block { HasBlockSize line.now.forms.output }
    ensures { EndsAmong (MayEndConvert line.now.atomic) result }
{
    let beside = is_standard_output(rt, line.output);
    tell_explained(rt, line, beside, convert(rt, line))
}

/// Converts and sets rejected records aside in the file `rejects`, prints what comes of it, and of a record that ends the run why, and answers how the
/// program ends.
pub fn do_convert_aside_explained<R: AllocGlobal + Files + Input + Print + Eprint + Clock>(
    rt: &R,
    line: &ConvertLine<'_>,
    rejects: &str,
) -> Status
    requires in_block { HasBlockSize line.now.forms.input }
    requires out_block { HasBlockSize line.now.forms.output }
    ensures { EndsAside (MayEndAside line.now.atomic) result }
{
    let beside = is_standard_output(rt, line.output) || is_standard_output(rt, rejects);
    tell_explained(rt, line, beside, convert_aside(rt, line, rejects))
}
