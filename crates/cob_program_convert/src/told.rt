//! What both ways to convert have in common: the converter of a command line, and what is told of a run.

ghost use Rattle.std.specs.Prelude.{◌≡◌, ◌<◌, Bool, IfErr};
ghost use Rattle.cob_records.specs.Forms.{HasBlockSize};
ghost use Rattle.cob_program_faults.specs.Done.{status_of_done};
ghost use Rattle.cob_program_faults.specs.Ends.{EndsAs, status_of_conversion};
ghost use Rattle.cob_program_faults.specs.Texts.{LacksConversion};
ghost use Rattle.cob_program_run.specs.Ends.{LacksOutput, LacksOutputs};
ghost use Rattle.cob_program_convert.specs.Ends.{MayEndAside, MayEndConvert};
ghost use Rattle.cob_program_convert.specs.Told.{told_counted_from};

use cob_convert::{Converter, Status};
use cob_program_ends::counted_from;
use cob_program_faults::{CommandDone, CommandFault, Texts, printed, tell_fault, tell_uneven};
use cob_program_line::ConvertLine;
use std::io::{Eprint, Print};
use std::rt::Files;

/// The converter that a command line says, whose texts are read and prepared.
pub(crate) fn prepared_for<R: AllocGlobal + Files>(
    rt: &R,
    line: &ConvertLine<'_>,
) -> Result<Converter, CommandFault>
    requires in_block { HasBlockSize line.now.forms.input }
    requires out_block { HasBlockSize line.now.forms.output }
    ensures { IfErr result LacksConversion }
{
    let texts = Texts {
        in_book: line.texts.in_book,
        out_book: line.texts.out_book,
        moves: line.texts.moves,
    };
    texts.prepared(
        rt,
        line.forms.input,
        line.forms.output,
        line.forms.reading,
        line.lrecl,
    )
}

/// Tells on standard error where the size of the input is no multiple of this length, where each of its records has that.
pub(crate) fn tell_uneven_input<R: Files + Eprint>(rt: &R, line: &ConvertLine<'_>, length: u16)
    requires { 0 < length }
{
    tell_uneven(
        rt,
        line.input,
        line.forms.input,
        length,
        line.from,
        line.bytes,
    );
}

/// What a run came to, its records counted from this one. Its faults are those of its command then.
pub(crate) fn told_counted_from<T>(
    first: u64,
    outcome: Result<T, CommandFault>,
) -> Result<T, CommandFault>
    ensures told { result ≡ told_counted_from first outcome }
    ensures plain { (atomic : Bool) → IfErr outcome (LacksOutput atomic)
        → IfErr result (MayEndConvert atomic) }
    ensures aside { (atomic : Bool) → IfErr outcome (LacksOutputs atomic)
        → IfErr result (MayEndAside atomic) }
{
    match outcome {
        Ok(done) => Ok(done),
        Err(fault) => Err(counted_from(first, fault)),
    }
}

/// Prints what a conversion did, on standard error where records go to standard output, and answers how the command ends.
fn tell_done<R: Print + Eprint>(rt: &R, beside: bool, done: CommandDone) -> Status
    ensures { EndsAs (status_of_done done) result }
{
    let line = if beside {
        eprintln!(rt; "{done}")
    } else {
        println!(rt; "{done}")
    };
    printed(line, done.status())
}

/// Prints what a conversion comes to, and answers how it ends: how many records were converted, and how many set aside where some may be, on standard error
/// where records go to standard output; or its fault.
pub fn tell_converted<R: Print + Eprint>(
    rt: &R,
    beside: bool,
    outcome: Result<CommandDone, CommandFault>,
) -> Status
    ensures { EndsAs (status_of_conversion outcome) result }
{
    match outcome {
        Ok(done) => tell_done(rt, beside, done),
        Err(fault) => tell_fault(rt, fault),
    }
}
