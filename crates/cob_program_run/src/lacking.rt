//! What is told of a run an output of which was not handed to its device whole, or is not on it.

ghost use Rattle.std.specs.Prelude.{◌≡◌, ◌<◌};
ghost use Rattle.cob_program_run.specs.Ends.{StopsRun, StopsRunAside};
ghost use Rattle.cob_program_run.specs.Finished.{as_aside, fails_output, lacking, lacking_output, lacking_rejects, records_before, unflushed_fault};

use crate::marks::Marks;
use cob_convert::{AsideFault, Cause, RunFault, Tally};
use cob_program_faults::CommandFault;
use cob_records::RecordFault;

/// Whether an output failed.
fn is_failed_output(fault: AsideFault) -> bool
    ensures { result ≡ fails_output fault }
{
    matches!(
        fault,
        AsideFault::NotSetAside { .. }
            | AsideFault::Stopped(RunFault {
                cause: Cause::Record(
                    RecordFault::WriteFailed { .. } | RecordFault::TookNothing { .. },
                ),
                ..
            },)
    )
}

/// How many records came whole and were converted or set aside.
fn records_before(answer: Result<Tally, AsideFault>) -> u64
    ensures { result ≡ records_before answer }
{
    match answer {
        Ok(tally) => tally.converted.saturating_add(tally.rejected),
        Err(AsideFault::Stopped(stopped)) => stopped.number.saturating_sub(1),
        Err(AsideFault::NotSetAside { number, .. }) => number.saturating_sub(1),
    }
}

/// What is told of a run an output of which was not handed to its device, whose last record is this one, 0 where there is none: that it is not there
/// whole, unless an output failed before or none is lacking.
fn lacking(answer: Result<Tally, AsideFault>, last: u64, unflushed: CommandFault) -> CommandFault
    requires { 0 < last → StopsRunAside unflushed }
    ensures told { result ≡ lacking answer last unflushed }
    ensures stops { StopsRunAside result }
{
    match answer {
        Ok(_) if last == 0 => CommandFault::Unprinted,
        Err(stop) if last == 0 || is_failed_output(stop) => CommandFault::from(stop),
        _ => unflushed,
    }
}

/// What is told where the output was not handed to its device, or is not on it.
pub(crate) fn lacking_output(answer: Result<Tally, AsideFault>, marks: Marks) -> CommandFault
    ensures told { result ≡ lacking_output answer marks }
    ensures stops { StopsRunAside result }
{
    let last = marks.last_put(records_before(answer));
    lacking(answer, last, CommandFault::Unflushed { last })
}

/// What is told where the rejected records were not handed to their device, or are not on it.
pub(crate) fn lacking_rejects(answer: Result<Tally, AsideFault>, marks: Marks) -> CommandFault
    ensures told { result ≡ lacking_rejects answer marks }
    ensures stops { StopsRunAside result }
{
    let last = marks.last;
    lacking(answer, last, CommandFault::UnflushedAside { last })
}

/// The answer of a run as that of one that sets records aside, and rejected none.
fn as_aside(answer: Result<u64, RunFault>) -> Result<Tally, AsideFault>
    ensures { result ≡ as_aside answer }
{
    match answer {
        Ok(done) => Ok(Tally {
            converted: done,
            rejected: 0,
        }),
        Err(fault) => Err(AsideFault::Stopped(fault)),
    }
}

/// What is told of a run that sets none aside and whose last bytes could not be handed to the device: a write that failed before, as it is; else that the
/// last record that was put is not written whole, in the place of a stop behind it. Where no record was put the output lacks none, so that a stop is told
/// as it is.
pub(crate) fn unflushed(answer: Result<u64, RunFault>) -> CommandFault
    ensures told { result ≡ unflushed_fault answer }
    ensures stops { StopsRun result }
{
    lacking_output(as_aside(answer), Marks::new())
}
