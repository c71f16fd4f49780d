//! Which record is the first that is converted, and faults whose records are counted from it.

ghost use Rattle.std.specs.Prelude.{◌≡◌, ◌+◌};
ghost use Rattle.cob_records.specs.Progress.{kept_count};
ghost use Rattle.cob_program_ends.specs.Counted.{counted_from, number_from};

use cob_convert_stream::RunFault;
use cob_program_faults::CommandFault;
use cob_program_line::ConvertLine;

/// The number of the first record that is converted.
pub fn first_of(line: &ConvertLine<'_>) -> u64
    ensures { result ≡ kept_count (line.now.first + line.now.skip) }
{
    line.first.saturating_add(line.skip)
}

/// The number of a record, where the first that was read has this one.
pub fn counted_on(first: u64, number: u64) -> u64
    ensures { result ≡ number_from first number }
{
    number.saturating_add(first.saturating_sub(1))
}

/// A fault with its records counted from this one.
pub fn counted_from(first: u64, fault: CommandFault) -> CommandFault
    ensures { result ≡ counted_from first fault }
{
    match fault {
        CommandFault::Stopped(stopped) => CommandFault::Stopped(RunFault {
            number: counted_on(first, stopped.number),
            ..stopped
        }),
        CommandFault::Unflushed { last } => CommandFault::Unflushed {
            last: counted_on(first, last),
        },
        CommandFault::NotSetAside { number, cause } => CommandFault::NotSetAside {
            number: counted_on(first, number),
            cause,
        },
        CommandFault::UnflushedAside { last: rejected } => CommandFault::UnflushedAside {
            last: counted_on(first, rejected),
        },
        other => other,
    }
}
