//! What is told of a record that is passed over or chosen and can't be read.

ghost use Rattle.std.specs.Prelude.{◌≡◌, false};
ghost use Rattle.cob_records.specs.Frame.{is_write_fault};
ghost use Rattle.cob_records_parts.specs.Gives.{IfStopped};
ghost use Rattle.cob_program_ends.specs.Stops.{LacksRecords, cause_told, stop_told, unchosen};

use crate::counted::counted_on;
use cob_convert_stream::{Cause, Reason, RunFault};
use cob_program_faults::CommandFault;
use cob_records::RecordFault;
use cob_records_parts::{ChoiceFault, Stopped};

/// Where a record of a piece stops a command that is passed over, where the piece begins with the record of this number and so many of its records were
/// jumped over before.
fn stopped_at(first: u64, jumped: u64, stop: Stopped) -> CommandFault
    ensures { result ≡ stop_told first jumped stop }
{
    let number = stop.number.saturating_add(jumped);
    let why = Reason::of_frame(stop.fault);
    CommandFault::Stopped(why.at(counted_on(first, number), 0))
}

/// What is told where none of the chosen records comes.
pub fn not_chosen(first: u64, jumped: u64, fault: ChoiceFault) -> CommandFault
    requires { IfStopped fault (λ stop. is_write_fault stop.fault ≡ false) }
    ensures told { result ≡ unchosen first jumped fault }
    ensures lacks { LacksRecords result }
{
    match fault {
        ChoiceFault::Stopped(stop) => stopped_at(first, jumped, stop),
        ChoiceFault::Memory => CommandFault::Memory,
    }
}

/// The fault of a run over chosen records: where a read failed because a frame can't be read, that is why.
pub fn with_cause(stop: Option<Stopped>, fault: RunFault) -> RunFault
    ensures { result ≡ cause_told stop fault }
{
    match (stop, fault.cause) {
        (Some(stop), Cause::Record(RecordFault::ReadFailed)) => RunFault {
            cause: Cause::Record(stop.fault),
            ..fault
        },
        _ => fault,
    }
}
