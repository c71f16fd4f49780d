//! Why moves stop at a record, as the reason of a run.

ghost use Rattle.std.specs.Prelude.{◌≡◌, false};
ghost use Rattle.cob_convert_stream.specs.Reasons.{is_write_cause};
ghost use Rattle.cob_convert_record.specs.Reasons.{cause_from, stop_reason};

use cob_convert_stream::{Cause, Reason};
use cob_move_apply::{Stop, StopCause};

/// The cause of a stop as that of a run, which is no fault of writing.
pub fn cause_from(cause: StopCause) -> Cause
    ensures cause { result ≡ cause_from cause }
    ensures kind { is_write_cause result ≡ false }
{
    match cause {
        StopCause::NoValue => Cause::NoValue,
        StopCause::Count => Cause::Count,
        StopCause::Subscript => Cause::Subscript,
    }
}

/// The reason of a record whose conversion stops.
pub fn stop_reason(stop: Stop) -> Reason
    ensures reason { result ≡ stop_reason stop }
    ensures kind { is_write_cause result.cause ≡ false }
{
    Reason {
        side: stop.side,
        offset: stop.offset,
        cause: cause_from(stop.cause),
    }
}
