//! Runs that stop at the first record that can't be converted.

ghost use Rattle.std.specs.Prelude.{◌≡◌, ◌+◌, ◌≤◌, false, length, IfSome};
ghost use Rattle.cob_records.specs.Device.{counted, Took, Told};
ghost use Rattle.cob_records.specs.Forms.{FitsForm, emptied, records_held, outlet_of};
ghost use Rattle.cob_convert_record.specs.Rooms.{capacity_for};
ghost use Rattle.cob_convert_record.specs.Conversion.{in_length, out_length};
ghost use Rattle.cob_convert_stream.specs.Reasons.{is_error_cause, is_write_cause};
ghost use Rattle.cob_convert.specs.Run.{Closes, CountsReads, Ran, is_write_stop, is_write_error_stop, limit_reason};
ghost use Rattle.cob_convert.specs.declared.run.TheConstants.{LIMIT};

use crate::outcome::converted;
use cob_convert_record::{Conversion, Room};
use cob_convert_stream::{Cause, Reason, RunFault, Side, write_pending, write_record};
use cob_records::{Outlet, Sink, Source};

/// How many records a run converts at most.
pub(crate) const LIMIT: u64 = u64::MAX - 1;

/// Writes what the outlet holds back, and then answers the number of records that were converted, or why the next one stops the run. Where
/// the write fails, that is the answer, at the first record that was held back.
fn close<W: Sink>(
    outlet: &mut Outlet,
    sink: &mut W,
    done: u64,
    written: u64,
    why: Option<Reason>,
) -> Result<u64, RunFault>
    requires done { done ≤ LIMIT }
    requires held { records_held outlet.old ≤ done }
    requires why { IfSome why (λ reason. is_write_cause reason.cause ≡ false) }
    ensures closes { Took (W.taken sink.old) (W.taken sink.new)
        (Closes outlet.old done written why result) }
    ensures writes { W.failures sink.new ≡ counted (is_write_stop result) (W.failures sink.old) }
    ensures errors { W.errors sink.new ≡ counted (is_write_error_stop result) (W.errors sink.old) }
    ensures emptied { outlet.new ≡ emptied outlet.old }
{
    let held = u64::from(outlet.held());
    let mut written = written;
    if let Err(fault) = write_pending(sink, outlet, &mut written) {
        return Err(Reason::of_write(fault).at(done - held + 1, written));
    }
    match why {
        None => Ok(done),
        Some(reason) => Err(reason.at(done + 1, written)),
    }
}

/// Converts the records of a source, one after another, up to its end or the first stop.
pub fn run_over<R: Source, W: Sink>(
    conversion: &Conversion,
    input: &mut [u8],
    output: &mut [u8],
    outlet: &mut Outlet,
    room: &mut Room,
    source: &mut R,
    sink: &mut W,
) -> Result<u64, RunFault>
    requires input { length input.old ≡ in_length conversion.now }
    requires output { length output.old ≡ out_length conversion.now }
    requires outlet { outlet.old ≡ outlet_of conversion.now.out_form }
    requires fits { FitsForm conversion.now.out_form (out_length conversion.now) }
    requires room { room.old ≡ capacity_for conversion.now.records }
    ensures ran { Told (R.coming source.old) (R.coming source.new) (λ bytes rest.
        Ran conversion.now result bytes rest (W.taken sink.old) (W.taken sink.new)) }
    ensures reads { CountsReads conversion.now.out_form result
        (R.failures source.old) (R.failures source.new) }
    ensures writes { W.failures sink.new ≡ counted (is_write_stop result) (W.failures sink.old) }
    ensures errors { W.errors sink.new ≡ counted (is_write_error_stop result) (W.errors sink.old) }
    // The room that the converter keeps is as large as it was, and nothing is held back.
    ensures outlet { outlet.new ≡ outlet.old }
    ensures room { room.new ≡ room.old }
{
    let mut written: u64 = 0;
    let mut left: u16 = 0;
    for done in 0..LIMIT {
        let count = match conversion.next_whole(source, input, &mut left) {
            Ok(None) => return close(outlet, sink, done, written, None),
            Ok(Some(count)) => count,
            Err(why) => return close(outlet, sink, done, written, Some(why)),
        };
        let made = match converted(conversion, &input[..count], output, room) {
            Ok(made) => made,
            Err(rejected) => return close(outlet, sink, done, written, Some(rejected)),
        };
        let held = u64::from(outlet.held());
        if let Err(fault) = write_record(sink, outlet, &output[..made], &mut written) {
            return Err(Reason::of_write(fault).at(done - held + 1, written));
        }
    }
    let why = Reason {
        side: Side::In,
        offset: 0,
        cause: Cause::Limit,
    };
    close(outlet, sink, LIMIT, written, Some(why))
}
