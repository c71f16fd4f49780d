//! Runs that set rejected records aside and go on.

ghost use Rattle.std.specs.Prelude.{◌≡◌, ◌<◌, ◌≤◌, ◌+◌, ◌-◌, [], ◌∷◌, Err, false, length, OnErr, OnOk, is_err};
ghost use Rattle.cob_limits.specs.Limits.{longest_record};
ghost use Rattle.cob_records.specs.Alone.{framed_alone};
ghost use Rattle.cob_records.specs.Device.{counted, Took, Told};
ghost use Rattle.cob_records.specs.Forms.{FitsForm, emptied, outlet_of};
ghost use Rattle.cob_records.specs.Frame.{Puts, is_write_error};
ghost use Rattle.cob_convert_record.specs.Rooms.{capacity_for};
ghost use Rattle.cob_convert_record.specs.Conversion.{in_length, out_length};
ghost use Rattle.cob_convert_stream.specs.Reasons.{is_read_cause, is_write_cause};
ghost use Rattle.cob_convert.specs.Outcomes.{append_notes};
ghost use Rattle.cob_convert.specs.Aside.{ClosesAside, ClosesAtLimit, CountsUnlessSink, RanAside, is_aside_error, is_aside_fault, is_read_fault, is_sink_ending, is_sink_error, is_sink_fault, tally_for};
ghost use Rattle.cob_convert.specs.declared.run.TheConstants.{LIMIT};

use crate::notes::Notes;
use crate::outcome::converted;
use crate::run::LIMIT;
use cob_convert_record::{Conversion, Room};
use cob_convert_stream::{Cause, Reason, RunFault, Side, write_pending, write_record};
use cob_records::{Form, Outlet, RecordFault, Sink, Source, put_alone};
use std::fmt;

/// How many records a run converted, and how many it rejected and set aside.
#[derive(Clone, Copy, PartialEq, Eq)]
pub struct Tally {
    pub converted: u64,
    pub rejected: u64,
}

/// Why a run that sets rejected records aside stopped.
#[derive(Clone, Copy, PartialEq, Eq)]
pub enum AsideFault {
    /// At a record, or at a device that gives records or takes what they become.
    Stopped(RunFault),
    /// The record of this number is rejected, and it could not be set aside: the write failed or took nothing. So many bytes were written of what
    /// the records before it became.
    NotSetAside {
        number: u64,
        cause: RecordFault,
        written: u64,
    },
}

impl fmt::Display for AsideFault {
    fn fmt<W: fmt::Write>(&self, f: &mut fmt::Formatter<W>) -> fmt::Result {
        match self {
            AsideFault::Stopped(fault) => write!(f, "{fault}"),
            AsideFault::NotSetAside { number, cause, .. } => {
                write!(f, "record {number} rejects offset 0 {cause}")
            }
        }
    }
}

/// Why a run that sets rejected records aside is over.
#[derive(Clone, Copy)]
pub(crate) enum AsideOutcome {
    /// The input is at its end.
    Done,
    /// The next record stops it, or as many as a run takes came.
    Stopped(Reason),
    /// The next record is rejected, and it could not be set aside.
    NotSetAside(RecordFault),
}

/// Sets a rejected record aside, as it came, and notes why.
///
/// # Errors
///
/// Those of [`put_alone`]: then nothing is noted.
fn set_aside<A: Sink, N: Notes>(
    aside: &mut A,
    notes: &mut N,
    form: Form,
    body: &[u8],
    fault: RunFault,
) -> Result<(), RecordFault>
    requires low { 0 < length body.now }
    requires high { length body.now ≤ longest_record }
    ensures aside { Took (A.taken aside.old) (A.taken aside.new)
        (Puts (framed_alone form body.now) result) }
    ensures noted { OnOk result (N.told notes.new ≡ append_notes (N.told notes.old) (fault ∷ [])) }
    ensures unnoted { OnErr result (N.told notes.new ≡ N.told notes.old) }
    ensures cause { A.failures aside.new ≡ counted (is_err result) (A.failures aside.old) }
    ensures errors { A.errors aside.new ≡ counted (is_write_error result) (A.errors aside.old) }
{
    match put_alone(aside, form, body) {
        Ok(()) => {
            notes.note(fault);
            Ok(())
        }
        Err(cause) => Err(cause),
    }
}

/// The tally behind so many records, of which so many were rejected.
fn tally_behind(done: u64, rejected: u64) -> Tally
    requires { rejected ≤ done }
    ensures { result ≡ tally_for done rejected }
{
    Tally {
        converted: done - rejected,
        rejected,
    }
}

/// The first record of which nothing is written yet, behind one more that was converted: where the outlet holds none, the next one, and where it
/// holds just this one, this.
fn first_behind_converted(held: u16, number: u64, first: u64) -> u64
    requires { number ≤ LIMIT }
    ensures none { held ≡ 0 → result ≡ number + 1 }
    ensures one { held ≡ 1 → result ≡ number }
    ensures more { 1 < held → result ≡ first }
{
    match held {
        0 => number + 1,
        1 => number,
        _ => first,
    }
}

/// The first record of which nothing is written yet, behind one more that was rejected: where the outlet holds none, the next one.
fn first_behind_rejected(held: u16, number: u64, first: u64) -> u64
    requires { number ≤ LIMIT }
    ensures none { held ≡ 0 → result ≡ number + 1 }
    ensures some { 0 < held → result ≡ first }
{
    if held == 0 { number + 1 } else { first }
}

/// Writes what the outlet holds back, and then answers what a run comes to that is over for this behind so many records. Where the write fails,
/// that is the answer, at the first record that was held back.
fn close_aside<W: Sink>(
    outlet: &mut Outlet,
    sink: &mut W,
    tally: Tally,
    done: u64,
    first: u64,
    written: u64,
    why: AsideOutcome,
) -> Result<Tally, AsideFault>
    requires done { done ≤ LIMIT }
    requires why { is_sink_ending why ≡ false }
    ensures closes { Took (W.taken sink.old) (W.taken sink.new)
        (ClosesAside outlet.old tally done first written why result) }
    ensures writes { W.failures sink.new ≡ counted (is_sink_fault result) (W.failures sink.old) }
    ensures errors { W.errors sink.new ≡ counted (is_sink_error result) (W.errors sink.old) }
    ensures emptied { outlet.new ≡ emptied outlet.old }
{
    let mut written = written;
    if let Err(fault) = write_pending(sink, outlet, &mut written) {
        let fault = Reason::of_write(fault).at(first, written);
        return Err(AsideFault::Stopped(fault));
    }
    match why {
        AsideOutcome::Done => Ok(tally),
        AsideOutcome::Stopped(reason) => Err(AsideFault::Stopped(reason.at(done + 1, written))),
        AsideOutcome::NotSetAside(cause) => Err(AsideFault::NotSetAside {
            number: done + 1,
            cause,
            written,
        }),
    }
}

/// Writes what the outlet holds back, and then answers that a run took as many records as it may. Where the write fails, that is the answer.
fn close_at_limit<W: Sink>(
    outlet: &mut Outlet,
    sink: &mut W,
    rejected: u64,
    first: u64,
    written: u64,
) -> Result<Tally, AsideFault>
    requires rejected { rejected ≤ LIMIT }
    ensures closes { Took (W.taken sink.old) (W.taken sink.new)
        (ClosesAtLimit outlet.old rejected first written result) }
    ensures writes { W.failures sink.new ≡ counted (is_sink_fault result) (W.failures sink.old) }
    ensures errors { W.errors sink.new ≡ counted (is_sink_error result) (W.errors sink.old) }
    ensures emptied { outlet.new ≡ emptied outlet.old }
{
    let why = AsideOutcome::Stopped(Reason {
        side: Side::In,
        offset: 0,
        cause: Cause::Limit,
    });
    let tally = tally_behind(LIMIT, rejected);
    close_aside(outlet, sink, tally, LIMIT, first, written, why)
}

/// Converts the records of a source, one after another, and sets aside those that are rejected, up to the end of the source, the first stop, or the
/// record behind as many rejected ones as may be.
pub fn run_over_aside<R: Source, W: Sink, A: Sink, N: Notes>(
    conversion: &Conversion,
    input: &mut [u8],
    output: &mut [u8],
    outlet: &mut Outlet,
    room: &mut Room,
    source: &mut R,
    sink: &mut W,
    aside: &mut A,
    notes: &mut N,
    most: u64,
) -> Result<Tally, AsideFault>
    requires input { length input.old ≡ in_length conversion.now }
    requires output { length output.old ≡ out_length conversion.now }
    requires outlet { outlet.old ≡ outlet_of conversion.now.out_form }
    requires fits { FitsForm conversion.now.out_form (out_length conversion.now) }
    requires room { room.old ≡ capacity_for conversion.now.records }
    ensures ran { Told (R.coming source.old) (R.coming source.new) (λ bytes rest.
        RanAside conversion.now most result bytes rest
        (record { sink = W.taken sink.old; aside = A.taken aside.old; notes = N.told notes.old })
        (record { sink = W.taken sink.new; aside = A.taken aside.new; notes = N.told notes.new })) }
    ensures reads { CountsUnlessSink conversion.now.out_form result (is_read_fault result)
        (R.failures source.old) (R.failures source.new) }
    ensures writes { W.failures sink.new ≡ counted (is_sink_fault result) (W.failures sink.old) }
    ensures errors { W.errors sink.new ≡ counted (is_sink_error result) (W.errors sink.old) }
    ensures aside_writes { CountsUnlessSink conversion.now.out_form result (is_aside_fault result)
        (A.failures aside.old) (A.failures aside.new) }
    ensures aside_errors { CountsUnlessSink conversion.now.out_form result (is_aside_error result)
        (A.errors aside.old) (A.errors aside.new) }
    // The room that the converter keeps is as large as it was, and nothing is held back.
    ensures outlet { outlet.new ≡ outlet.old }
    ensures room { room.new ≡ room.old }
{
    // For `set_aside`: a record of the input has a byte, and no more than the longest.
    conversion.in_length();
    let form = conversion.in_form();
    let mut rejected: u64 = 0;
    let mut first: u64 = 1;
    let mut written: u64 = 0;
    let mut left: u16 = 0;
    for done in 0..LIMIT {
        let tally = tally_behind(done, rejected);
        let count = match conversion.next_whole(source, input, &mut left) {
            Ok(Some(count)) => count,
            Ok(None) => return close_aside(
                outlet,
                sink,
                tally,
                done,
                first,
                written,
                AsideOutcome::Done,
            ),
            Err(why) => {
                let why = AsideOutcome::Stopped(why);
                return close_aside(outlet, sink, tally, done, first, written, why);
            }
        };
        let made = match converted(conversion, &input[..count], output, room) {
            Ok(made) => made,
            Err(why) => {
                if rejected == most {
                    let why = AsideOutcome::Stopped(why);
                    return close_aside(outlet, sink, tally, done, first, written, why);
                }
                let fault = why.at(done + 1, written);
                if let Err(cause) = set_aside(aside, notes, form, &input[..count], fault) {
                    let why = AsideOutcome::NotSetAside(cause);
                    return close_aside(outlet, sink, tally, done, first, written, why);
                }
                rejected += 1;
                first = first_behind_rejected(outlet.held(), done + 1, first);
                continue;
            }
        };
        if let Err(fault) = write_record(sink, outlet, &output[..made], &mut written) {
            let fault = Reason::of_write(fault).at(first, written);
            return Err(AsideFault::Stopped(fault));
        }
        first = first_behind_converted(outlet.held(), done + 1, first);
    }
    close_at_limit(outlet, sink, rejected, first, written)
}
