//! A record of a file, and what it becomes.

ghost use Rattle.std.specs.Prelude.{◌≡◌, ◌<◌, ◌≤◌, IfErr, IfOk, false, length, take};
ghost use Rattle.cob_convert.specs.Run.{IsConverted};
ghost use Rattle.cob_convert_record.specs.Conversion.{in_length, out_length};
ghost use Rattle.cob_convert_record.specs.Rooms.{capacity_for};
ghost use Rattle.cob_records.specs.Device.{Told};
ghost use Rattle.cob_records.specs.Frame.{IsRecord, is_write_fault};
ghost use Rattle.cob_convert_stream.specs.Reasons.{frame_reason, is_write_cause, reason_of};
ghost use Rattle.cob_records_parts.specs.Numbering.{AreFewer};
ghost use Rattle.cob_program_map.specs.Numbered.{FindsRecord, ShowsRecord, StopsWhole, numbered_of};

use cob_convert_record::{Conversion, Room, stop_reason};
use cob_convert_stream::{Reason, RunFault, sized_are_storages};
use cob_records::Source;
use cob_records_parts::{Numbered, Stopped, find_record};

/// How many bytes a record has, and how many of what it becomes are written.
#[derive(Clone, Copy, PartialEq, Eq)]
pub struct Lengths {
    pub input: usize,
    pub output: usize,
}

/// Why no record is shown where the frame of one up to it can't be read.
fn unread(stop: Stopped) -> RunFault
    requires { is_write_fault stop.fault ≡ false }
    ensures reason { reason_of result ≡ frame_reason stop.fault }
    ensures number { result.number ≡ stop.number }
    ensures kind { is_write_cause result.cause ≡ false }
{
    Reason::of_frame(stop.fault).at(stop.number, 0)
}

/// What is found where a record with a number is looked for.
#[derive(Clone, Copy, PartialEq, Eq)]
pub enum FoundRecord {
    /// The record, at the front of its buffer, and what it becomes, at the front of the other one.
    Record(Lengths),
    /// The input has only so many records.
    Fewer(u64),
}

/// Judges a record that came whole, which has this number, and makes of it what it becomes.
///
/// # Errors
///
/// It isn't one of the layout; the first move that stops, a count of the output that isn't valid.
fn convert_found(
    conversion: &Conversion,
    number: u64,
    input: &[u8],
    output: &mut [u8],
    room: &mut Room,
) -> Result<usize, RunFault>
    requires record { IsRecord conversion.now.in_form (in_length conversion.now) input.now }
    requires output { length output.old ≡ out_length conversion.now }
    requires room { room.old ≡ capacity_for conversion.now.records }
    ensures within { IfOk result (λ made. made ≤ length output.new) }
    ensures converts { IfOk result
        (λ made. IsConverted conversion.now (input.now, take made output.new)) }
    ensures stops { IfErr result (StopsWhole conversion.now input.now number) }
    ensures kind { IfErr result (λ fault. is_write_cause fault.cause ≡ false) }
{
    // What is one of the layout's records holds a record of it.
    sized_are_storages();
    if let Err(why) = conversion.judge(input, room) {
        return Err(why.at(number, 0));
    }
    match conversion.convert(input, output, room) {
        Ok(made) => Ok(made),
        Err(stop) => Err(stop_reason(stop).at(number, 0)),
    }
}

/// Reads the record with this number of a source, counted from 1, and makes of it what it becomes. Those before it are read by their frames alone.
///
/// # Errors
///
/// A frame that can't be read, a record that isn't one of the layout, the first move that stops, a count of the output that isn't valid.
pub fn converted_record<S: Source>(
    conversion: &Conversion,
    number: u64,
    input: &mut [u8],
    output: &mut [u8],
    room: &mut Room,
    source: &mut S,
) -> Result<FoundRecord, RunFault>
    requires number { 0 < number }
    requires input { length input.old ≡ in_length conversion.now }
    requires output { length output.old ≡ out_length conversion.now }
    requires room { room.old ≡ capacity_for conversion.now.records }
    // The record stands in the one buffer, and what it becomes in the other.
    ensures shows { IfOk result (ShowsRecord conversion.now input.new output.new) }
    ensures fewer { IfOk result (λ found. AreFewer number (numbered_of found)) }
    // Where the source tells its bytes: it is the one with this number, or there are only so many, or one up to it stops.
    ensures finds { Told (S.coming source.old) (S.coming source.new)
        (FindsRecord conversion.now number input.new result) }
    ensures kind { IfErr result (λ fault. is_write_cause fault.cause ≡ false) }
{
    let (form, greatest) = (conversion.in_form(), conversion.in_length());
    let count = match find_record(source, form, greatest, number, input) {
        Ok(Numbered::Record(count)) => count,
        Ok(Numbered::Fewer(there)) => return Ok(FoundRecord::Fewer(there)),
        Err(stop) => return Err(unread(stop)),
    };
    match convert_found(conversion, number, &input[..count], output, room) {
        Ok(made) => Ok(FoundRecord::Record(Lengths {
            input: count,
            output: made,
        })),
        Err(fault) => Err(fault),
    }
}
