//! The record that is explained.

ghost use Rattle.std.specs.Prelude.{◌≡◌, IfErr, IfOk, length, false};
ghost use Rattle.cob_report_explain.specs.Walked.{HoldsFound};
ghost use Rattle.cob_convert_record.specs.Conversion.{in_length};
ghost use Rattle.cob_convert_record.specs.Rooms.{capacity_for};
ghost use Rattle.cob_convert_stream.specs.Reasons.{is_write_cause};
ghost use Rattle.cob_records.specs.Frame.{is_write_fault};

use cob_convert_record::{Conversion, Reason, Room};
use cob_convert_stream::sized_are_storages;
use cob_records::Source;
use cob_records_parts::{Numbered, Stopped, find_record};

/// A record that is refused: its number, from 1, and why.
#[derive(Clone, Copy)]
pub(crate) struct Refused {
    pub(crate) number: u64,
    pub(crate) why: Reason,
}

/// A record that is refused because a frame up to its own can't be read.
fn unread(stop: Stopped) -> Refused
    requires { is_write_fault stop.fault ≡ false }
    ensures { is_write_cause result.why.cause ≡ false }
{
    Refused {
        number: stop.number,
        why: Reason::of_frame(stop.fault),
    }
}

/// Reads the record with this number into the front of the slice, and judges it by its layout; 0 is taken for 1. Those before it are read by their frames
/// alone.
///
/// # Errors
///
/// The first frame that can't be read; of this record also a count that isn't valid, or a length other than that which its counts give.
pub(crate) fn input_record<R: Source>(
    conversion: &Conversion,
    source: &mut R,
    number: u64,
    slot: &mut [u8],
    room: &mut Room,
) -> Result<Numbered, Refused>
    requires slot { length slot.old ≡ in_length conversion.now }
    requires room { room.old ≡ capacity_for conversion.now.records }
    ensures record { IfOk result (λ found. HoldsFound conversion.now.records.input slot.new found) }
    ensures kind { IfErr result (λ refused. is_write_cause refused.why.cause ≡ false) }
{
    // For `record`: what is one of the layout's records holds a record of it.
    sized_are_storages();
    let (form, greatest) = (conversion.in_form(), conversion.in_length());
    let number = number.max(1);
    match find_record(source, form, greatest, number, slot) {
        Ok(Numbered::Record(count)) => match conversion.judge(&slot[..count], room) {
            Ok(()) => Ok(Numbered::Record(count)),
            Err(why) => Err(Refused { number, why }),
        },
        Ok(Numbered::Fewer(records)) => Ok(Numbered::Fewer(records)),
        Err(stop) => Err(unread(stop)),
    }
}
