//! The record with a number.

ghost use Rattle.std.specs.Prelude.{◌≡◌, ◌<◌, ◌≤◌, false, length, IfErr, IfOk};
ghost use Rattle.cob_limits.specs.Limits.{longest_record};
ghost use Rattle.cob_records.specs.Device.{Told, counted};
ghost use Rattle.cob_records.specs.Forms.{HasBlockSize};
ghost use Rattle.cob_records.specs.Frame.{is_write_fault};
ghost use Rattle.cob_records_parts.specs.Choices.{stops_by_read};
ghost use Rattle.cob_records_parts.specs.Numbering.{AreFewer, FindsNumbered, StandsInFront};

use crate::choice::Stopped;
use crate::refill::pass_over;
use crate::walk::Walk;
use cob_records::{Form, Source, next_in_form};

/// What is found where the record with a number is looked for.
#[derive(Clone, Copy, PartialEq, Eq)]
pub enum Numbered {
    /// It, of so many bytes.
    Record(usize),
    /// There are only so many records.
    Fewer(u64),
}

/// Reads the record with this number, counted from 1, into the front of the slice, as it came. Those before it are passed over by their frames alone.
///
/// # Errors
///
/// The first frame up to its own that can't be read, with the number of its record.
pub fn find_record<R: Source>(
    source: &mut R,
    form: Form,
    greatest: u16,
    number: u64,
    body: &mut [u8],
) -> Result<Numbered, Stopped>
    requires block { HasBlockSize form }
    requires low { 0 < greatest }
    requires high { greatest ≤ longest_record }
    requires number { 0 < number }
    requires room { length body.old ≡ greatest }
    ensures room { length body.new ≡ length body.old }
    // Where the source tells its bytes: the record is the one with this number, or there are only so many, or a frame up to its own can't be read.
    ensures finds { Told (R.coming source.old) (R.coming source.new)
        (FindsNumbered form greatest number body.new result) }
    // At any source: what is answered may stand in a frame, and a read failed exactly where that is the fault.
    ensures stands { IfOk result (StandsInFront form greatest body.new) }
    ensures fewer { IfOk result (AreFewer number) }
    ensures kind { IfErr result (λ stop. is_write_fault stop.fault ≡ false) }
    ensures cause { R.failures source.new ≡ counted (stops_by_read result) (R.failures source.old) }
{
    let before = number - 1;
    let mut walk = Walk {
        form,
        greatest,
        skip: before,
        last: before,
        number: 0,
        left: 0,
    };
    match pass_over(source, &mut walk, body) {
        Ok(true) => {}
        Ok(false) => return Ok(Numbered::Fewer(walk.number)),
        Err(stop) => return Err(stop),
    }
    match next_in_form(source, form, greatest, body, &mut walk.left) {
        Ok(Some(count)) => Ok(Numbered::Record(count)),
        Ok(None) => Ok(Numbered::Fewer(before)),
        Err(fault) => Err(Stopped { number, fault }),
    }
}
