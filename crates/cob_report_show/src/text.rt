//! Texts that go to a sink, and lines that are made up before.

ghost use Rattle.std.specs.Prelude.{◌≡◌, ◌<◌, ◌≤◌, ◌+◌, ◌++◌, length, decimal, IfErr, is_err, true};
ghost use Rattle.cob_limits.specs.Limits.{longest_record};
ghost use Rattle.cob_records.specs.Device.{counted, Took};
ghost use Rattle.cob_records.specs.Frame.{is_write_error, is_write_fault};
ghost use Rattle.cob_report_show.specs.Sent.{SendsText, taken_by};

use arrayvec::ArrayVec;
use cob_records::{Form, RecordFault, Sink, put_record};
use itoa::Buffer;

/// Room for the front of a line and what stands behind it: a name of 30 characters, 7 subscripts of 10 digits in brackets, an offset and a
/// number.
const ROOM: usize = 256;

/// The text of a line or of a part of one, made up before it is written.
pub type ListingLine = ArrayVec<u8, ROOM>;

/// How many bytes of a text of so many went out in a call that answers so.
fn taken_by(answer: Result<(), RecordFault>, long: usize) -> usize
    ensures { result ≡ taken_by answer long }
{
    match answer {
        Ok(()) => long,
        Err(fault) => fault.taken(),
    }
}

/// Writes a text, all of it. To what was sent so far it adds how many bytes the sink took, up to the greatest number.
pub fn put<W: Sink>(sink: &mut W, sent: &mut u64, text: &[u8]) -> Result<(), RecordFault>
    requires some { 0 < length text.now }
    requires most { length text.now ≤ longest_record }
    // The sink took the text, or where it failed a beginning that is less than the whole.
    ensures lines { Took (W.taken sink.old) (W.taken sink.new)
        (SendsText text.now sent.old sent.new result) }
    ensures few { sent.new ≤ sent.old + length text.now }
    ensures kind { IfErr result (λ fault. is_write_fault fault ≡ true) }
    ensures cause { W.failures sink.new ≡ counted (is_err result) (W.failures sink.old) }
    ensures errors { W.errors sink.new ≡ counted (is_write_error result) (W.errors sink.old) }
{
    let answer = put_record(sink, Form::Fixed, text);
    *sent = sent.saturating_add(taken_by(answer, text.len()) as u64);
    answer
}

/// Adds a text.
pub fn push_text(line: &mut ListingLine, text: &[u8])
    requires { length line.old.items + length text.now ≤ 256 }
    ensures text { line.new.items ≡ line.old.items ++ text.now }
{
    line.try_extend_from_slice(text).unwrap();
}

/// Adds a number in decimal digits.
pub(crate) fn push_number(line: &mut ListingLine, number: u32)
    requires { length line.old.items + 10 ≤ 256 }
    ensures text { line.new.items ≡ line.old.items ++ decimal number }
    ensures long { length line.new.items ≤ length line.old.items + 10 }
{
    let mut buffer = Buffer::new();
    push_text(line, buffer.format(number).as_bytes());
}
