//! A record that is written by itself.

ghost use Rattle.std.specs.Prelude.{◌≡◌, ◌<◌, ◌≤◌, length, IfErr, is_err, true};
ghost use Rattle.cob_limits.specs.Limits.{longest_record};
ghost use Rattle.cob_records.specs.Alone.{framed_alone};
ghost use Rattle.cob_records.specs.Device.{Took, counted};
ghost use Rattle.cob_records.specs.Frame.{Puts, PutsPart, framed, is_write_error, is_write_fault};
ghost use Rattle.cob_records.specs.declared.records.Form.TheVariants.{Variable};

use crate::device::Sink;
use crate::records::{DESCRIPTOR, Form, RecordFault, put_all, put_record};
use byteorder::{BigEndian, ByteOrder};

/// Writes the frame of a record behind the descriptor of its block.
fn put_in_block<W: Sink>(sink: &mut W, body: &[u8]) -> Result<(), RecordFault>
    requires high { length body.now ≤ longest_record }
    ensures taken { PutsPart 4 (framed Variable body.now) result (W.taken sink.old)
        (W.taken sink.new) }
    ensures kind { IfErr result (λ fault. is_write_fault fault ≡ true) }
    ensures cause { W.failures sink.new ≡ counted (is_err result) (W.failures sink.old) }
    ensures errors { W.errors sink.new ≡ counted (is_write_error result) (W.errors sink.old) }
{
    let mut head = [0u8; DESCRIPTOR];
    BigEndian::write_u16(&mut head, (DESCRIPTOR + body.len()) as u16);
    put_all(sink, DESCRIPTOR, &head)?;
    put_all(sink, DESCRIPTOR + DESCRIPTOR, body)
}

/// Writes a block that holds just this record.
fn put_block_alone<W: Sink>(sink: &mut W, most: u16, body: &[u8]) -> Result<(), RecordFault>
    requires high { length body.now ≤ longest_record }
    ensures block { Took (W.taken sink.old) (W.taken sink.new)
        (Puts (framed_alone (Form.Blocked most) body.now) result) }
    ensures kind { IfErr result (λ fault. is_write_fault fault ≡ true) }
    ensures cause { W.failures sink.new ≡ counted (is_err result) (W.failures sink.old) }
    ensures errors { W.errors sink.new ≡ counted (is_write_error result) (W.errors sink.old) }
{
    let frame = DESCRIPTOR + body.len();
    let mut head = [0u8; DESCRIPTOR];
    BigEndian::write_u16(&mut head, (DESCRIPTOR + frame) as u16);
    put_all(sink, 0, &head)?;
    put_in_block(sink, body)
}

/// Writes a record of 1 to 32,752 bytes by itself: in the forms `Fixed` and `Variable` its frame, and in blocks a block that holds just it.
/// Nothing is held back, and no memory is taken.
///
/// # Errors
///
/// Those of [`put_record`]: the sink took a beginning of the frame, or of the block.
pub fn put_alone<W: Sink>(sink: &mut W, form: Form, body: &[u8]) -> Result<(), RecordFault>
    requires low { 0 < length body.now }
    requires high { length body.now ≤ longest_record }
    ensures written { Took (W.taken sink.old) (W.taken sink.new)
        (Puts (framed_alone form body.now) result) }
    ensures kind { IfErr result (λ fault. is_write_fault fault ≡ true) }
    ensures cause { W.failures sink.new ≡ counted (is_err result) (W.failures sink.old) }
    ensures errors { W.errors sink.new ≡ counted (is_write_error result) (W.errors sink.old) }
{
    match form {
        Form::Fixed => put_record(sink, Form::Fixed, body),
        Form::Variable => put_record(sink, Form::Variable, body),
        Form::Blocked(most) => put_block_alone(sink, most, body),
    }
}
