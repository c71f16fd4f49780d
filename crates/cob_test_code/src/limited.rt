//! Ends that fail after so many bytes, which they move in pieces.

ghost use Rattle.std.specs.Prelude.{◌<◌};

use crate::calls::{ReadAnswer, expect_bytes, expect_number, expect_put, expect_read};
use crate::frames::FRAME;
use cob_records::{Form, Limited, MemSink, MemSource, RecordFault, Sink};
use std::process::Abort;

/// Two records of form f, of five bytes each.
const TWO: &[u8] = b"\xC1\xC2\xC3\xF0\xF7\xC4\xC5\xC6\xF0\xF8";

/// The record of `FRAME`.
const RECORD: &[u8] = b"\xF1\xC1\xC2\xE9";

/// Two records of nine bytes each, as they are written.
const NINE: &[u8] = b"\xF0\xF0\xF0\xF7\xC1\xC2\xC3\x40\x40";

/// What a source that fails answers.
const FAILED: ReadAnswer = Err(RecordFault::ReadFailed);

/// A source that fails in the second record has given what stands before.
fn reads_one_and_fails(rt: &impl Abort, piece: usize)
    requires { 0 < piece }
{
    let mut slot = [0u8; 5];
    let mut source = Limited::new(MemSource::new(TWO), piece, 7);
    expect_read(rt, &mut source, Form::Fixed, &mut slot, Ok(Some(5)));
    expect_read(rt, &mut source, Form::Fixed, &mut slot, FAILED);
    expect_bytes(rt, source.inner().rest(), b"\xC6\xF0\xF8");
}

/// A source that fails behind the second record has given both.
fn reads_two_and_fails(rt: &impl Abort, piece: usize)
    requires { 0 < piece }
{
    let mut slot = [0u8; 5];
    let mut source = Limited::new(MemSource::new(TWO), piece, 10);
    expect_read(rt, &mut source, Form::Fixed, &mut slot, Ok(Some(5)));
    expect_read(rt, &mut source, Form::Fixed, &mut slot, Ok(Some(5)));
    expect_bytes(rt, &slot, b"\xC4\xC5\xC6\xF0\xF8");
    expect_read(rt, &mut source, Form::Fixed, &mut slot, FAILED);
}

#[test]
fn reads_in_pieces_until_the_source_fails(rt: HostRuntime) {
    for piece in [1usize, 100] {
        reads_one_and_fails(&rt, piece);
        reads_two_and_fails(&rt, piece);
    }
}

/// A source that fails in the frame gives no record.
fn reads_no_cut_frame(rt: &impl Abort, piece: usize)
    requires { 0 < piece }
{
    let mut slot = [0u8; 8];
    for after in 0u64..8 {
        let mut inner = MemSource::new(FRAME);
        let mut source = Limited::new(&mut inner, piece, after);
        expect_read(rt, &mut source, Form::Variable, &mut slot, FAILED);
    }
}

/// A source that fails behind the frame gives its record.
fn reads_a_frame(rt: &impl Abort, piece: usize)
    requires { 0 < piece }
{
    let mut slot = [0u8; 8];
    let mut source = Limited::new(MemSource::new(FRAME), piece, 8);
    expect_read(rt, &mut source, Form::Variable, &mut slot, Ok(Some(4)));
}

#[test]
fn reads_a_variable_frame_from_a_source_that_fails(rt: HostRuntime) {
    for piece in [1usize, 100] {
        reads_no_cut_frame(&rt, piece);
        reads_a_frame(&rt, piece);
    }
}

/// Writes a record whole, and then another, of which the sink takes three bytes.
fn writes_one_and_three_bytes<R: Abort, W: Sink>(rt: &R, sink: &mut W, fault: RecordFault) {
    expect_put(rt, sink, Form::Fixed, NINE, Ok(()));
    expect_put(rt, sink, Form::Fixed, NINE, Err(fault));
}

/// A sink fails in the second record.
fn writes_until_the_sink_fails(rt: &impl Abort, piece: usize)
    requires { 0 < piece }
{
    let mut room = [0u8; 20];
    let mut sink = Limited::new(MemSink::new(&mut room), piece, 12);
    writes_one_and_three_bytes(rt, &mut sink, RecordFault::WriteFailed { taken: 3 });
    expect_number(rt, sink.inner().taken().len(), 12);
}

/// A sink has no more room in the second record.
fn writes_until_the_sink_is_full(rt: &impl Abort, piece: usize)
    requires { 0 < piece }
{
    let mut room = [0u8; 12];
    let mut sink = Limited::new(MemSink::new(&mut room), piece, 100);
    writes_one_and_three_bytes(rt, &mut sink, RecordFault::TookNothing { taken: 3 });
    expect_number(rt, sink.inner().taken().len(), 12);
}

/// A sink that would fail behind the second record takes both.
fn writes_two(rt: &impl Abort, piece: usize)
    requires { 0 < piece }
{
    let mut room = [0u8; 18];
    let mut sink = Limited::new(MemSink::new(&mut room), piece, 18);
    expect_put(rt, &mut sink, Form::Fixed, NINE, Ok(()));
    expect_put(rt, &mut sink, Form::Fixed, NINE, Ok(()));
}

#[test]
fn writes_in_pieces_until_the_sink_fails(rt: HostRuntime) {
    for piece in [1usize, 100] {
        writes_until_the_sink_fails(&rt, piece);
        writes_until_the_sink_is_full(&rt, piece);
        writes_two(&rt, piece);
    }
}

/// A sink takes a frame, and fails in the second.
fn writes_a_variable_frame_and_fails(rt: &impl Abort, piece: usize)
    requires { 0 < piece }
{
    let mut room = [0u8; 20];
    let mut sink = Limited::new(MemSink::new(&mut room), piece, 14);
    expect_put(rt, &mut sink, Form::Variable, RECORD, Ok(()));
    expect_bytes(rt, sink.inner().taken(), FRAME);
    let failed = RecordFault::WriteFailed { taken: 6 };
    expect_put(rt, &mut sink, Form::Variable, RECORD, Err(failed));
}

#[test]
fn writes_variable_frames(rt: HostRuntime) {
    for piece in [1usize, 100] {
        writes_a_variable_frame_and_fails(&rt, piece);
    }
    let mut room = [0u8; 3];
    let mut sink = MemSink::new(&mut room);
    let full = RecordFault::TookNothing { taken: 3 };
    expect_put(&rt, &mut sink, Form::Variable, RECORD, Err(full));
    expect_bytes(&rt, sink.taken(), b"\x00\x08\x00");
}
