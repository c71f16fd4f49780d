//! Ends over files and standard streams, with their buffers.

ghost use Rattle.cob_records.specs.Forms.{HasBlockSize};

use crate::calls::expect_read;
use crate::frames::FRAME;
use cob_records::{
    Form, MemSource, OpenFault, Opened, Progress, RecordFault, Sink, Source, Telling, create_sink,
    next_record, open_source, put_record,
};
use std::io::Eprint;
use std::process::Abort;
use std::rt::Clock;

/// How many records of ten bytes: more than one buffer holds.
const MANY: usize = 10_000;

/// Looks whether this is so, where memory for a buffer was not refused.
fn expect_opened(rt: &impl Abort, answer: Result<bool, OpenFault>) {
    match answer {
        Ok(is_so) => assert!(rt; is_so),
        Err(fault) => assert_eq!(rt; fault, OpenFault::Memory),
    }
}

/// Whether a source gives no record.
fn gives_none<S: Source>(source: &mut S) -> bool {
    let mut slot = [0u8; 10];
    next_record(source, Form::Fixed, 10, &mut slot) == Ok(None)
}

/// Whether this file gives no record.
fn reads_none(rt: HostRuntime, path: &str) -> Result<bool, OpenFault> {
    let mut source = open_source(&rt, path)?;
    Ok(gives_none(&mut source))
}

#[test]
fn reads_nothing_from_an_empty_file(rt: HostRuntime) {
    expect_opened(&rt, reads_none(rt, "/dev/null"));
}

/// Whether a source gives a record of zeros.
fn gives_zeros<S: Source>(source: &mut S) -> bool {
    let mut slot = [1u8; 10];
    next_record(source, Form::Fixed, 10, &mut slot) == Ok(Some(10)) && slot == [0u8; 10]
}

/// Whether a source gives many records of zeros.
fn gives_many_zeros<S: Source>(source: &mut S) -> bool {
    for _ in 0..MANY {
        if !gives_zeros(source) {
            return false;
        }
    }
    true
}

/// Whether this file gives many records of zeros.
fn reads_many_zeros(rt: HostRuntime, path: &str) -> Result<bool, OpenFault> {
    let mut source = open_source(&rt, path)?;
    Ok(gives_many_zeros(&mut source))
}

#[test]
fn reads_more_than_a_buffer(rt: HostRuntime) {
    expect_opened(&rt, reads_many_zeros(rt, "/dev/zero"));
}

#[test]
fn opens_no_missing_file(rt: HostRuntime) {
    let missing = open_source(&rt, "/dev/null/missing");
    assert_eq!(rt; missing.err(), Some(OpenFault::NotOpened));
    let missing = create_sink(&rt, "/dev/null/missing");
    assert_eq!(rt; missing.err(), Some(OpenFault::NotOpened));
}

/// Whether a source of this name is a standard stream.
fn reads_a_standard_stream(rt: HostRuntime, name: &str) -> Result<bool, OpenFault> {
    let reader = open_source(&rt, name)?.into_inner();
    Ok(matches!(reader.get_ref(), Opened::Standard(_)))
}

/// Whether a sink of this name is a standard stream, and hands on an empty buffer.
fn writes_a_standard_stream(rt: HostRuntime, name: &str) -> Result<bool, OpenFault> {
    let mut sink = create_sink(&rt, name)?;
    let is_flushed = sink.flush().is_ok();
    let writer = sink.into_inner();
    Ok(is_flushed && matches!(writer.get_ref(), Opened::Standard(_)))
}

#[test]
fn a_hyphen_is_a_standard_stream(rt: HostRuntime) {
    expect_opened(&rt, reads_a_standard_stream(rt, "-"));
    expect_opened(&rt, writes_a_standard_stream(rt, "-"));
}

/// Writes a record of ten bytes.
fn put_ten<W: Sink>(sink: &mut W) -> Result<(), RecordFault> {
    let record = [0xF0u8; 10];
    put_record(sink, Form::Fixed, &record)
}

/// How many of many records a sink takes before one fails, and what that one answers.
fn put_many<W: Sink>(sink: &mut W) -> (usize, Result<(), RecordFault>) {
    for taken in 0..MANY {
        let answer = put_ten(sink);
        if answer.is_err() {
            return (taken, answer);
        }
    }
    (MANY, Ok(()))
}

/// How many of many records this file takes before one fails, what that one answers, and whether the buffer is handed on behind it.
fn filled(
    rt: HostRuntime,
    path: &str,
) -> Result<(usize, Result<(), RecordFault>, bool), OpenFault> {
    let mut sink = create_sink(&rt, path)?;
    let (taken, answer) = put_many(&mut sink);
    Ok((taken, answer, sink.flush().is_ok()))
}

/// What this file answers to one record, and whether the buffer is handed on behind it.
fn filled_by_one(
    rt: HostRuntime,
    path: &str,
) -> Result<(Result<(), RecordFault>, bool), OpenFault> {
    let mut sink = create_sink(&rt, path)?;
    let answer = put_ten(&mut sink);
    Ok((answer, sink.flush().is_ok()))
}

/// A full device fails when the buffer is handed on: at the record that no longer fits, or at the last flush.
#[test]
fn a_full_device_fails_when_the_buffer_is_handed_on(rt: HostRuntime) {
    let failed = Err(RecordFault::WriteFailed { taken: 0 });
    match filled(rt, "/dev/full") {
        Ok(end) => assert_eq!(rt; end, (6_553, failed, false)),
        Err(fault) => assert_eq!(rt; fault, OpenFault::Memory),
    }
    match filled_by_one(rt, "/dev/full") {
        Ok(end) => assert_eq!(rt; end, (Ok(()), false)),
        Err(fault) => assert_eq!(rt; fault, OpenFault::Memory),
    }
    match filled(rt, "/dev/null") {
        Ok(end) => assert_eq!(rt; end, (MANY, Ok(()), true)),
        Err(fault) => assert_eq!(rt; fault, OpenFault::Memory),
    }
}

/// A source that tells its progress gives the record of `FRAME` in this form, and then no other.
fn tells_and_reads<R: Abort + Clock + Eprint>(rt: &R, form: Form, size: usize)
    requires { HasBlockSize form }
{
    let mut slot = [0u8; 8];
    let telling = Telling {
        size: Some(8),
        rewrites: false,
    };
    let mut source = Progress::new(MemSource::new(FRAME), rt, form, 8, telling);
    expect_read(rt, &mut source, form, &mut slot, Ok(Some(size)));
    expect_read(rt, &mut source, form, &mut slot, Ok(None));
}

/// A source that tells its progress gives what the one inside gives. Nothing is told before a second has gone by.
#[test]
fn progress_changes_nothing(rt: HostRuntime) {
    tells_and_reads(&rt, Form::Variable, 4);
    tells_and_reads(&rt, Form::Fixed, 8);
}
