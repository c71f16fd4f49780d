//! Frames in memory.

use crate::calls::{expect_bytes, expect_number, expect_put, expect_read};
use cob_records::{
    Form, MemSink, MemSource, RecordFault, frames_are_one, frames_read_back, reading_is_one,
};
use std::process::Abort;

/// A whole frame of form v: a record of four bytes, where the greatest has eight.
pub(crate) const FRAME: &[u8] = b"\x00\x08\x00\x00\xF1\xC1\xC2\xE9";

#[test]
fn reads_fixed_records(rt: HostRuntime) {
    let mut slot = [0u8; 5];
    let mut source = MemSource::new(b"\xC1\xC2\xC3\xF0\xF7\xC1\xC2");
    expect_read(&rt, &mut source, Form::Fixed, &mut slot, Ok(Some(5)));
    expect_bytes(&rt, &slot, b"\xC1\xC2\xC3\xF0\xF7");
    let cut = RecordFault::Truncated { seen: 2 };
    expect_read(&rt, &mut source, Form::Fixed, &mut slot, Err(cut));
    expect_read(&rt, &mut source, Form::Fixed, &mut slot, Ok(None));
}

#[test]
fn reads_variable_records(rt: HostRuntime) {
    reading_is_one();
    let mut slot = [0u8; 8];
    let mut source = MemSource::new(b"\x00\x08\x00\x00\xF1\xC1\xC2\xE9\x00\x05\x00\x00\xC1");
    expect_read(&rt, &mut source, Form::Variable, &mut slot, Ok(Some(4)));
    expect_bytes(&rt, &slot, b"\xF1\xC1\xC2\xE9\x00\x00\x00\x00");
    expect_bytes(&rt, source.rest(), b"\x00\x05\x00\x00\xC1");
    expect_read(&rt, &mut source, Form::Variable, &mut slot, Ok(Some(1)));
    expect_bytes(&rt, &slot[..1], b"\xC1");
    expect_read(&rt, &mut source, Form::Variable, &mut slot, Ok(None));
}

/// A descriptor is refused, and nothing of the byte behind it is taken.
fn refuses(rt: &impl Abort, bytes: &[u8], fault: RecordFault) {
    let mut slot = [0u8; 8];
    let mut source = MemSource::new(bytes);
    expect_read(rt, &mut source, Form::Variable, &mut slot, Err(fault));
    expect_bytes(rt, source.rest(), b"\xC1");
}

/// A descriptor that is refused is the last that is read: nothing of what stands behind it is taken.
#[test]
fn reads_no_further_than_a_refused_descriptor(rt: HostRuntime) {
    refuses(&rt, b"\x00\x05\x01\x00\xC1", RecordFault::Spanned);
    refuses(&rt, b"\x00\x05\x00\x01\xC1", RecordFault::Descriptor);
    refuses(&rt, b"\x00\x0D\x00\x00\xC1", RecordFault::Length);
}

#[test]
fn counts_the_bytes_of_a_cut_frame(rt: HostRuntime) {
    let mut slot = [0u8; 8];
    for seen in 1usize..8 {
        let mut source = MemSource::new(&FRAME[..seen]);
        let cut = RecordFault::Truncated { seen };
        expect_read(&rt, &mut source, Form::Variable, &mut slot, Err(cut));
        expect_number(&rt, source.rest().len(), 0);
    }
}

/// A frame that was written is read back.
fn reads_back(rt: &impl Abort, frame: &[u8], body: &[u8; 252]) {
    let mut source = MemSource::new(frame);
    let mut slot = [0u8; 300];
    expect_read(rt, &mut source, Form::Variable, &mut slot, Ok(Some(252)));
    assert!(rt; slot.starts_with(body));
}

/// A record of 252 bytes, whose descriptor's number needs both of its bytes.
#[test]
fn writes_and_reads_a_long_record(rt: HostRuntime) {
    frames_are_one();
    frames_read_back();
    let body = [0xC1u8; 252];
    let mut room = [0u8; 256];
    let mut sink = MemSink::new(&mut room);
    expect_put(&rt, &mut sink, Form::Variable, &body, Ok(()));
    expect_number(&rt, sink.taken().len(), 256);
    reads_back(&rt, sink.taken(), &body);
    expect_bytes(&rt, &room[..5], b"\x01\x00\x00\x00\xC1");
}
