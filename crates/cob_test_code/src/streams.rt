//! Readers and writers as ends.

use crate::calls::{expect_bytes, expect_number, expect_put, expect_read};
use crate::frames::FRAME;
use cob_records::{Form, ReadSource, RecordFault, Sink, WriteSink};
use std::alloc::Global;
use std::io;
use std::io::{BufWriter, ErrorKind, Read, Write};
use std::process::Abort;
use std::test::Fail;

/// The record of `FRAME`.
const RECORD: &[u8] = b"\xF1\xC1\xC2\xE9";

/// A device that is interrupted before each call, moves a byte at a time, and fails once no more is left.
#[derive(Drop)]
struct Device {
    interrupted: bool,
    left: u8,
}

/// A device that moves so many bytes.
fn moving(left: u8) -> Device {
    Device {
        interrupted: false,
        left,
    }
}

impl Device {
    fn turn(&mut self) -> io::Result<()> {
        self.interrupted = !self.interrupted;
        if self.interrupted {
            return Err(io::Error::from(ErrorKind::Interrupted));
        }
        if self.left == 0 {
            return Err(io::Error::from(ErrorKind::Other));
        }
        self.left -= 1;
        Ok(())
    }
}

impl Read for Device {
    fn read(&mut self, buf: &mut [u8]) -> io::Result<usize> {
        self.turn()?;
        if buf.is_empty() {
            return Ok(0);
        }
        buf[0] = 0xC1;
        Ok(1)
    }
}

impl Write for Device {
    fn write(&mut self, buf: &[u8]) -> io::Result<usize> {
        self.turn()?;
        Ok(buf.len().min(1))
    }

    fn flush(&mut self) -> io::Result<()> {
        self.turn()
    }
}

#[test]
fn reads_from_a_reader(rt: HostRuntime) {
    let mut slot = [0u8; 8];
    let mut source = ReadSource::new(FRAME);
    expect_read(&rt, &mut source, Form::Variable, &mut slot, Ok(Some(4)));
    expect_bytes(&rt, &slot[..4], b"\xF1\xC1\xC2\xE9");
    expect_read(&rt, &mut source, Form::Variable, &mut slot, Ok(None));
    expect_number(&rt, source.into_inner().len(), 0);
}

/// A device that gives three bytes.
#[test]
fn reads_until_the_reader_fails(rt: HostRuntime) {
    let mut slot = [0u8; 2];
    let mut source = ReadSource::new(moving(3));
    expect_read(&rt, &mut source, Form::Fixed, &mut slot, Ok(Some(2)));
    expect_bytes(&rt, &slot, b"\xC1\xC1");
    let failed = Err(RecordFault::ReadFailed);
    expect_read(&rt, &mut source, Form::Fixed, &mut slot, failed);
}

#[test]
fn writes_to_a_writer(rt: HostRuntime) {
    let mut sink = WriteSink::new(Vec::new(rt.alloc()));
    expect_put(&rt, &mut sink, Form::Variable, RECORD, Ok(()));
    expect_bytes(&rt, sink.into_inner().as_slice(), FRAME);
}

/// A device that takes six bytes.
#[test]
fn writes_until_the_writer_fails(rt: HostRuntime) {
    let mut sink = WriteSink::new(moving(6));
    let failed = RecordFault::WriteFailed { taken: 6 };
    expect_put(&rt, &mut sink, Form::Variable, RECORD, Err(failed));
}

#[test]
fn writes_until_the_writer_is_full(rt: HostRuntime) {
    let mut room = [0u8; 2];
    let mut sink = WriteSink::new(room.as_mut_slice());
    assert!(rt; sink.write(b"\xC1\xC2\xC3") == Ok(2));
    let full = RecordFault::TookNothing { taken: 0 };
    expect_put(&rt, &mut sink, Form::Fixed, b"\xC3", Err(full));
}

/// A buffered writer over a device that moves so many bytes: whether a record and a flush are handed on, and how many bytes are still held.
fn expect_flush(
    rt: &impl Abort,
    alloc: Global,
    left: u8,
    is_flushed: bool,
    held: usize,
) -> Result<(), Fail> {
    let mut sink = WriteSink::new(BufWriter::new(alloc, moving(left))?);
    expect_put(rt, &mut sink, Form::Variable, RECORD, Ok(()));
    assert!(rt; sink.flush().is_ok() == is_flushed);
    expect_number(rt, sink.into_inner().buffer().len(), held);
    Ok(())
}

/// Eight bytes and a flush need nine turns of the device.
#[test]
fn flushes_a_buffered_writer(rt: HostRuntime) -> Result<(), Fail> {
    expect_flush(&rt, rt.alloc(), 9, true, 0)?;
    expect_flush(&rt, rt.alloc(), 8, false, 0)?;
    expect_flush(&rt, rt.alloc(), 6, false, 2)
}

/// A device that would block at each call, and counts them.
#[derive(Drop)]
struct Blocked {
    calls: u8,
}

impl Blocked {
    fn turn(&mut self) -> io::Error {
        self.calls = self.calls.wrapping_add(1);
        io::Error::from(ErrorKind::WouldBlock)
    }
}

impl Read for Blocked {
    fn read(&mut self, _buf: &mut [u8]) -> io::Result<usize> {
        Err(self.turn())
    }
}

impl Write for Blocked {
    fn write(&mut self, _buf: &[u8]) -> io::Result<usize> {
        Err(self.turn())
    }

    fn flush(&mut self) -> io::Result<()> {
        Err(self.turn())
    }
}

#[test]
fn asks_a_blocked_reader_once(rt: HostRuntime) {
    let mut slot = [0u8; 2];
    let mut source = ReadSource::new(Blocked { calls: 0 });
    let failed = Err(RecordFault::ReadFailed);
    expect_read(&rt, &mut source, Form::Fixed, &mut slot, failed);
    assert!(rt; source.into_inner().calls == 1);
}

#[test]
fn asks_a_blocked_writer_once(rt: HostRuntime) {
    let mut sink = WriteSink::new(Blocked { calls: 0 });
    let failed = RecordFault::WriteFailed { taken: 0 };
    expect_put(&rt, &mut sink, Form::Fixed, b"\xC1", Err(failed));
    assert!(rt; sink.into_inner().calls == 1);
}

#[test]
fn asks_a_blocked_writer_once_behind_a_buffer(rt: HostRuntime) -> Result<(), Fail> {
    let mut sink = WriteSink::new(BufWriter::new(rt.alloc(), Blocked { calls: 0 })?);
    expect_put(&rt, &mut sink, Form::Fixed, b"\xC1", Ok(()));
    assert!(rt; sink.flush().is_err());
    assert!(rt; sink.into_inner().get_ref().calls == 1);
    Ok(())
}
