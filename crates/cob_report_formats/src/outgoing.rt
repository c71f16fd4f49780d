//! Texts of any length that go to a sink.

ghost use Rattle.std.specs.Prelude.{◌≡◌, OnOk};
ghost use Rattle.std.specs.Io.KnownBytes.{append_known};

use cob_limits::MAX_RECORD;
use cob_records::{RecordFault, Sink};
use cob_report_show::put;
use std::io;
use std::io::{ErrorKind, Write};

/// How many bytes go to a sink at once: as many as the longest record has.
const PIECE: usize = MAX_RECORD as usize;

/// Writes a text, all of it. To what was sent so far it adds how many bytes the sink took, up to the greatest number.
pub(crate) fn put_text<W: Sink>(
    sink: &mut W,
    sent: &mut u64,
    text: &[u8],
) -> Result<(), RecordFault>
    ensures whole { OnOk result (W.taken sink.new ≡ append_known (W.taken sink.old) text.now) }
{
    let mut rest = text;
    while !rest.is_empty() {
        let (piece, behind) = rest.split_at(rest.len().min(PIECE));
        put(sink, sent, piece)?;
        rest = behind;
    }
    Ok(())
}

/// A writer round a sink. Behind a write that failed it takes nothing more.
#[derive(Drop)]
pub(crate) struct Outgoing<'a, W> {
    sink: &'a mut W,
    sent: u64,
    fault: Option<RecordFault>,
}

impl<'a, W> Outgoing<'a, W> {
    /// A writer round this sink, to which nothing was sent yet.
    pub(crate) fn new(sink: &'a mut W) -> Outgoing<'a, W> {
        Outgoing {
            sink,
            sent: 0,
            fault: None,
        }
    }

    /// How many bytes the sink took.
    pub(crate) fn sent(&self) -> u64 {
        self.sent
    }

    /// The fault of the write that failed, where one did.
    pub(crate) fn fault(&self) -> Option<RecordFault> {
        self.fault
    }
}

impl<W: Sink> Write for Outgoing<'_, W> {
    fn write(&mut self, bytes: &[u8]) -> io::Result<usize> {
        if self.fault.is_some() {
            return Err(io::Error::from(ErrorKind::Other));
        }
        match put_text(&mut *self.sink, &mut self.sent, bytes) {
            Ok(()) => Ok(bytes.len()),
            Err(fault) => {
                self.fault = Some(fault);
                Err(io::Error::from(ErrorKind::Other))
            }
        }
    }

    fn flush(&mut self) -> io::Result<()> {
        Ok(())
    }
}
