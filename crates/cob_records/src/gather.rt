ghost use Rattle.std.specs.Prelude.{◌≡◌, ◌+◌, ◌<◌, ◌≤◌, length, OnOk, OnErr, IfOk, IfErr, is_err, true};
ghost use Rattle.cob_limits.specs.Limits.{longest_block, longest_record};
ghost use Rattle.cob_records.specs.Device.{Took, counted};
ghost use Rattle.cob_records.specs.Frame.{Puts, framed, is_write_error, is_write_fault};
ghost use Rattle.cob_records.specs.Blocks.{IsBlockSize, closed_block, closed_by, empty, with_frame};
ghost use Rattle.cob_records.specs.declared.records.Form.TheVariants.{Variable};

use crate::device::Sink;
use crate::records::{DESCRIPTOR, RecordFault, put_block};
use byteorder::{BigEndian, ByteOrder};
use std::alloc::{AllocError, Global};
use std::marker::Model;

/// Records that are gathered in an open block, until the next one does not fit into it.
#[derive(Drop)]
pub struct Gather {
    size: u16,
    room: Vec<u8>,
    count: usize,
    held: u16,
}

impl Model for Gather {
    ghost use Rattle.std.specs.Prelude.{◌≤◌, ◌+◌, ◌≡◌, take, vec_len};
    ghost use Rattle.cob_records.specs.Blocks.{IsBlockSize, OpenBlock};

    ghost Value = { OpenBlock };

    ghost view = { λ g. record { size = g.size; frames = take g.count g.room.items; held = g.held } };

    ghost invariant = { λ g. IsBlockSize g.size × (vec_len g.room ≡ g.size) × (4 + g.count ≤ g.size) × (g.held ≤ g.count) };
}

// Writes a record's frame into a slice of its size.
fn frame_into(target: &mut [u8], body: &[u8])
    requires size { length target.old ≡ 4 + length body.now }
    requires body { length body.now ≤ longest_record }
    ensures { target.new ≡ framed Variable body.now }
{
    let mut head = [0u8; DESCRIPTOR];
    BigEndian::write_u16(&mut head, (DESCRIPTOR + body.len()) as u16);
    target[..DESCRIPTOR].copy_from_slice(&head);
    target[DESCRIPTOR..].copy_from_slice(body);
}

// How many bytes closing a block of these frames writes.
fn closed_length(frames: &[u8]) -> u16
    requires { 4 + length frames.now ≤ longest_block }
    ensures { result ≡ length (closed_block frames.now) }
{
    if frames.is_empty() {
        return 0;
    }
    (DESCRIPTOR + frames.len()) as u16
}

impl Gather {
    /// Room for blocks of at most so many bytes, their descriptor among them.
    ///
    /// # Errors
    ///
    /// Where no memory is left.
    pub fn new(alloc: Global, size: u16) -> Result<Gather, AllocError>
        requires { IsBlockSize size }
        ensures { IfOk result (λ made. made ≡ empty size) }
    {
        let room = vec![in alloc; 0u8; size as usize]?;
        Ok(Gather {
            size,
            room,
            count: 0,
            held: 0,
        })
    }

    /// How many records the open block holds.
    pub fn held(&self) -> u16
        ensures { result ≡ self.now.held }
    {
        self.held
    }

    /// How many bytes closing the open block writes.
    pub fn pending(&self) -> u16
        ensures { result ≡ length (closed_block self.now.frames) }
    {
        closed_length(&self.room[..self.count])
    }

    /// How many bytes one more record writes.
    #[inline(never)]
    pub fn written_by(&self, body: &[u8]) -> u16
        requires { length body.now ≤ longest_record }
        ensures { result ≡ length (closed_by self.now (framed Variable body.now)) }
    {
        if DESCRIPTOR + self.count + (DESCRIPTOR + body.len()) > self.size as usize {
            closed_length(&self.room[..self.count])
        } else {
            0
        }
    }

    /// Adds a record, and first writes the open block where the record's frame doesn't fit into it. It takes no memory.
    ///
    /// # Errors
    ///
    /// [`RecordFault::WriteFailed`] and [`RecordFault::TookNothing`]: the sink took a beginning of the block. Then nothing is gathered.
    #[inline(never)]
    pub fn add<W: Sink>(&mut self, sink: &mut W, body: &[u8]) -> Result<(), RecordFault>
        requires low { 0 < length body.now }
        requires high { 8 + length body.now ≤ self.old.size }
        ensures blocks { Took (W.taken sink.old) (W.taken sink.new)
            (Puts (closed_by self.old (framed Variable body.now)) result) }
        ensures gathered { OnOk result (self.new ≡ with_frame self.old (framed Variable body.now)) }
        ensures emptied { OnErr result (self.new ≡ empty self.old.size) }
        ensures kind { IfErr result (λ fault. is_write_fault fault ≡ true) }
        ensures cause { W.failures sink.new ≡ counted (is_err result) (W.failures sink.old) }
        ensures errors { W.errors sink.new ≡ counted (is_write_error result) (W.errors sink.old) }
    {
        let frame = DESCRIPTOR + body.len();
        if DESCRIPTOR + self.count + frame > self.size as usize {
            let count = self.count;
            self.count = 0;
            self.held = 0;
            put_block(sink, &self.room[..count])?;
        }
        let start = self.count;
        frame_into(&mut self.room[start..start + frame], body);
        self.count = start + frame;
        self.held += 1;
        Ok(())
    }

    /// Writes the open block, where it holds a record. Then nothing is gathered. It takes no memory.
    ///
    /// # Errors
    ///
    /// [`RecordFault::WriteFailed`] and [`RecordFault::TookNothing`]: the sink took a beginning of the block.
    pub fn finish<W: Sink>(&mut self, sink: &mut W) -> Result<(), RecordFault>
        ensures blocks { Took (W.taken sink.old) (W.taken sink.new)
            (Puts (closed_block self.old.frames) result) }
        ensures emptied { self.new ≡ empty self.old.size }
        ensures kind { IfErr result (λ fault. is_write_fault fault ≡ true) }
        ensures cause { W.failures sink.new ≡ counted (is_err result) (W.failures sink.old) }
        ensures errors { W.errors sink.new ≡ counted (is_write_error result) (W.errors sink.old) }
    {
        let count = self.count;
        self.count = 0;
        self.held = 0;
        put_block(sink, &self.room[..count])
    }
}
