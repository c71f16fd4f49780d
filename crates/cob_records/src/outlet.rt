ghost use Rattle.std.specs.Prelude.{◌≡◌, ◌<◌, ◌≤◌, drop, length, OnOk, OnErr, IfOk, IfErr, IfSome, is_err, true, false};
ghost use Rattle.cob_limits.specs.Limits.{longest_record};
ghost use Rattle.cob_records.specs.Device.{Told, Took, counted};
ghost use Rattle.cob_records.specs.Frame.{IsLength, IsSeen, Puts, is_read_failure, is_write_error, is_write_fault};
ghost use Rattle.cob_records.specs.Forms.{FitsIn, HasBlockSize, ReadsInForm, emptied, records_held, outlet_of, pending_in, outlet_with, written_by};

use crate::blocked::next_blocked;
use crate::device::{Sink, Source};
use crate::gather::Gather;
use crate::records::{Form, RecordFault, next_record, put_record};
use std::alloc::{AllocError, Global};

/// Where records of any form go to, one after another: unblocked ones each by itself, blocked ones by way of an open block.
#[derive(Drop)]
pub enum Outlet {
    /// Each record in the form `Fixed`.
    UnblockedFixed,
    /// Each record in the form `Variable`.
    UnblockedVariable,
    /// Records in blocks, of which this is the open one.
    Blocks(Gather),
}

impl Outlet {
    /// Room for records in this form.
    ///
    /// # Errors
    ///
    /// Where no memory is left.
    pub fn new(alloc: Global, form: Form) -> Result<Outlet, AllocError>
        requires { HasBlockSize form }
        ensures { IfOk result (λ made. made ≡ outlet_of form) }
    {
        Ok(match form {
            Form::Fixed => Outlet::UnblockedFixed,
            Form::Variable => Outlet::UnblockedVariable,
            Form::Blocked(size) => Outlet::Blocks(Gather::new(alloc, size)?),
        })
    }

    /// How many records are held back in the open block.
    #[inline(always)]
    pub fn held(&self) -> u16
        ensures { result ≡ records_held self.now }
    {
        match self {
            Outlet::UnblockedFixed => 0,
            Outlet::UnblockedVariable => 0,
            Outlet::Blocks(gather) => gather.held(),
        }
    }

    /// How many bytes one more record writes.
    #[inline(always)]
    pub fn written_by(&self, body: &[u8]) -> u16
        requires { length body.now ≤ longest_record }
        ensures { result ≡ length (written_by self.now body.now) }
    {
        match self {
            Outlet::UnblockedFixed => body.len() as u16,
            Outlet::UnblockedVariable => body.len() as u16 + 4,
            Outlet::Blocks(gather) => gather.written_by(body),
        }
    }

    /// How many bytes are still to be written.
    pub fn pending(&self) -> u16
        ensures { result ≡ length (pending_in self.now) }
    {
        match self {
            Outlet::UnblockedFixed => 0,
            Outlet::UnblockedVariable => 0,
            Outlet::Blocks(gather) => gather.pending(),
        }
    }

    /// Writes a record's frame; or in blocks first the open one, where the frame doesn't fit into it, and gathers it. It takes no memory.
    ///
    /// # Errors
    ///
    /// Those of [`put_record`]: the sink took a beginning of the frame, or of the block. Then nothing is held back.
    #[inline(always)]
    pub fn add<W: Sink>(&mut self, sink: &mut W, body: &[u8]) -> Result<(), RecordFault>
        requires low { 0 < length body.now }
        requires high { length body.now ≤ longest_record }
        requires fits { FitsIn self.old body.now }
        ensures written { Took (W.taken sink.old) (W.taken sink.new)
            (Puts (written_by self.old body.now) result) }
        ensures added { OnOk result (self.new ≡ outlet_with self.old body.now) }
        ensures emptied { OnErr result (self.new ≡ emptied self.old) }
        ensures kind { IfErr result (λ fault. is_write_fault fault ≡ true) }
        ensures cause { W.failures sink.new ≡ counted (is_err result) (W.failures sink.old) }
        ensures errors { W.errors sink.new ≡ counted (is_write_error result) (W.errors sink.old) }
    {
        match self {
            Outlet::UnblockedFixed => put_record(sink, Form::Fixed, body),
            Outlet::UnblockedVariable => put_record(sink, Form::Variable, body),
            Outlet::Blocks(gather) => gather.add(sink, body),
        }
    }

    /// Writes the open block, where it holds a record. Then nothing is held back. It takes no memory.
    ///
    /// # Errors
    ///
    /// Those of [`put_record`]: the sink took a beginning of the block.
    pub fn finish<W: Sink>(&mut self, sink: &mut W) -> Result<(), RecordFault>
        ensures written { Took (W.taken sink.old) (W.taken sink.new)
            (Puts (pending_in self.old) result) }
        ensures emptied { self.new ≡ emptied self.old }
        ensures kind { IfErr result (λ fault. is_write_fault fault ≡ true) }
        ensures cause { W.failures sink.new ≡ counted (is_err result) (W.failures sink.old) }
        ensures errors { W.errors sink.new ≡ counted (is_write_error result) (W.errors sink.old) }
    {
        match self {
            Outlet::UnblockedFixed => Ok(()),
            Outlet::UnblockedVariable => Ok(()),
            Outlet::Blocks(gather) => gather.finish(sink),
        }
    }
}

/// Reads the next record of a stream in any form into the front of the slice, as [`next_record`] and [`next_blocked`] do, and answers its
/// length in bytes, or `None` where no byte is left. `left` is what the open block still holds: 0 before the first record, and always
/// without blocks.
///
/// # Errors
///
/// Those of [`next_record`] and [`next_blocked`].
#[inline(always)]
pub fn next_in_form<R: Source>(
    source: &mut R,
    form: Form,
    greatest: u16,
    slot: &mut [u8],
    left: &mut u16,
) -> Result<Option<usize>, RecordFault>
    requires block { HasBlockSize form }
    requires low { 0 < greatest }
    requires high { greatest ≤ longest_record }
    requires room { length slot.old ≡ greatest }
    ensures frame { Told (R.coming source.old) (R.coming source.new)
        (ReadsInForm form greatest left.old slot.new result left.new) }
    ensures size { IfOk result (λ found. IfSome found (IsLength form greatest)) }
    ensures behind { IfOk result (λ found. IfSome found (λ n. drop n slot.new ≡ drop n slot.old)) }
    ensures seen { IfErr result (IsSeen form greatest) }
    ensures kind { IfErr result (λ fault. is_write_fault fault ≡ false) }
    ensures cause { R.failures source.new
        ≡ counted (is_read_failure result) (R.failures source.old) }
{
    match form {
        Form::Fixed => next_record(source, form, greatest, slot),
        Form::Variable => next_record(source, form, greatest, slot),
        Form::Blocked(most) => next_blocked(source, most, greatest, slot, left),
    }
}
