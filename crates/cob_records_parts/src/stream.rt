//! Streams cut by their descriptors.

ghost use Rattle.std.specs.Prelude.{◌≡◌, ◌+◌, ◌<◌, ◌≤◌, false, length, IfErr, IfOk};
ghost use Rattle.cob_limits.specs.Limits.{longest_record};
ghost use Rattle.cob_records.specs.Device.{Told, counted};
ghost use Rattle.cob_records.specs.Forms.{HasBlockSize};
ghost use Rattle.cob_records.specs.Frame.{is_write_fault};
ghost use Rattle.cob_records_parts.specs.Cut.{IfFrame, IsAllCut, IsUncut, is_failed_cut};
ghost use Rattle.cob_records_parts.specs.Reading.{Finds, is_failed_next, next_size, size_behind};

use crate::cut::{close_full, finish};
use crate::piece::{Piece, PiecesFault, Start};
use cob_records::{Form, RecordFault, Source, next_in_form};
use std::alloc::Global;

/// How many records a stream may have that is cut.
pub const MOST_RECORDS_CUT: u64 = 1 << 48;

/// What comes next of a stream.
#[derive(Clone, Copy)]
enum Next {
    /// A whole frame of so many bytes.
    Whole(u64),
    /// The last bytes, so many, which are less than a frame; or none.
    Last(u64),
}

/// How many bytes the frame of a record of so many bytes has, with the descriptor of its block where no block was open before it.
fn size_behind(form: Form, left: u16, count: usize) -> u64
    requires { count ≤ longest_record }
    ensures size { result ≡ size_behind form left count }
    ensures most { result ≤ longest_record + 8 }
{
    let count = count as u64;
    match form {
        Form::Fixed => count,
        Form::Variable => 4 + count,
        Form::Blocked(_) if left == 0 => 8 + count,
        Form::Blocked(_) => 4 + count,
    }
}

/// Reads what comes next.
///
/// # Errors
///
/// A frame that can't be read, but for one that the stream ends in.
fn next_frame<R: Source>(
    source: &mut R,
    form: Form,
    greatest: u16,
    slot: &mut [u8],
    left: &mut u16,
) -> Result<Next, RecordFault>
    requires block { HasBlockSize form }
    requires low { 0 < greatest }
    requires high { greatest ≤ longest_record }
    requires room { length slot.old ≡ greatest }
    ensures finds { Told (R.coming source.old) (R.coming source.new)
        (Finds form greatest left.old result left.new) }
    ensures most { IfOk result (λ next. next_size next ≤ longest_record + 8) }
    ensures kind { IfErr result (λ fault. is_write_fault fault ≡ false) }
    ensures cause { R.failures source.new
        ≡ counted (is_failed_next result) (R.failures source.old) }
{
    let before = *left;
    match next_in_form(source, form, greatest, slot, left) {
        Ok(Some(count)) => Ok(Next::Whole(size_behind(form, before, count))),
        Ok(None) => Ok(Next::Last(0)),
        Err(RecordFault::Truncated { seen }) => Ok(Next::Last(seen as u64)),
        Err(fault) => Err(fault),
    }
}

/// Cuts a stream of records, by a slice with room for one.
fn cut_stream<R: Source>(
    alloc: Global,
    source: &mut R,
    form: Form,
    greatest: u16,
    slot: &mut [u8],
    size: u64,
    most: u64,
) -> Result<Vec<Piece>, PiecesFault>
    requires block { HasBlockSize form }
    requires low { 0 < greatest }
    requires high { greatest ≤ longest_record }
    requires room { length slot.old ≡ greatest }
    requires most { 0 < most }
    ensures cut { IfOk result (λ pieces. Told (R.coming source.old) (R.coming source.new)
        (IsAllCut form greatest pieces.items)) }
    ensures uncut { IfErr result (λ fault. IsUncut form greatest fault
        (R.coming source.old) (R.coming source.new)) }
    ensures few { IfOk result (λ pieces. length pieces.items ≤ most) }
    ensures kind { IfErr result (λ fault. IfFrame fault (λ why. is_write_fault why ≡ false)) }
    ensures cause { R.failures source.new
        ≡ counted (is_failed_cut result) (R.failures source.old) }
{
    let mut pieces = Vec::new(alloc);
    let mut start = Start {
        offset: 0,
        first: 1,
    };
    let mut offset: u64 = 0;
    let mut left: u16 = 0;
    for done in 0..MOST_RECORDS_CUT {
        match next_frame(source, form, greatest, slot, &mut left) {
            Ok(Next::Whole(size)) => offset += size,
            Ok(Next::Last(size)) => return Ok(finish(pieces, start, offset + size)?),
            Err(fault) => {
                return Err(PiecesFault::Frame {
                    number: done + 1,
                    fault,
                });
            }
        }
        let here = Start {
            offset,
            first: done + 2,
        };
        start = close_full(&mut pieces, start, here, left, size, most)?;
    }
    Err(PiecesFault::Limit)
}

/// Cuts a stream of records in pieces of nearly equal size, so many at most, each but the last of whole frames, in form b of whole blocks.
/// `greatest` is the greatest length of a record, `size` how many bytes the stream has.
///
/// What the stream ends in that is less than a frame goes into the last piece.
///
/// # Errors
///
/// [`PiecesFault::Frame`] where the frame of a record can't be read, [`PiecesFault::Limit`], [`PiecesFault::Memory`].
pub fn pieces_in<R: Source>(
    alloc: Global,
    source: &mut R,
    form: Form,
    greatest: u16,
    size: u64,
    most: u64,
) -> Result<Vec<Piece>, PiecesFault>
    requires block { HasBlockSize form }
    requires low { 0 < greatest }
    requires high { greatest ≤ longest_record }
    requires most { 0 < most }
    // Where the source tells its bytes: where they are cut, or why they are not.
    ensures cut { IfOk result (λ pieces. Told (R.coming source.old) (R.coming source.new)
        (IsAllCut form greatest pieces.items)) }
    ensures uncut { IfErr result (λ fault. IsUncut form greatest fault
        (R.coming source.old) (R.coming source.new)) }
    ensures few { IfOk result (λ pieces. length pieces.items ≤ most) }
    // No fault is one of writing.
    ensures kind { IfErr result (λ fault. IfFrame fault (λ why. is_write_fault why ≡ false)) }
    // A read failed exactly where that is the answer.
    ensures cause { R.failures source.new
        ≡ counted (is_failed_cut result) (R.failures source.old) }
{
    let mut slot = vec![in alloc; 0u8; usize::from(greatest)]?;
    cut_stream(alloc, source, form, greatest, &mut slot, size, most)
}
