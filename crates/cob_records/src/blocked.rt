ghost use Rattle.std.specs.Prelude.{◌≡◌, ◌+◌, ◌<◌, ◌≤◌, length, drop, IfErr, IfOk, IfSome, MatchResult, true, false};
ghost use Rattle.cob_limits.specs.Limits.{longest_block, longest_record};
ghost use Rattle.cob_records.specs.Device.{Told, counted};
ghost use Rattle.cob_records.specs.Frame.{IsLength, IsSeen, is_read_failure, is_write_fault};
ghost use Rattle.cob_records.specs.Blocks.{IsBlockSize};
ghost use Rattle.cob_records.specs.BlockReads.{IfTruncated, Leads, OpensBlock, ReadsFrame, ReadsInBlock, behind_block, failed_read, is_no_block};
ghost use Rattle.cob_records.specs.declared.records.Form.TheVariants.{Blocked, Variable};
ghost use Rattle.cob_records.specs.declared.records.RecordFault.TheVariants.{BlockDescriptor};

use crate::device::Source;
use crate::records::{DESCRIPTOR, RecordFault, described, fill};
use byteorder::{BigEndian, ByteOrder};

// How many bytes the frames of a block have, behind its descriptor word.
pub(crate) fn described_block(head: &[u8], most: usize) -> Result<usize, RecordFault>
    requires head { length head.now ≡ 4 }
    requires most { most ≤ longest_block }
    ensures { MatchResult result (λ room. Leads most 0 room head.now)
        (λ fault. (fault ≡ BlockDescriptor) × (is_no_block most head.now ≡ true)) }
{
    if head[2] != 0 || head[3] != 0 {
        return Err(RecordFault::BlockDescriptor);
    }
    let number = BigEndian::read_u16(head) as usize;
    if number < 8 || number > most {
        return Err(RecordFault::BlockDescriptor);
    }
    Ok(number - DESCRIPTOR)
}

// Opens the next block, and says how many bytes its frames have.
fn next_block<R: Source>(source: &mut R, most: usize) -> Result<Option<usize>, RecordFault>
    requires { most ≤ longest_block }
    ensures block { Told (R.coming source.old) (R.coming source.new) (OpensBlock most result) }
    ensures room { IfOk result (λ found. IfSome found (λ room. (4 ≤ room) × (4 + room ≤ most))) }
    ensures seen { IfErr result (λ fault. IfTruncated fault (λ seen. seen < 4)) }
    ensures kind { IfErr result (λ fault. is_write_fault fault ≡ false) }
    ensures cause { R.failures source.new ≡ counted (failed_read result) (R.failures source.old) }
{
    let mut head = [0u8; DESCRIPTOR];
    let Ok(seen) = fill(source, &mut head) else {
        return Err(RecordFault::ReadFailed);
    };
    if seen == 0 {
        return Ok(None);
    }
    if seen < DESCRIPTOR {
        return Err(RecordFault::Truncated { seen });
    }
    let room = described_block(&head, most)?;
    Ok(Some(room))
}

// Reads the next frame of a block, which still holds so many bytes.
fn next_in_block<R: Source>(
    source: &mut R,
    room: usize,
    slot: &mut [u8],
) -> Result<usize, RecordFault>
    requires low { 0 < length slot.old }
    requires high { length slot.old ≤ longest_record }
    ensures frame { Told (R.coming source.old) (R.coming source.new)
        (ReadsFrame (length slot.old) room slot.new result) }
    ensures size { IfOk result (λ count. IsLength Variable (length slot.old) count
        × (4 + count ≤ room)) }
    ensures kind { IfErr result (λ fault. is_write_fault fault ≡ false) }
    ensures few { IfErr result (λ fault. IfTruncated fault (λ seen. seen ≤ longest_record + 4)) }
    ensures seen { IfErr result (λ fault. IfTruncated fault (λ seen. seen < 4 + length slot.old)) }
    ensures behind { IfOk result (λ n. drop n slot.new ≡ drop n slot.old) }
    ensures cause { R.failures source.new ≡ counted (failed_read result) (R.failures source.old) }
{
    if room < DESCRIPTOR {
        return Err(RecordFault::PastBlock);
    }
    let mut head = [0u8; DESCRIPTOR];
    let Ok(seen) = fill(source, &mut head) else {
        return Err(RecordFault::ReadFailed);
    };
    if seen < DESCRIPTOR {
        return Err(RecordFault::Truncated { seen });
    }
    let count = described(&head, slot.len())?;
    if DESCRIPTOR + count > room {
        return Err(RecordFault::PastBlock);
    }
    let Ok(came) = fill(source, &mut slot[..count]) else {
        return Err(RecordFault::ReadFailed);
    };
    if came < count {
        return Err(RecordFault::Truncated {
            seen: DESCRIPTOR + came,
        });
    }
    Ok(count)
}

// A fault of the first frame of a block.
fn behind_descriptor(fault: RecordFault) -> RecordFault
    requires { IfTruncated fault (λ seen. seen ≤ longest_record + 4) }
    ensures { result ≡ behind_block fault }
{
    match fault {
        RecordFault::Truncated { seen } => RecordFault::Truncated {
            seen: DESCRIPTOR + seen,
        },
        other => other,
    }
}

/// Reads the next record of a stream in blocks into the front of the slice and answers its length in bytes, or `None` where no byte is
/// left. `most` is the greatest length of a block, `greatest` that of a record, and `left` is what the open block still holds: 0 before
/// the first, at the end, and after a refusal. This call takes no memory.
///
/// # Errors
///
/// In this order: a block descriptor word that is none ([`RecordFault::BlockDescriptor`]); a block that holds less than a record descriptor
/// word ([`RecordFault::PastBlock`]); a record descriptor word that is refused, as [`next_record`](crate::next_record) does it; a frame that is
/// longer than the rest of its block ([`RecordFault::PastBlock`]). Nothing past a refused descriptor was read. Where none of these refused
/// before, a stream that ends within a block ([`RecordFault::Truncated`]): the descriptor of a block counts with its first frame.
#[inline(never)]
pub fn next_blocked<R: Source>(
    source: &mut R,
    most: u16,
    greatest: u16,
    slot: &mut [u8],
    left: &mut u16,
) -> Result<Option<usize>, RecordFault>
    requires block { IsBlockSize most }
    requires low { 0 < greatest }
    requires high { greatest ≤ longest_record }
    requires room { length slot.old ≡ greatest }
    ensures frame { Told (R.coming source.old) (R.coming source.new)
        (ReadsInBlock most greatest left.old slot.new result left.new) }
    ensures size { IfOk result (λ found. IfSome found (IsLength Variable greatest)) }
    ensures behind { IfOk result (λ found. IfSome found (λ n. drop n slot.new ≡ drop n slot.old)) }
    ensures seen { IfErr result (IsSeen (Blocked most) greatest) }
    ensures kind { IfErr result (λ fault. is_write_fault fault ≡ false) }
    ensures cause { R.failures source.new
        ≡ counted (is_read_failure result) (R.failures source.old) }
{
    let held = usize::from(*left);
    *left = 0;
    if held > 0 {
        let count = match next_in_block(source, held, slot) {
            Ok(count) => count,
            Err(fault) => return Err(fault),
        };
        *left = (held - DESCRIPTOR - count) as u16;
        return Ok(Some(count));
    }
    let room = match next_block(source, usize::from(most)) {
        Ok(Some(room)) => room,
        Ok(None) => return Ok(None),
        Err(fault) => return Err(fault),
    };
    match next_in_block(source, room, slot) {
        Ok(count) => {
            *left = (room - DESCRIPTOR - count) as u16;
            Ok(Some(count))
        }
        Err(fault) => Err(behind_descriptor(fault)),
    }
}
