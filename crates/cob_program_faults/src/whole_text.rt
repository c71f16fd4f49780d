ghost use Rattle.std.specs.Prelude.{◌≡◌, ◌≤◌, ◌<◌, ◌+◌, ◌^◌, ◌++◌, true, false, ℕ, List, length, take, drop, vec_len, IfOk, IfErr, is_err};
ghost use Rattle.std.specs.Io.KnownBytes.{IsAtEnd};
ghost use Rattle.cob_records.specs.Device.{counted};
ghost use Rattle.cob_program_faults.specs.WholeTexts.{IsPieceOf, IsReadOf, IsReadingFault, IsWhole, is_failed_read};
ghost use Rattle.cob_program_faults.specs.declared.whole_text.TextFault.TheVariants.{Memory, NotRead};

use cob_limits::MAX_TEXT_BYTES;
use cob_records::{DeviceFault, ReadSource, Source};
use std::alloc::{AllocError, Global};
use std::fs::File;
use std::rt::Files;

/// How many bytes of a text are read at a time.
const PIECE: usize = 65_536;

/// Why a text was not read.
#[derive(Clone, Copy, PartialEq, Eq)]
pub enum TextFault {
    /// The system does not open the file.
    NotOpened,
    /// A read failed.
    NotRead,
    /// Memory was refused.
    Memory,
}

impl From<AllocError> for TextFault {
    ghost from_gives = { λ _ fault. fault ≡ Memory };

    fn from(_: AllocError) -> TextFault {
        TextFault::Memory
    }
}

impl From<DeviceFault> for TextFault {
    ghost from_gives = { λ _ fault. fault ≡ NotRead };

    fn from(_: DeviceFault) -> TextFault {
        TextFault::NotRead
    }
}

/// Reads once into a slice, behind so many bytes of it, and says how many came.
fn read_behind<S: Source>(
    source: &mut S,
    room: &mut [u8],
    before: usize,
) -> Result<usize, DeviceFault>
    requires before { before ≤ length room.old }
    ensures front { take before room.new ≡ take before room.old }
    ensures count { IfOk result (λ count. before + count ≤ length room.new) }
    ensures bytes { IfOk result (λ count.
        IsReadOf (S.coming source.old) (S.coming source.new) (take count (drop before room.new))) }
    ensures end { IfOk result (λ count.
        count ≡ 0 → before < length room.new → IsAtEnd (S.coming source.new)) }
    ensures cause { S.failures source.new ≡ counted (is_err result) (S.failures source.old) }
{
    source.read(&mut room[before..])
}

/// Reads once, behind the bytes that were read before, and says how many bytes there are now; as many as before only at the source's end.
fn read_piece<S: Source>(source: &mut S, bytes: &mut Vec<u8>) -> Result<usize, TextFault>
    requires room { vec_len bytes.old < 2 ^ 62 }
    ensures bytes { IfOk result (λ _. IsPieceOf
        (S.coming source.old) (S.coming source.new) bytes.old.items bytes.new.items) }
    ensures now { IfOk result (λ now.
        (now ≡ vec_len bytes.new) × (now ≤ vec_len bytes.old + 65536)) }
    ensures end { IfOk result (λ now. now ≡ vec_len bytes.old → IsAtEnd (S.coming source.new)) }
    ensures kind { IfErr result IsReadingFault }
    ensures cause { S.failures source.new
        ≡ counted (is_failed_read result) (S.failures source.old) }
{
    let before = bytes.len();
    bytes.resize(before + PIECE, 0u8)?;
    let count = read_behind(source, bytes, before)?;
    bytes.truncate(before + count);
    Ok(before + count)
}

/// Whether a text of which so many bytes came is read on: its reader doesn't refuse it for its length yet.
fn is_read_on(came: usize, most: usize) -> bool
    ensures yes { result ≡ true → came ≤ most }
    ensures no { result ≡ false → most < came }
{
    came <= most
}

/// Reads a source to its end, or until there are more than so many bytes, whose reader refuses them.
///
/// # Errors
///
/// A read that failed, want of memory.
pub fn read_whole<S: Source>(
    alloc: Global,
    source: &mut S,
    most: usize,
) -> Result<Vec<u8>, TextFault>
    requires most { most ≤ 2 ^ 32 }
    // What was read is what the source gave, and nothing of it is left out.
    ensures bytes { IfOk result (λ text.
        IsReadOf (S.coming source.old) (S.coming source.new) text.items) }
    ensures whole { IfOk result (λ text. IsWhole most (S.coming source.new) text.items) }
    // An endless source is left soon.
    ensures bound { IfOk result (λ text. vec_len text ≤ most + 65536) }
    ensures kind { IfErr result IsReadingFault }
    ensures cause { S.failures source.new
        ≡ counted (is_failed_read result) (S.failures source.old) }
{
    let mut bytes = Vec::new(alloc);
    let mut came: usize = 0;
    while is_read_on(came, most) {
        let now = read_piece(source, &mut bytes)?;
        if now == came {
            return Ok(bytes);
        }
        came = now;
    }
    Ok(bytes)
}

/// The text in the file of this name, or somewhat more than the greatest length of a text, which its reader refuses.
///
/// # Errors
///
/// A file that is not opened or not read, want of memory.
pub fn read_text<R: AllocGlobal + Files>(rt: &R, name: &str) -> Result<Vec<u8>, TextFault> {
    match File::open(rt, name) {
        Ok(file) => read_whole(rt.alloc(), &mut ReadSource::new(file), MAX_TEXT_BYTES),
        Err(_) => Err(TextFault::NotOpened),
    }
}
