//! Pieces of files, as ends of a run.

ghost use Rattle.std.specs.Prelude.{◌≡◌, ◌^◌, ◌-◌, [], None, Some, true, IfOk, IfSome};
ghost use Rattle.std.specs.Io.Buffered.{reader_buffer, reader_inner};
ghost use Rattle.std.specs.Io.Take.{take_inner, take_limit};
ghost use Rattle.cob_records.specs.Files.{is_standard, names_standard};
ghost use Rattle.cob_records.specs.Streams.{source_failures, source_reader};

use cob_records::{OpenFault, Opened, ReadSource, names_standard};
use std::fs::File;
use std::io::{BufReader, Input, Read, Seek, SeekFrom, Take};
use std::rt::Files;

/// How many bytes the buffer of an end holds.
const BUFFER: usize = 65_536;

/// A source over a part of a file, or over standard input, which reads ahead into a buffer.
pub type PartSource<F, S> = ReadSource<BufReader<Take<Opened<F, S>>>>;

/// A file that was moved to an offset; or none, where the system does not move to it.
fn moved_to<F: Seek + Drop>(mut file: F, offset: u64) -> Option<F>
    ensures { IfSome (F.stream_position file) (λ _.
        IfSome result (λ moved. F.stream_position moved ≡ Some offset)) }
{
    match file.seek(SeekFrom::Start(offset)) {
        Ok(_) => Some(file),
        Err(_) => None,
    }
}

/// The file of this name, moved to an offset; or standard input, where the name is `-` and all of it is asked for.
fn opened_at<R: Files + Input>(
    rt: &R,
    name: &str,
    from: u64,
    is_all: bool,
) -> Option<Opened<R::File, R::Reader>>
    ensures which { IfSome result (λ opened. is_standard opened ≡ names_standard name.now) }
    ensures whole { IfSome result (λ _. names_standard name.now ≡ true → is_all ≡ true) }
{
    if names_standard(name) {
        if !is_all {
            return None;
        }
        return Some(Opened::Standard(rt.reader()));
    }
    let file = File::open(rt, name).ok()?;
    if from == 0 {
        return Some(Opened::Named(file));
    }
    Some(Opened::Named(moved_to(file, from)?))
}

/// A source over so many bytes of the file of this name from an offset on, or over all that are left. Over standard input, whose name is `-`, it is
/// all or none: it has no places.
///
/// # Errors
///
/// Where the system does not open the file or move to the offset, or memory for the buffer is refused.
pub fn open_part<R: AllocGlobal + Files + Input>(
    rt: &R,
    name: &str,
    from: u64,
    bytes: Option<u64>,
) -> Result<PartSource<R::File, R::Reader>, OpenFault>
    ensures failures { IfOk result (λ source. source_failures source ≡ 0) }
    ensures empty { IfOk result (λ source. reader_buffer (source_reader source) ≡ []) }
    // All that are left, as far as bytes can be counted, or so many.
    ensures all { bytes ≡ None → IfOk result (λ source.
        take_limit (reader_inner (source_reader source)) ≡ 2 ^ 64 - 1) }
    ensures part { IfSome bytes (λ most. IfOk result (λ source.
        take_limit (reader_inner (source_reader source)) ≡ most)) }
    // It is over standard input just where the name is `-`, and then over all of it.
    ensures which { IfOk result (λ source.
        is_standard (take_inner (reader_inner (source_reader source))) ≡ names_standard name.now) }
    ensures whole { names_standard name.now ≡ true
        → IfOk result (λ _. (from ≡ 0) × (bytes ≡ None)) }
{
    let is_all = from == 0 && bytes.is_none();
    let Some(opened) = opened_at(rt, name, from, is_all) else {
        return Err(OpenFault::NotOpened);
    };
    let part = opened.take(bytes.unwrap_or(u64::MAX));
    match BufReader::with_capacity(rt.alloc(), BUFFER, part) {
        Ok(reader) => Ok(ReadSource::new(reader)),
        Err(_) => Err(OpenFault::Memory),
    }
}
