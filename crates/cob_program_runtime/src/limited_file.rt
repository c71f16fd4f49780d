//! A file that is never written past the limit on its size.

ghost use Rattle.std.specs.Prelude.{◌≡◌, ◌<◌, ◌≤◌, false, length, true, IfNone, IfOk, IfSome, IsErrAnd, MatchResult, None, Some};
ghost use Rattle.std.specs.Fs.{IsFile, asks_append, asks_write, file_type};
ghost use Rattle.std.specs.Io.{ReadsAtMost, WritesAtMost};
ghost use Rattle.std.specs.Io.KnownBytes.{Keeps, ReadConsumes, WriteAppends};
ghost use Rattle.std.specs.Io.Seek.{SeekMoves};
ghost use Rattle.cob_program_runtime.specs.Extents.{IsTooLarge};
ghost use Rattle.cob_program_runtime.specs.Files.{HasNoRoom, IsExtentOf, IsFrontWithin, IsAtItsLimit, extent_after, extent_at, first_position, front_within};

use crate::extent::{Extent, too_large};
use std::fs::{FileTimes, Metadata, OpenFile, OpenOptions, Permissions};
use std::io;
use std::io::{Read, Seek, SeekFrom, Write};

/// How many bytes stand before the next one that is written to a file: all that it has, or none.
fn first_position(metadata: &Metadata, at_end: bool) -> u64
    ensures { result ≡ first_position metadata.now at_end }
{
    if at_end { metadata.len() } else { 0 }
}

/// Where a file is written and how far, where it is a regular one: from its end on, or from its front.
pub(crate) fn extent_in(metadata: &Metadata, limit: u64, at_end: bool) -> Option<Extent>
    ensures found { IfSome result (IsExtentOf limit at_end metadata.now) }
    ensures none { IfNone result (IsFile (file_type metadata.now) → ⊥) }
{
    if metadata.is_file() {
        Some(Extent::new(limit, first_position(metadata, at_end)))
    } else {
        None
    }
}

/// Where a file that was opened is written and how far, where it is a regular file that is written and there is a limit. A file of which the system
/// says nothing is taken for a regular one.
pub(crate) fn extent_of<F: OpenFile>(
    file: &F,
    how: &OpenOptions,
    limit: Option<u64>,
) -> Option<Extent>
    ensures unlimited { limit ≡ None → result ≡ None }
    ensures limit { IfSome result (λ extent. limit ≡ Some extent.limit) }
    ensures unwritten { asks_write how.now ≡ false → asks_append how.now ≡ false → result ≡ None }
    ensures front { asks_append how.now ≡ false → IfSome result (λ extent. extent.position ≡ 0) }
{
    let limit = limit?;
    if !how.asks_write() && !how.asks_append() {
        return None;
    }
    match file.metadata() {
        Ok(metadata) => extent_in(&metadata, limit, how.asks_append()),
        Err(_) => Some(Extent::new(limit, 0)),
    }
}

/// As many of these bytes as a file has room for, which may have a limit.
///
/// # Errors
///
/// Where there are some, and it has room for none.
pub(crate) fn front_within(extent: Option<Extent>, bytes: &[u8]) -> io::Result<&[u8]>
    ensures { MatchResult result (λ front. IsFrontWithin extent bytes.now front.now)
        (HasNoRoom extent bytes.now) }
{
    match extent {
        Some(extent) => extent.front_of(bytes),
        None => Ok(bytes),
    }
}

/// The extent of a file behind what a call wrote or read there.
fn extent_after(answer: &io::Result<usize>, extent: Option<Extent>) -> Option<Extent>
    ensures { result ≡ extent_after answer.now extent }
{
    match (answer, extent) {
        (Ok(bytes), Some(extent)) => Some(extent.moved_by(*bytes)),
        _ => extent,
    }
}

/// A file that takes no byte from its limit on, where it has one.
#[derive(Drop)]
pub struct LimitedFile<F> {
    file: F,
    extent: Option<Extent>,
    /// Whether each write goes behind the file's end, wherever it was read or moved to.
    appends: bool,
}

impl<F> LimitedFile<F> {
    /// A file that is written as far as this extent says, and without a limit where there is none; and whether each write goes behind its end.
    pub fn new(file: F, extent: Option<Extent>, appends: bool) -> LimitedFile<F>
        ensures file { result.file ≡ file }
        ensures extent { result.extent ≡ extent }
        ensures appends { result.appends ≡ appends }
    {
        LimitedFile {
            file,
            extent,
            appends,
        }
    }
}

impl<F: Read> Read for LimitedFile<F> {
    ghost remaining = { λ limited. F.remaining limited.file };

    fn read(&mut self, buf: &mut [u8]) -> io::Result<usize>
        ensures bound { ReadsAtMost result buf.new }
        ensures bytes { ReadConsumes (F.remaining self.old.file) (F.remaining self.new.file) result
            buf.new }
        ensures moves { self.old.appends ≡ false
            → self.new.extent ≡ extent_after result self.old.extent }
        ensures stays { self.old.appends ≡ true → self.new.extent ≡ self.old.extent }
    {
        let answer = self.file.read(buf);
        if !self.appends {
            self.extent = extent_after(&answer, self.extent);
        }
        answer
    }
}

impl<F: Write> Write for LimitedFile<F> {
    ghost contents = { λ limited. F.contents limited.file };

    fn write(&mut self, buf: &[u8]) -> io::Result<usize>
        ensures bound { WritesAtMost result buf.now }
        ensures bytes { WriteAppends (F.contents self.old.file) (F.contents self.new.file) result
            buf.now }
        ensures within { IfOk result (λ bytes. bytes ≤ length
            (front_within self.old.extent buf.now)) }
        ensures extent { self.new.extent ≡ extent_after result self.old.extent }
        ensures full { IsAtItsLimit self.old.extent → 0 < length buf.now
            → IsErrAnd result IsTooLarge }
    {
        match front_within(self.extent, buf) {
            Ok(front) => {
                let answer = self.file.write(front);
                self.extent = extent_after(&answer, self.extent);
                answer
            }
            Err(error) => Err(error),
        }
    }

    fn flush(&mut self) -> io::Result<()> {
        self.file.flush()
    }
}

/// The extent of a file that was moved to where this answer says.
fn extent_at(answer: &io::Result<u64>, extent: Option<Extent>) -> Option<Extent>
    ensures { result ≡ extent_at answer.now extent }
{
    match (answer, extent) {
        (Ok(position), Some(extent)) => Some(extent.moved_to(*position)),
        _ => extent,
    }
}

impl<F: Seek> Seek for LimitedFile<F> {
    ghost stream_position = { λ limited. F.stream_position limited.file };

    ghost stream_bytes = { λ limited. F.stream_bytes limited.file };

    fn seek(&mut self, to: SeekFrom) -> io::Result<u64>
        ensures position { SeekMoves (F.stream_position self.old.file)
            (F.stream_position self.new.file) (F.stream_bytes self.old.file) to result }
        ensures bytes { Keeps (F.stream_bytes self.old.file) (F.stream_bytes self.new.file) }
        ensures moves { self.old.appends ≡ false
            → self.new.extent ≡ extent_at result self.old.extent }
        ensures stays { self.old.appends ≡ true → self.new.extent ≡ self.old.extent }
    {
        let answer = self.file.seek(to);
        if !self.appends {
            self.extent = extent_at(&answer, self.extent);
        }
        answer
    }
}

/// Whether a file of this size would be larger than this one is.
fn grows<F: OpenFile>(file: &F, size: u64) -> io::Result<bool> {
    Ok(file.metadata()?.len() < size)
}

impl<F: OpenFile> OpenFile for LimitedFile<F> {
    fn metadata(&self) -> io::Result<Metadata> {
        self.file.metadata()
    }

    /// A file may become no longer than its limit. One that is longer may become shorter.
    fn set_len(&self, size: u64) -> io::Result<()> {
        match self.extent {
            Some(extent) if extent.is_below(size) && grows(&self.file, size)? => Err(too_large()),
            _ => self.file.set_len(size),
        }
    }

    fn sync_all(&self) -> io::Result<()> {
        self.file.sync_all()
    }

    fn sync_data(&self) -> io::Result<()> {
        self.file.sync_data()
    }

    fn set_permissions(&self, perm: Permissions) -> io::Result<()> {
        self.file.set_permissions(perm)
    }

    fn set_times(&self, times: FileTimes) -> io::Result<()> {
        self.file.set_times(times)
    }
}
