//! A file whose failed calls are noted.

ghost use Rattle.std.specs.Prelude.{◌≡◌, ◌≤◌, IfOk, None};

use crate::last::{LastError, NamedFile, noted};
use std::fs::{FileTimes, Metadata, OpenFile, Permissions};
use std::io;
use std::io::{Read, Seek, SeekFrom, Write};

/// A file whose calls are those of the one inside, and whose last error is kept.
#[derive(Drop)]
pub struct NotedFile<'a, 'n, F> {
    file: F,
    /// The option that names it, where one does.
    named: Option<NamedFile<'n>>,
    last: &'a LastError<'n>,
}

impl<'a, 'n, F> NotedFile<'a, 'n, F> {
    /// A file round this one, which this option names, that keeps its last error there.
    pub fn new(
        file: F,
        named: Option<NamedFile<'n>>,
        last: &'a LastError<'n>,
    ) -> NotedFile<'a, 'n, F> {
        NotedFile { file, named, last }
    }
}

impl<F: Read> Read for NotedFile<'_, '_, F> {
    ghost remaining = { λ noted. F.remaining noted.file };

    fn read(&mut self, buf: &mut [u8]) -> io::Result<usize> {
        noted(self.last, self.named, self.file.read(buf))
    }
}

impl<F: Write> Write for NotedFile<'_, '_, F> {
    ghost contents = { λ noted. F.contents noted.file };

    fn write(&mut self, buf: &[u8]) -> io::Result<usize> {
        noted(self.last, self.named, self.file.write(buf))
    }

    fn flush(&mut self) -> io::Result<()> {
        noted(self.last, self.named, self.file.flush())
    }
}

impl<F: Seek> Seek for NotedFile<'_, '_, F> {
    fn seek(&mut self, to: SeekFrom) -> io::Result<u64> {
        noted(self.last, self.named, self.file.seek(to))
    }
}

impl<F: OpenFile> OpenFile for NotedFile<'_, '_, F> {
    fn metadata(&self) -> io::Result<Metadata> {
        self.file.metadata()
    }

    fn set_len(&self, size: u64) -> io::Result<()> {
        noted(self.last, self.named, self.file.set_len(size))
    }

    fn sync_all(&self) -> io::Result<()> {
        noted(self.last, self.named, self.file.sync_all())
    }

    fn sync_data(&self) -> io::Result<()> {
        noted(self.last, self.named, self.file.sync_data())
    }

    fn set_permissions(&self, perm: Permissions) -> io::Result<()> {
        noted(self.last, self.named, self.file.set_permissions(perm))
    }

    fn set_times(&self, times: FileTimes) -> io::Result<()> {
        noted(self.last, self.named, self.file.set_times(times))
    }
}
