//! A file that may be a text in memory.

use std::fs::{FileTimes, Metadata, OpenFile, Permissions};
use std::io;
use std::io::{ErrorKind, Read, Seek, SeekFrom, Write};

/// A file of the runtime inside, or the text of a copybook that is handed over.
#[derive(Drop)]
pub enum HandedFile<'a, F> {
    /// A file of the runtime inside.
    Inside(F),
    /// What is left to read of a text.
    Text(&'a [u8]),
}

/// What a call answers that a text in memory can't do.
fn unsupported() -> io::Error {
    io::Error::from(ErrorKind::Unsupported)
}

impl<F: Read> Read for HandedFile<'_, F> {
    fn read(&mut self, buf: &mut [u8]) -> io::Result<usize> {
        match self {
            HandedFile::Inside(file) => file.read(buf),
            HandedFile::Text(rest) => rest.read(buf),
        }
    }
}

impl<F: Write> Write for HandedFile<'_, F> {
    fn write(&mut self, buf: &[u8]) -> io::Result<usize> {
        match self {
            HandedFile::Inside(file) => file.write(buf),
            HandedFile::Text(_) => Err(unsupported()),
        }
    }

    fn flush(&mut self) -> io::Result<()> {
        match self {
            HandedFile::Inside(file) => file.flush(),
            HandedFile::Text(_) => Ok(()),
        }
    }
}

impl<F: Seek> Seek for HandedFile<'_, F> {
    fn seek(&mut self, to: SeekFrom) -> io::Result<u64> {
        match self {
            HandedFile::Inside(file) => file.seek(to),
            HandedFile::Text(_) => Err(unsupported()),
        }
    }
}

impl<F: OpenFile> OpenFile for HandedFile<'_, F> {
    fn metadata(&self) -> io::Result<Metadata> {
        match self {
            HandedFile::Inside(file) => file.metadata(),
            HandedFile::Text(_) => Err(unsupported()),
        }
    }

    fn set_len(&self, size: u64) -> io::Result<()> {
        match self {
            HandedFile::Inside(file) => file.set_len(size),
            HandedFile::Text(_) => Err(unsupported()),
        }
    }

    fn sync_all(&self) -> io::Result<()> {
        match self {
            HandedFile::Inside(file) => file.sync_all(),
            HandedFile::Text(_) => Err(unsupported()),
        }
    }

    fn sync_data(&self) -> io::Result<()> {
        match self {
            HandedFile::Inside(file) => file.sync_data(),
            HandedFile::Text(_) => Err(unsupported()),
        }
    }

    fn set_permissions(&self, perm: Permissions) -> io::Result<()> {
        match self {
            HandedFile::Inside(file) => file.set_permissions(perm),
            HandedFile::Text(_) => Err(unsupported()),
        }
    }

    fn set_times(&self, times: FileTimes) -> io::Result<()> {
        match self {
            HandedFile::Inside(file) => file.set_times(times),
            HandedFile::Text(_) => Err(unsupported()),
        }
    }
}
