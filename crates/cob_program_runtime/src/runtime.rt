//! A runtime whose failed calls are noted.

ghost use Rattle.std.specs.Prelude.{◌≡◌, ◌≤◌, length, IfOk};

use crate::file::NotedFile;
use crate::last::{FileError, LastError, NamedFile, file_at, noted, read_at};
use std::alloc::Allocator;
use std::fmt::Display;
use std::fs::{Metadata, OpenOptions, Permissions};
use std::io;
use std::io::{Eprint, ErrorKind, Input, Lines, PipeReader, PipeWriter, Print};
use std::os::fd::BorrowedFd;
use std::os::unix::net::SocketAddr;
use std::path::PathBuf;
use std::rt::{Clock, Files};
use std::time::Duration;

/// A runtime whose calls are those of the one inside, and which keeps the last error of these files.
#[derive(Clone, Copy)]
pub struct Noted<'a, 'n, R> {
    rt: &'a R,
    files: &'a [NamedFile<'n>],
    last: &'a LastError<'n>,
}

impl<'a, 'n, R> Noted<'a, 'n, R> {
    /// A runtime round this one that keeps the last error of these files, by their names, there.
    pub fn new(rt: &'a R, files: &'a [NamedFile<'n>], last: &'a LastError<'n>) -> Noted<'a, 'n, R> {
        Noted { rt, files, last }
    }

    /// The last error, where there was one.
    pub fn last(&self) -> Option<FileError<'n>> {
        self.last.get()
    }
}

impl<R: Alloc> Alloc for Noted<'_, '_, R> {
    type A = R::A;

    fn alloc(&self) -> R::A {
        self.rt.alloc()
    }
}

impl<R: Print> Print for Noted<'_, '_, R> {
    fn print<D: Display + Drop>(&self, value: D) -> io::Result<()> {
        self.rt.print(value)
    }

    fn println<D: Display + Drop>(&self, value: D) -> io::Result<()> {
        self.rt.println(value)
    }

    fn write_all(&self, bytes: &[u8]) -> io::Result<()> {
        noted(
            self.last,
            file_at(self.files, "-"),
            self.rt.write_all(bytes),
        )
    }

    fn write_some(&self, bytes: &[u8]) -> io::Result<usize> {
        noted(
            self.last,
            file_at(self.files, "-"),
            self.rt.write_some(bytes),
        )
    }
}

impl<R: Eprint> Eprint for Noted<'_, '_, R> {
    fn eprint<D: Display + Drop>(&self, value: D) -> io::Result<()> {
        self.rt.eprint(value)
    }

    fn eprintln<D: Display + Drop>(&self, value: D) -> io::Result<()> {
        self.rt.eprintln(value)
    }
}

impl<R: Clock> Clock for Noted<'_, '_, R> {
    fn monotonic(&self) -> io::Result<Duration> {
        self.rt.monotonic()
    }

    fn since_1970(&self) -> io::Result<Duration> {
        self.rt.since_1970()
    }
}

impl<R: Input> Input for Noted<'_, '_, R> {
    type Reader = R::Reader;

    fn read_line<A: Allocator + Clone>(&self, buf: &mut String<A>) -> io::Result<usize> {
        self.rt.read_line(buf)
    }

    fn lines<A: Allocator>(&self, alloc: A) -> Lines<R::Reader, A> {
        self.rt.lines(alloc)
    }

    fn reader(&self) -> R::Reader {
        self.rt.reader()
    }
}

impl<'a, 'n, R: Files> Files for Noted<'a, 'n, R> {
    type File = NotedFile<'a, 'n, R::File>;

    type Dir = R::Dir;

    fn open_file(&self, how: &OpenOptions, path: &str) -> io::Result<NotedFile<'a, 'n, R::File>> {
        let named = file_at(self.files, path);
        match noted(self.last, named, self.rt.open_file(how, path)) {
            Ok(file) => Ok(NotedFile::new(file, named, self.last)),
            Err(error) => Err(error),
        }
    }

    fn open_dir(&self, path: &str) -> io::Result<R::Dir> {
        self.rt.open_dir(path)
    }

    fn metadata(&self, path: &str) -> io::Result<Metadata> {
        noted(self.last, read_at(self.files, path), self.rt.metadata(path))
    }

    /// That nothing is there is no failure of a file that is written: any other error is.
    fn symlink_metadata(&self, path: &str) -> io::Result<Metadata> {
        let answer = self.rt.symlink_metadata(path);
        match &answer {
            Err(error) if error.kind() == ErrorKind::NotFound => answer,
            _ => noted(self.last, file_at(self.files, path), answer),
        }
    }

    fn copy(&self, from: &str, to: &str) -> io::Result<u64> {
        noted(self.last, file_at(self.files, from), self.rt.copy(from, to))
    }

    fn rename(&self, from: &str, to: &str) -> io::Result<()> {
        noted(
            self.last,
            file_at(self.files, from),
            self.rt.rename(from, to),
        )
    }

    fn remove_file(&self, path: &str) -> io::Result<()> {
        self.rt.remove_file(path)
    }

    fn create_dir(&self, path: &str) -> io::Result<()> {
        self.rt.create_dir(path)
    }

    fn remove_dir(&self, path: &str) -> io::Result<()> {
        self.rt.remove_dir(path)
    }

    fn remove_dir_all<B: Allocator>(&self, alloc: B, path: &str) -> io::Result<()> {
        self.rt.remove_dir_all(alloc, path)
    }

    fn canonicalize<B: Allocator>(&self, alloc: B, path: &str) -> io::Result<PathBuf<B>> {
        self.rt.canonicalize(alloc, path)
    }

    fn read_link<B: Allocator>(&self, alloc: B, path: &str) -> io::Result<PathBuf<B>> {
        self.rt.read_link(alloc, path)
    }

    fn hard_link(&self, original: &str, link: &str) -> io::Result<()> {
        self.rt.hard_link(original, link)
    }

    fn set_permissions(&self, path: &str, perm: Permissions) -> io::Result<()> {
        self.rt.set_permissions(path, perm)
    }

    fn symlink(&self, original: &str, link: &str) -> io::Result<()> {
        self.rt.symlink(original, link)
    }

    fn pipe(&self) -> io::Result<(PipeReader, PipeWriter)> {
        self.rt.pipe()
    }

    fn chown(&self, path: &str, uid: Option<u32>, gid: Option<u32>) -> io::Result<()> {
        self.rt.chown(path, uid, gid)
    }

    fn lchown(&self, path: &str, uid: Option<u32>, gid: Option<u32>) -> io::Result<()> {
        self.rt.lchown(path, uid, gid)
    }

    fn create_dir_with_mode(&self, path: &str, mode: u32) -> io::Result<()> {
        self.rt.create_dir_with_mode(path, mode)
    }

    fn bind_unix(&self, socket: BorrowedFd<'_>, addr: &SocketAddr) -> io::Result<()> {
        self.rt.bind_unix(socket, addr)
    }
}
