//! A runtime whose files and standard streams are never written past the limit on the size of a file.

ghost use Rattle.std.specs.Prelude.{◌≡◌, ◌≤◌, length, IfOk};

use crate::extent::{Extent, too_large};
use crate::limit::limit_of_process;
use crate::limited_file::{LimitedFile, extent_of, front_within};
use crate::printing::{extent_behind, fits};
use std::alloc::Allocator;
use std::fmt::Display;
use std::fs::{Metadata, OpenOptions, Permissions};
use std::io;
use std::io::{Eprint, Input, Lines, PipeReader, PipeWriter, Print};
use std::os::fd::BorrowedFd;
use std::os::unix::net::SocketAddr;
use std::path::PathBuf;
use std::rt::{Clock, Files};
use std::time::Duration;

/// What standard output leads to.
const OUTPUT: &str = "/dev/stdout";

/// What standard error leads to.
const ERROR: &str = "/dev/stderr";

/// A runtime whose calls are those of the one inside, as long as no file would become larger than the limit that the system has for it.
#[derive(Clone, Copy)]
pub struct LimitedRuntime<'a, R> {
    rt: &'a R,
    /// The most bytes that a file may have, where there is a limit.
    limit: Option<u64>,
}

impl<'a, R: Files> LimitedRuntime<'a, R> {
    /// A runtime round this one, with the limit that the system tells. It opens a file to learn of it.
    pub fn new(rt: &'a R) -> LimitedRuntime<'a, R> {
        LimitedRuntime {
            rt,
            limit: limit_of_process(rt),
        }
    }

    /// Where the standard stream behind this path is written next and how far, where there is a limit for it.
    fn extent_behind(&self, path: &str) -> Option<Extent> {
        extent_behind(self.rt, self.limit, path)
    }
}

impl<R: Alloc> Alloc for LimitedRuntime<'_, R> {
    type A = R::A;

    fn alloc(&self) -> R::A {
        self.rt.alloc()
    }
}

/// A value that does not fit is refused as a whole, and of bytes those are taken that fit.
impl<R: Files + Print> Print for LimitedRuntime<'_, R> {
    fn print<D: Display + Drop>(&self, value: D) -> io::Result<()> {
        fits(self.extent_behind(OUTPUT), &value, 0)?;
        self.rt.print(value)
    }

    fn println<D: Display + Drop>(&self, value: D) -> io::Result<()> {
        fits(self.extent_behind(OUTPUT), &value, 1)?;
        self.rt.println(value)
    }

    fn write_all(&self, bytes: &[u8]) -> io::Result<()> {
        let front = front_within(self.extent_behind(OUTPUT), bytes)?;
        self.rt.write_all(front)?;
        if front.len() < bytes.len() {
            Err(too_large())
        } else {
            Ok(())
        }
    }

    fn write_some(&self, bytes: &[u8]) -> io::Result<usize> {
        self.rt
            .write_some(front_within(self.extent_behind(OUTPUT), bytes)?)
    }
}

/// A value that does not fit is refused as a whole.
impl<R: Files + Eprint> Eprint for LimitedRuntime<'_, R> {
    fn eprint<D: Display + Drop>(&self, value: D) -> io::Result<()> {
        fits(self.extent_behind(ERROR), &value, 0)?;
        self.rt.eprint(value)
    }

    fn eprintln<D: Display + Drop>(&self, value: D) -> io::Result<()> {
        fits(self.extent_behind(ERROR), &value, 1)?;
        self.rt.eprintln(value)
    }
}

impl<R: Clock> Clock for LimitedRuntime<'_, R> {
    fn monotonic(&self) -> io::Result<Duration> {
        self.rt.monotonic()
    }

    fn since_1970(&self) -> io::Result<Duration> {
        self.rt.since_1970()
    }
}

impl<R: Input> Input for LimitedRuntime<'_, R> {
    type Reader = R::Reader;

    fn read_line<A: Allocator + Clone>(&self, buf: &mut String<A>) -> io::Result<usize> {
        self.rt.read_line(buf)
    }

    fn lines<A: Allocator>(&self, alloc: A) -> Lines<R::Reader, A> {
        self.rt.lines(alloc)
    }

    fn reader(&self) -> R::Reader {
        self.rt.reader()
    }
}

impl<R: Files> Files for LimitedRuntime<'_, R> {
    type File = LimitedFile<R::File>;

    type Dir = R::Dir;

    fn open_file(&self, how: &OpenOptions, path: &str) -> io::Result<LimitedFile<R::File>> {
        let file = self.rt.open_file(how, path)?;
        let extent = extent_of(&file, how, self.limit);
        Ok(LimitedFile::new(file, extent, how.asks_append()))
    }

    fn open_dir(&self, path: &str) -> io::Result<R::Dir> {
        self.rt.open_dir(path)
    }

    fn metadata(&self, path: &str) -> io::Result<Metadata> {
        self.rt.metadata(path)
    }

    fn symlink_metadata(&self, path: &str) -> io::Result<Metadata> {
        self.rt.symlink_metadata(path)
    }

    /// A file that is larger than the limit is not copied.
    fn copy(&self, from: &str, to: &str) -> io::Result<u64> {
        match self.limit {
            Some(limit) if limit < self.rt.metadata(from)?.len() => Err(too_large()),
            _ => self.rt.copy(from, to),
        }
    }

    fn rename(&self, from: &str, to: &str) -> io::Result<()> {
        self.rt.rename(from, to)
    }

    fn remove_file(&self, path: &str) -> io::Result<()> {
        self.rt.remove_file(path)
    }

    fn create_dir(&self, path: &str) -> io::Result<()> {
        self.rt.create_dir(path)
    }

    fn remove_dir(&self, path: &str) -> io::Result<()> {
        self.rt.remove_dir(path)
    }

    fn remove_dir_all<B: Allocator>(&self, alloc: B, path: &str) -> io::Result<()> {
        self.rt.remove_dir_all(alloc, path)
    }

    fn canonicalize<B: Allocator>(&self, alloc: B, path: &str) -> io::Result<PathBuf<B>> {
        self.rt.canonicalize(alloc, path)
    }

    fn read_link<B: Allocator>(&self, alloc: B, path: &str) -> io::Result<PathBuf<B>> {
        self.rt.read_link(alloc, path)
    }

    fn hard_link(&self, original: &str, link: &str) -> io::Result<()> {
        self.rt.hard_link(original, link)
    }

    fn set_permissions(&self, path: &str, perm: Permissions) -> io::Result<()> {
        self.rt.set_permissions(path, perm)
    }

    fn symlink(&self, original: &str, link: &str) -> io::Result<()> {
        self.rt.symlink(original, link)
    }

    fn pipe(&self) -> io::Result<(PipeReader, PipeWriter)> {
        self.rt.pipe()
    }

    fn chown(&self, path: &str, uid: Option<u32>, gid: Option<u32>) -> io::Result<()> {
        self.rt.chown(path, uid, gid)
    }

    fn lchown(&self, path: &str, uid: Option<u32>, gid: Option<u32>) -> io::Result<()> {
        self.rt.lchown(path, uid, gid)
    }

    fn create_dir_with_mode(&self, path: &str, mode: u32) -> io::Result<()> {
        self.rt.create_dir_with_mode(path, mode)
    }

    fn bind_unix(&self, socket: BorrowedFd<'_>, addr: &SocketAddr) -> io::Result<()> {
        self.rt.bind_unix(socket, addr)
    }
}
