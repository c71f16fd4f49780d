//! A runtime in whose place a command runs.

ghost use Rattle.std.specs.Prelude.{◌≤◌, length, IfOk};

use std::alloc::{Allocator, Global};
use std::cell::Cell;
use std::fmt::Display;
use std::fs::{Metadata, OpenOptions};
use std::io;
use std::io::{BufRead, Eprint, ErrorKind, Input, Lines, Print};
use std::rt::{Clock, Files};
use std::time::Duration;

/// What a command finds when it is run.
#[derive(Clone, Copy)]
pub struct Scene<'a> {
    /// What standard input gives.
    pub input: &'a [u8],
    /// The name of the file that standard input comes from; of none where it is empty.
    pub input_name: &'a str,
    /// The name of the file that standard output goes to; of none where it is empty.
    pub output_name: &'a str,
    /// How many bytes standard output takes.
    pub room: usize,
    /// Whether no file can be renamed.
    pub is_stuck: bool,
}

/// A runtime in whose place a command runs: files are the system's, standard input is given, and what goes to standard output and to standard
/// error is kept. The clock goes on by a second each time that it is looked at. The names `/dev/stdin` and `/dev/stdout` lead to the files that
/// the scene has for them, and `/dev/stderr` to the same as `/dev/stdout`.
pub struct Stage<'a, R> {
    rt: &'a R,
    scene: Scene<'a>,
    output: Cell<Vec<u8>>,
    errors: Cell<Vec<u8>>,
    seconds: Cell<u64>,
}

impl<'a, R: AllocGlobal> Stage<'a, R> {
    /// A stage with this scene.
    pub fn new(rt: &'a R, scene: Scene<'a>) -> Stage<'a, R> {
        Stage {
            rt,
            scene,
            output: Cell::new(Vec::new(rt.alloc())),
            errors: Cell::new(Vec::new(rt.alloc())),
            seconds: Cell::new(0),
        }
    }

    /// What went to standard output, and what went to standard error.
    pub fn into_kept(self) -> (Vec<u8>, Vec<u8>) {
        let Stage {
            rt: _,
            scene: _,
            output,
            errors,
            seconds: _,
        } = self;
        (output.into_inner(), errors.into_inner())
    }

    /// Adds bytes to a stream, as many as it has room for, and answers how many.
    fn keep(&self, stream: &Cell<Vec<u8>>, room: usize, bytes: &[u8]) -> io::Result<usize>
        ensures { IfOk result (λ count. count ≤ length bytes.now) }
    {
        let mut kept = stream.replace(Vec::new(self.rt.alloc()));
        let count = bytes.len().min(room.saturating_sub(kept.len()));
        let added = kept.extend_from_slice(&bytes[..count]);
        stream.set(kept);
        added?;
        if count == 0 && !bytes.is_empty() {
            return Err(io::Error::from(ErrorKind::StorageFull));
        }
        Ok(count)
    }

    /// Adds a line, or a part of one, to standard error.
    fn keep_error<D: Display + Drop>(&self, value: D, end: &str) -> io::Result<()> {
        let text = format!(in self.rt.alloc(); "{value}{end}")?;
        self.keep(&self.errors, usize::MAX, text.as_bytes())?;
        Ok(())
    }
}

impl<R: AllocGlobal> Alloc for Stage<'_, R> {
    type A = Global;

    fn alloc(&self) -> Global {
        self.rt.alloc()
    }
}

impl<R: AllocGlobal> Print for Stage<'_, R> {
    fn print<D: Display + Drop>(&self, value: D) -> io::Result<()> {
        let text = format!(in self.rt.alloc(); "{value}")?;
        self.write_all(text.as_bytes())
    }

    fn println<D: Display + Drop>(&self, value: D) -> io::Result<()> {
        let text = format!(in self.rt.alloc(); "{value}\n")?;
        self.write_all(text.as_bytes())
    }

    fn write_all(&self, bytes: &[u8]) -> io::Result<()> {
        if self.write_some(bytes)? < bytes.len() {
            return Err(io::Error::from(ErrorKind::StorageFull));
        }
        Ok(())
    }

    fn write_some(&self, bytes: &[u8]) -> io::Result<usize> {
        self.keep(&self.output, self.scene.room, bytes)
    }
}

impl<R: AllocGlobal> Eprint for Stage<'_, R> {
    fn eprint<D: Display + Drop>(&self, value: D) -> io::Result<()> {
        self.keep_error(value, "")
    }

    fn eprintln<D: Display + Drop>(&self, value: D) -> io::Result<()> {
        self.keep_error(value, "\n")
    }
}

impl<'a, R> Input for Stage<'a, R> {
    type Reader = &'a [u8];

    fn read_line<A: Allocator + Clone>(&self, line: &mut String<A>) -> io::Result<usize> {
        self.reader().read_line(line)
    }

    fn lines<A: Allocator>(&self, alloc: A) -> Lines<&'a [u8], A> {
        self.reader().lines(alloc)
    }

    fn reader(&self) -> &'a [u8] {
        self.scene.input
    }
}

impl<R> Clock for Stage<'_, R> {
    fn monotonic(&self) -> io::Result<Duration> {
        let now = self.seconds.get().saturating_add(1);
        self.seconds.set(now);
        Ok(Duration::from_secs(now))
    }

    fn since_1970(&self) -> io::Result<Duration> {
        self.monotonic()
    }
}

/// Whether a name leads to a standard stream by a link.
fn is_stream(path: &str) -> bool {
    matches!(path, "/dev/stdin" | "/dev/stdout" | "/dev/stderr")
}

/// The name of the file that a name leads to where it is that of a standard stream.
fn led<'a>(scene: Scene<'a>, path: &'a str) -> &'a str {
    match path {
        "/dev/stdin" => scene.input_name,
        "/dev/stdout" | "/dev/stderr" => scene.output_name,
        other => other,
    }
}

impl<R: Files> Files for Stage<'_, R> {
    type File = R::File;

    type Dir = R::Dir;

    fn open_file(&self, how: &OpenOptions, path: &str) -> io::Result<R::File> {
        self.rt.open_file(how, led(self.scene, path))
    }

    fn open_dir(&self, path: &str) -> io::Result<R::Dir> {
        self.rt.open_dir(path)
    }

    fn metadata(&self, path: &str) -> io::Result<Metadata> {
        self.rt.metadata(led(self.scene, path))
    }

    fn symlink_metadata(&self, path: &str) -> io::Result<Metadata> {
        if is_stream(path) {
            return Ok(Metadata::of_symlink(0));
        }
        self.rt.symlink_metadata(path)
    }

    fn copy(&self, from: &str, to: &str) -> io::Result<u64> {
        self.rt.copy(from, to)
    }

    fn rename(&self, from: &str, to: &str) -> io::Result<()> {
        if self.scene.is_stuck {
            return Err(io::Error::from(ErrorKind::PermissionDenied));
        }
        self.rt.rename(from, to)
    }

    fn remove_file(&self, path: &str) -> io::Result<()> {
        self.rt.remove_file(path)
    }

    fn create_dir(&self, path: &str) -> io::Result<()> {
        self.rt.create_dir(path)
    }

    fn remove_dir(&self, path: &str) -> io::Result<()> {
        self.rt.remove_dir(path)
    }

    fn remove_dir_all<B: Allocator>(&self, alloc: B, path: &str) -> io::Result<()> {
        self.rt.remove_dir_all(alloc, path)
    }
}
