//! A runtime whose copybooks are handed over.

use crate::books::HandedBook;
use crate::files::HandedFile;
use std::alloc::Allocator;
use std::fmt::Display;
use std::fs::{Metadata, OpenOptions};
use std::io;
use std::io::{Eprint, Input, Lines, Print};
use std::rt::{Clock, Files};
use std::time::Duration;

/// A runtime whose calls are those of the one inside, but that it has the copybooks that are handed over where their command finds them.
#[derive(Clone, Copy)]
pub struct HandedRuntime<'a, R> {
    rt: &'a R,
    books: &'a [HandedBook<'a>],
}

impl<'a, R> HandedRuntime<'a, R> {
    /// A runtime round this one with these copybooks.
    pub fn new(rt: &'a R, books: &'a [HandedBook<'a>]) -> HandedRuntime<'a, R> {
        HandedRuntime { rt, books }
    }
}

/// The copybook that a command finds at this path.
fn book_at<'a>(books: &'a [HandedBook<'a>], path: &str) -> Option<&'a HandedBook<'a>> {
    for book in books {
        if book.found_at == path {
            return Some(book);
        }
    }
    None
}

/// The path that it is for the runtime inside: that of the file of a copybook that is handed over.
fn path_inside<'a>(books: &'a [HandedBook<'a>], path: &'a str) -> &'a str {
    match book_at(books, path) {
        Some(book) => book.path,
        None => path,
    }
}

impl<R: Alloc> Alloc for HandedRuntime<'_, R> {
    type A = R::A;

    fn alloc(&self) -> R::A {
        self.rt.alloc()
    }
}

impl<R: Print> Print for HandedRuntime<'_, R> {
    fn print<D: Display + Drop>(&self, value: D) -> io::Result<()> {
        self.rt.print(value)
    }

    fn println<D: Display + Drop>(&self, value: D) -> io::Result<()> {
        self.rt.println(value)
    }

    fn write_all(&self, bytes: &[u8]) -> io::Result<()> {
        self.rt.write_all(bytes)
    }

    fn write_some(&self, bytes: &[u8]) -> io::Result<usize> {
        self.rt.write_some(bytes)
    }
}

impl<R: Eprint> Eprint for HandedRuntime<'_, R> {
    fn eprint<D: Display + Drop>(&self, value: D) -> io::Result<()> {
        self.rt.eprint(value)
    }

    fn eprintln<D: Display + Drop>(&self, value: D) -> io::Result<()> {
        self.rt.eprintln(value)
    }
}

impl<R: Clock> Clock for HandedRuntime<'_, R> {
    fn monotonic(&self) -> io::Result<Duration> {
        self.rt.monotonic()
    }

    fn since_1970(&self) -> io::Result<Duration> {
        self.rt.since_1970()
    }
}

impl<R: Input> Input for HandedRuntime<'_, R> {
    type Reader = R::Reader;

    fn read_line<A: Allocator + Clone>(&self, buf: &mut String<A>) -> io::Result<usize> {
        self.rt.read_line(buf)
    }

    fn lines<A: Allocator>(&self, alloc: A) -> Lines<R::Reader, A> {
        self.rt.lines(alloc)
    }

    fn reader(&self) -> R::Reader {
        self.rt.reader()
    }
}

impl<'a, R: Files> Files for HandedRuntime<'a, R> {
    type File = HandedFile<'a, R::File>;

    type Dir = R::Dir;

    fn open_file(&self, how: &OpenOptions, path: &str) -> io::Result<HandedFile<'a, R::File>> {
        match book_at(self.books, path) {
            Some(book) => Ok(HandedFile::Text(book.text.as_slice())),
            None => match self.rt.open_file(how, path) {
                Ok(file) => Ok(HandedFile::Inside(file)),
                Err(error) => Err(error),
            },
        }
    }

    fn open_dir(&self, path: &str) -> io::Result<R::Dir> {
        self.rt.open_dir(path)
    }

    /// That of the file which a copybook came from, where it is one that is handed over.
    fn metadata(&self, path: &str) -> io::Result<Metadata> {
        self.rt.metadata(path_inside(self.books, path))
    }

    fn symlink_metadata(&self, path: &str) -> io::Result<Metadata> {
        self.rt.symlink_metadata(path_inside(self.books, path))
    }

    fn copy(&self, from: &str, to: &str) -> io::Result<u64> {
        self.rt.copy(from, to)
    }

    fn rename(&self, from: &str, to: &str) -> io::Result<()> {
        self.rt.rename(from, to)
    }

    fn remove_file(&self, path: &str) -> io::Result<()> {
        self.rt.remove_file(path)
    }

    fn create_dir(&self, path: &str) -> io::Result<()> {
        self.rt.create_dir(path)
    }

    fn remove_dir(&self, path: &str) -> io::Result<()> {
        self.rt.remove_dir(path)
    }

    fn remove_dir_all<B: Allocator>(&self, alloc: B, path: &str) -> io::Result<()> {
        self.rt.remove_dir_all(alloc, path)
    }
}
