//! Which files are noted, and where the last error of one is kept.

ghost use Rattle.std.specs.Prelude.{◌≡◌};

use std::alloc::{AllocError, Global};
use std::cell::Cell;
use std::io;

/// A file by the option that names it.
#[derive(Clone, Copy)]
pub struct NamedFile<'a> {
    /// The option, without its hyphens.
    pub option: &'a str,
    /// The path that the option names; `-` is standard output.
    pub path: &'a str,
    /// What stands behind that path: nothing, or what the part of an output has there.
    pub suffix: &'a str,
    /// Whether it is read, so that it has to be there.
    pub is_read: bool,
}

impl<'a> NamedFile<'a> {
    /// The file that an option names and that is read.
    pub fn read(option: &'a str, path: &'a str) -> NamedFile<'a> {
        NamedFile {
            option,
            path,
            suffix: "",
            is_read: true,
        }
    }

    /// The file that is written for the one that an option names, with this behind its path: nothing where it is that file itself.
    pub fn written(option: &'a str, path: &'a str, suffix: &'a str) -> NamedFile<'a> {
        NamedFile {
            option,
            path,
            suffix,
            is_read: false,
        }
    }

    /// Whether the file has this path.
    fn is_at(&self, path: &str) -> bool {
        match path.strip_suffix(self.suffix) {
            Some(front) => front == self.path,
            None => false,
        }
    }
}

/// The first of these files that has this path.
pub(crate) fn file_at<'a>(files: &[NamedFile<'a>], path: &str) -> Option<NamedFile<'a>> {
    for file in files {
        if file.is_at(path) {
            return Some(*file);
        }
    }
    None
}

/// The file that has this path, where it is one that is read.
pub(crate) fn read_at<'a>(files: &[NamedFile<'a>], path: &str) -> Option<NamedFile<'a>> {
    match file_at(files, path) {
        Some(file) if file.is_read => Some(file),
        _ => None,
    }
}

/// The system's words for an error, without the number that it has for them.
fn reason_in(words: &str) -> &str {
    match words.split_once(" (os error ") {
        Some((reason, _)) => reason,
        None => words,
    }
}

/// An error of a file that an option names.
#[derive(Clone, Copy)]
pub struct FileError<'a> {
    file: NamedFile<'a>,
    error: io::Error,
}

impl FileError<'_> {
    /// The option, the path that it names and the system's words, without the number that the system has for them.
    ///
    /// # Errors
    ///
    /// Where no memory is left.
    pub fn told(&self, alloc: Global) -> Result<String, AllocError> {
        let NamedFile {
            option,
            path,
            suffix,
            ..
        } = self.file;
        let words = format!(in alloc; "{}", self.error)?;
        let reason = reason_in(&words);
        format!(in alloc; "{option}: {path}{suffix}: {reason}")
    }
}

/// The last error, where there was one.
pub type LastError<'a> = Cell<Option<FileError<'a>>>;

/// What a call on a file answered, whose error is kept where an option names the file.
pub fn noted<'a, T>(
    last: &LastError<'a>,
    file: Option<NamedFile<'a>>,
    answer: io::Result<T>,
) -> io::Result<T>
    ensures { result ≡ answer }
{
    if let (Err(error), Some(file)) = (&answer, file) {
        last.set(Some(FileError {
            file,
            error: *error,
        }));
    }
    answer
}
