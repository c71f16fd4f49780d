//! Texts that stand in folders.

use crate::outputs::{Outputs, WrittenFile};
use crate::spacing::Spacing;
use cob_program_faults::{FileIdentity, TextFault, read_text};
use cob_source::TextFormat;
use cob_source_copies::{Shelf, ShelfFault, TextName};
use std::alloc::{AllocError, Global};
use std::rt::Files;
use std::str;

/// What may stand behind the name of a text in the name of its file.
const SUFFIXES: [&str; 3] = ["", ".cpy", ".cbl"];

/// Folders, parted by colons, that texts are looked for in.
#[derive(Clone, Copy)]
pub struct Folders<'a, R> {
    rt: &'a R,
    folders: &'a str,
    /// The files that the command writes.
    outputs: Outputs,
    /// How the texts stand on their lines.
    spacing: Spacing,
    /// The first of these that a text came from.
    lost: Option<WrittenFile>,
}

impl<'a, R> Folders<'a, R> {
    /// These folders, parted by colons, with texts that stand so on their lines, for a command that writes these files.
    pub fn new(rt: &'a R, folders: &'a str, outputs: Outputs, spacing: Spacing) -> Folders<'a, R> {
        Folders {
            rt,
            folders,
            outputs,
            spacing,
            lost: None,
        }
    }

    /// A file that the command writes and that a text came from, which would be lost.
    pub fn lost(&self) -> Option<WrittenFile> {
        self.lost
    }
}

/// The name of a file or a folder, if these characters can be one: they don't lead elsewhere.
fn file_name(characters: &[u8]) -> Option<&str> {
    match str::from_utf8(characters) {
        Ok(name) if !name.is_empty() && !name.contains('/') && !name.starts_with('.') => Some(name),
        _ => None,
    }
}

/// A folder, and where a library is named that of its name beneath it.
fn folder_of(
    alloc: Global,
    folder: &str,
    library: Option<&str>,
    is_small: bool,
) -> Result<String, AllocError> {
    match library {
        Some(library) if is_small => {
            let small = library.to_ascii_lowercase(alloc)?;
            format!(in alloc; "{folder}/{small}")
        }
        Some(library) => format!(in alloc; "{folder}/{library}"),
        None => format!(in alloc; "{folder}"),
    }
}

/// A text, and the identity of its file.
#[derive(Drop)]
struct Found {
    text: Vec<u8>,
    identity: Option<FileIdentity>,
}

/// The text in a file, if there is one that opens.
fn text_at<R: AllocGlobal + Files>(rt: &R, path: &str) -> Result<Option<Found>, ShelfFault> {
    match read_text(rt, path) {
        Ok(text) => Ok(Some(Found {
            text,
            identity: FileIdentity::of(rt, path),
        })),
        Err(TextFault::NotOpened) => Ok(None),
        Err(TextFault::NotRead) => Err(ShelfFault::Unreadable),
        Err(TextFault::Memory) => Err(ShelfFault::Memory),
    }
}

/// The text in the file of this name with these characters behind it, if there is one that opens.
fn text_with<R: AllocGlobal + Files>(
    rt: &R,
    folder: &str,
    name: &str,
    suffix: &str,
) -> Result<Option<Found>, ShelfFault> {
    match format!(in rt.alloc(); "{folder}/{name}{suffix}") {
        Ok(path) => text_at(rt, &path),
        Err(_) => Err(ShelfFault::Memory),
    }
}

/// The text in the first file in a folder that may have it: of the name with nothing, `.cpy` or `.cbl` behind it.
fn text_in<R: AllocGlobal + Files>(
    rt: &R,
    folder: &str,
    name: &str,
) -> Result<Option<Found>, ShelfFault> {
    for suffix in &SUFFIXES {
        let found = text_with(rt, folder, name, *suffix)?;
        if found.is_some() {
            return Ok(found);
        }
    }
    Ok(None)
}

/// The text in the first file in a folder, or in that of a library beneath it, that may have it.
fn text_beneath<R: AllocGlobal + Files>(
    rt: &R,
    folder: &str,
    library: Option<&str>,
    name: &str,
    is_small: bool,
) -> Result<Option<Found>, ShelfFault> {
    match folder_of(rt.alloc(), folder, library, is_small) {
        Ok(beneath) => text_in(rt, &beneath, name),
        Err(_) => Err(ShelfFault::Memory),
    }
}

/// The text in the first file that may have it, its name in small letters.
fn text_small<R: AllocGlobal + Files>(
    rt: &R,
    folder: &str,
    library: Option<&str>,
    name: &str,
) -> Result<Option<Found>, ShelfFault> {
    match name.to_ascii_lowercase(rt.alloc()) {
        Ok(small) => text_beneath(rt, folder, library, &small, true),
        Err(_) => Err(ShelfFault::Memory),
    }
}

/// The text in the first file that may have it, its name in capitals, or else in small letters.
fn text_named<R: AllocGlobal + Files>(
    rt: &R,
    folder: &str,
    library: Option<&str>,
    name: &str,
) -> Result<Option<Found>, ShelfFault> {
    match text_beneath(rt, folder, library, name, false) {
        Ok(None) => text_small(rt, folder, library, name),
        found => found,
    }
}

impl<R: AllocGlobal + Files> Folders<'_, R> {
    /// The text of this name in the first folder that has it.
    fn found(&self, library: Option<&str>, name: &str) -> Result<Option<Found>, ShelfFault> {
        for folder in self.folders.split(':') {
            let found = text_named(self.rt, folder, library, name)?;
            if found.is_some() {
                return Ok(found);
            }
        }
        Ok(None)
    }
}

/// The name of a library as that of a folder, where one is named; `Err` where it can be none.
fn library_name(named: &TextName) -> Result<Option<&str>, ()> {
    match &named.library {
        Some(library) => match file_name(library.as_slice()) {
            Some(library) => Ok(Some(library)),
            None => Err(()),
        },
        None => Ok(None),
    }
}

impl<R: AllocGlobal + Files> Shelf for Folders<'_, R> {
    fn text(&mut self, alloc: Global, named: &TextName) -> Result<Option<Vec<u8>>, ShelfFault> {
        let Some(name) = file_name(named.name.as_slice()) else {
            return Ok(None);
        };
        let Ok(library) = library_name(named) else {
            return Ok(None);
        };
        let Some(found) = self.found(library, name)? else {
            return Ok(None);
        };
        if self.lost.is_none() {
            self.lost = self.outputs.lost_with(found.identity);
        }
        match self.spacing.spaced(alloc, found.text) {
            Ok(text) => Ok(Some(text)),
            Err(_) => Err(ShelfFault::Memory),
        }
    }

    fn format(&self) -> TextFormat {
        self.spacing.format
    }
}
