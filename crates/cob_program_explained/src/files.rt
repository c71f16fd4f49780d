//! The files that options name, and why the system did not open, read or write one.

use cob_program_faults::folder_of;
use cob_program_line::Line;
use cob_program_runtime::{FileError, NamedFile};
use std::alloc::{AllocError, Global};
use std::io::Eprint;

/// Adds a file that is read. Standard input is none.
fn push_read<'a>(files: &mut Vec<NamedFile<'a>>, file: NamedFile<'a>) -> Result<(), AllocError> {
    if file.path == "-" {
        return Ok(());
    }
    files.push(file)?;
    Ok(())
}

/// Adds a file that is written, the part that may stand in for it, and the folder of both.
fn push_written<'a>(files: &mut Vec<NamedFile<'a>>, file: NamedFile<'a>) -> Result<(), AllocError> {
    files.push(file)?;
    files.push(NamedFile::written(file.option, file.path, ".part"))?;
    files.push(NamedFile::written(file.option, folder_of(file.path), ""))?;
    Ok(())
}

/// Adds the files that are opened for one that an option names.
fn push_opened<'a>(files: &mut Vec<NamedFile<'a>>, file: NamedFile<'a>) -> Result<(), AllocError> {
    if file.is_read {
        push_read(files, file)
    } else {
        push_written(files, file)
    }
}

/// The files that are opened for those that the options of a command line name, in their order.
///
/// # Errors
///
/// Where no memory is left.
pub fn files_of<'a>(alloc: Global, line: &Line<'a>) -> Result<Vec<NamedFile<'a>>, AllocError> {
    let named = line.files(alloc)?;
    let mut files = Vec::new(alloc);
    for file in &named {
        push_opened(&mut files, *file)?;
    }
    Ok(files)
}

/// Prints why the system did not open, read or write a file, where an option names it. Where that can't be printed, or no memory is left for it, the fault
/// line stands alone.
pub fn tell_file_error<R: AllocGlobal + Eprint>(rt: &R, error: Option<FileError<'_>>) {
    let Some(error) = error else {
        return;
    };
    if let Ok(told) = error.told(rt.alloc()) {
        let _ = eprintln!(rt; "{told}");
    }
}
