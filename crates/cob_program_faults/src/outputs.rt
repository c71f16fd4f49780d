ghost use Rattle.std.specs.Prelude.{◌≡◌, [], IfOk, OnOk, string_bytes};
ghost use Rattle.std.specs.Io.Buffered.{writer_buffer, writer_capacity};
ghost use Rattle.cob_records.specs.Files.{buffer_size};
ghost use Rattle.cob_records.specs.Streams.{sink_writer, sink_failures, sink_errors};
ghost use Rattle.cob_program_faults.specs.Names.{folder_name, name_of_part, or_here};

use cob_records::{FileSink, OpenFault, Opened, WriteSink, create_sink};
use std::alloc::{AllocError, Global};
use std::fs::{File, OpenFile, OpenOptions};
use std::io::{ErrorKind, Print, Printer};
use std::os::unix::fs::{MetadataExt, OpenOptionsExt};
use std::path::Path;
use std::rt::Files;
use std::{fs, io};

/// The bits of a file's mode that say who may read and write it.
const PERMISSIONS: u32 = 0o666;

/// The name of the file that stands in for the output of this name until all of it is written.
pub fn part_name(alloc: Global, name: &str) -> Result<String, AllocError>
    ensures { IfOk result (λ part. string_bytes part ≡ name_of_part name.now) }
{
    let mut part = String::new(alloc);
    part.push_str(name)?;
    part.push_str(".part")?;
    Ok(part)
}

/// Who may read and write the part of an output: whoever may the output that it will replace, and no one else. `None` where nothing may be
/// replaced: the name is that of a standard stream or none, or what is there is no regular file or may not be written.
fn replaceable<R: Files>(rt: &R, name: &str) -> Option<u32> {
    if matches!(name, "" | "-") {
        return None;
    }
    match rt.symlink_metadata(name) {
        Ok(there) if there.is_file() => {
            let writes = OpenOptions::new().write(true).open(rt, name).is_ok();
            writes.then_some(there.mode() & PERMISSIONS)
        }
        Ok(_) => None,
        Err(error) => (error.kind() == ErrorKind::NotFound).then_some(PERMISSIONS),
    }
}

/// A sink over a new file of the name `part`, which will replace the output of the name `name`.
///
/// # Errors
///
/// Where the output may not be replaced: it is a standard stream, a link, a folder, a pipe or a device, or may not be written; where memory for the
/// buffer is refused; where there is a file of the name `part` already, or the system does not make it. No part is made then.
pub fn create_part<'a, R: AllocGlobal + Files + Print>(
    rt: &'a R,
    name: &str,
    part: &str,
) -> Result<FileSink<R::File, Printer<'a, R>>, OpenFault>
    ensures failures { IfOk result (λ sink. sink_failures sink ≡ 0) }
    ensures errors { IfOk result (λ sink. sink_errors sink ≡ 0) }
    ensures empty { IfOk result (λ sink. writer_buffer (sink_writer sink) ≡ []) }
    ensures room { IfOk result (λ sink. writer_capacity (sink_writer sink) ≡ buffer_size) }
{
    let Some(permissions) = replaceable(rt, name) else {
        return Err(OpenFault::NotOpened);
    };
    // The buffer comes first, over standard output until the part is there, so that refused memory leaves no part.
    let mut writer = create_sink(rt, "-")?.into_inner();
    let made = OpenOptions::new()
        .write(true)
        .create_new(true)
        .mode(permissions)
        .open(rt, part);
    match made {
        Ok(file) => {
            *writer.get_mut() = Opened::Named(file);
            Ok(WriteSink::new(writer))
        }
        Err(_) => Err(OpenFault::NotOpened),
    }
}

/// Why an output that is written whole did not come into its place. Its part has it.
#[derive(Clone, Copy, PartialEq, Eq)]
pub enum OutputFault {
    /// The system could not bring the part to its device, or the folder with the part's new name.
    NotSynced,
    /// The system did not rename the part, so that the output is as it was before.
    NotRenamed,
}

/// Brings a part that was handed over whole to its device.
fn sync<F: OpenFile, S>(opened: &Opened<F, S>) -> io::Result<()> {
    match opened {
        Opened::Named(file) => file.sync_all(),
        Opened::Standard(_) => Ok(()),
    }
}

/// This folder, or `.` where it has no name.
fn or_here(folder: &str) -> &str
    ensures { result.now ≡ or_here folder.now }
{
    if folder.is_empty() { "." } else { folder }
}

/// The folder that the file of this name stands in.
pub fn folder_of(name: &str) -> &str
    ensures { result.now ≡ folder_name name.now }
{
    match Path::new(name).parent() {
        Some(folder) => or_here(folder.as_str()),
        None => ".",
    }
}

/// Brings the names of a folder's files to its device.
fn sync_folder<R: Files>(rt: &R, folder: &str) -> io::Result<()> {
    let folder = File::open(rt, folder)?;
    folder.sync_all()
}

/// Brings the part of an output to its device, then gives it the output's name, in the place of what had that name, and then brings its folder to its
/// device, so that the new name is there too. The sink was flushed, and all records are in it.
///
/// # Errors
///
/// Where one of the first two fails: the output is as it was before. Where the last fails, it is the new one, which a power cut may take back.
pub fn put_in_place<'a, R: AllocGlobal + Files + Print>(
    rt: &'a R,
    sink: FileSink<R::File, Printer<'a, R>>,
    part: &str,
    name: &str,
) -> Result<(), OutputFault> {
    let writer = sink.into_inner();
    if sync(writer.get_ref()).is_err() {
        return Err(OutputFault::NotSynced);
    }
    if fs::rename(rt, part, name).is_err() {
        return Err(OutputFault::NotRenamed);
    }
    match sync_folder(rt, folder_of(name)) {
        Ok(()) => Ok(()),
        Err(_) => Err(OutputFault::NotSynced),
    }
}
