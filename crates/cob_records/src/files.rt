ghost use Rattle.std.specs.Prelude.{◌≡◌, [], IfOk, None, true};
ghost use Rattle.std.specs.Io.Buffered.{reader_buffer, reader_capacity, reader_inner, writer_buffer, writer_capacity, writer_inner};
ghost use Rattle.cob_records.specs.Files.{buffer_size, is_standard, names_standard};
ghost use Rattle.cob_records.specs.Streams.{source_reader, source_failures, sink_writer, sink_failures, sink_errors};

use crate::streams::{ReadSource, WriteSink};
use std::fs::File;
use std::io::{BufReader, BufWriter, Input, Print, Printer, Read, Write};
use std::rt::Files;
use std::{fs, io};

/// How many bytes the buffer of an end holds: two of the longest frames, almost.
const BUFFER: usize = 65_536;

/// What a name stands for where a file is wanted.
#[derive(Drop)]
pub enum Opened<F, S> {
    /// The file of this name.
    Named(F),
    /// A standard stream, whose name is `-`.
    Standard(S),
}

impl<F: Read, S: Read> Read for Opened<F, S> {
    ghost use Rattle.cob_records.specs.Files.{told_of};

    ghost remaining = { λ opened. told_of F.remaining S.remaining opened };

    #[inline(never)]
    fn read(&mut self, buf: &mut [u8]) -> io::Result<usize> {
        match self {
            Opened::Named(file) => file.read(buf),
            Opened::Standard(stream) => stream.read(buf),
        }
    }
}

impl<F: Write, S: Write> Write for Opened<F, S> {
    ghost use Rattle.cob_records.specs.Files.{told_of};

    ghost contents = { λ opened. told_of F.contents S.contents opened };

    #[inline(never)]
    fn write(&mut self, buf: &[u8]) -> io::Result<usize> {
        match self {
            Opened::Named(file) => file.write(buf),
            Opened::Standard(stream) => stream.write(buf),
        }
    }

    fn flush(&mut self) -> io::Result<()> {
        match self {
            Opened::Named(file) => file.flush(),
            Opened::Standard(stream) => stream.flush(),
        }
    }
}

/// Why an end over a file was not made.
#[derive(Clone, Copy, Debug, PartialEq, Eq)]
pub enum OpenFault {
    /// The system does not open the file, or does not make it.
    NotOpened,
    /// Memory for the buffer was refused.
    Memory,
}

/// A source over a file or standard input, which reads ahead into a buffer: the system is called once for
/// many records.
pub type FileSource<F, S> = ReadSource<BufReader<Opened<F, S>>>;

/// A sink over a file or standard output, which gathers what it takes in a buffer: the system is called
/// once for many records.
///
/// Call [`WriteSink::flush`] after the last record. What the buffer holds is always what follows the bytes
/// that the device took, so a device that fails leaves a beginning of the right text. It fails in the call
/// that empties the buffer, so the records named by a fault are at most those of one buffer past the bytes
/// that it took; a last flush that fails is a failed write of the last record that was put.
pub type FileSink<F, S> = WriteSink<BufWriter<Opened<F, S>>>;

/// Whether the name is that of a standard stream: `-`.
pub fn names_standard(name: &str) -> bool
    ensures { result ≡ names_standard name.now }
{
    matches!(name.as_bytes(), [b'-'])
}

/// How many bytes the file of this name has, where it is a regular file whose size the system tells. That of a standard stream is not
/// known.
pub fn size_of<R: Files>(rt: &R, name: &str) -> Option<u64>
    ensures { names_standard name.now ≡ true → result ≡ None }
{
    if names_standard(name) {
        return None;
    }
    match fs::metadata(rt, name) {
        Ok(metadata) if metadata.is_file() => Some(metadata.len()),
        _ => None,
    }
}

/// A source over the file of this name, or over standard input where the name is `-`.
///
/// # Errors
///
/// Where the system does not open the file, or memory for the buffer is refused.
pub fn open_source<R: AllocGlobal + Files + Input>(
    rt: &R,
    name: &str,
) -> Result<FileSource<R::File, R::Reader>, OpenFault>
    ensures failures { IfOk result (λ source. source_failures source ≡ 0) }
    ensures empty { IfOk result (λ source. reader_buffer (source_reader source) ≡ []) }
    ensures room { IfOk result (λ source. reader_capacity (source_reader source) ≡ buffer_size) }
    ensures which { IfOk result (λ source.
        is_standard (reader_inner (source_reader source)) ≡ names_standard name.now) }
{
    let opened = if names_standard(name) {
        Opened::Standard(rt.reader())
    } else {
        match File::open(rt, name) {
            Ok(file) => Opened::Named(file),
            Err(_) => return Err(OpenFault::NotOpened),
        }
    };
    match BufReader::with_capacity(rt.alloc(), BUFFER, opened) {
        Ok(reader) => Ok(ReadSource::new(reader)),
        Err(_) => Err(OpenFault::Memory),
    }
}

/// A sink over the file of this name, which is made, or emptied where it is there; or over standard output
/// where the name is `-`. The buffer is made before the file is, so that refused memory leaves the file as it
/// was.
///
/// # Errors
///
/// Where memory for the buffer is refused, or the system does not make the file.
pub fn create_sink<'a, R: AllocGlobal + Files + Print>(
    rt: &'a R,
    name: &str,
) -> Result<FileSink<R::File, Printer<'a, R>>, OpenFault>
    ensures failures { IfOk result (λ sink. sink_failures sink ≡ 0) }
    ensures errors { IfOk result (λ sink. sink_errors sink ≡ 0) }
    ensures empty { IfOk result (λ sink. writer_buffer (sink_writer sink) ≡ []) }
    ensures room { IfOk result (λ sink. writer_capacity (sink_writer sink) ≡ buffer_size) }
    ensures which { IfOk result (λ sink.
        is_standard (writer_inner (sink_writer sink)) ≡ names_standard name.now) }
{
    let stream = Opened::Standard(io::writer(rt));
    let Ok(mut writer) = BufWriter::with_capacity(rt.alloc(), BUFFER, stream) else {
        return Err(OpenFault::Memory);
    };
    if !names_standard(name) {
        match File::create(rt, name) {
            Ok(file) => *writer.get_mut() = Opened::Named(file),
            Err(_) => return Err(OpenFault::NotOpened),
        }
    }
    Ok(WriteSink::new(writer))
}
