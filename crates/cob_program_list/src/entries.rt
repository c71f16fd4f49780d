ghost use Rattle.std.specs.Prelude.{◌≡◌, [], IfErr, OnOk};
ghost use Rattle.std.specs.Io.Buffered.{writer_buffer};
ghost use Rattle.cob_records.specs.Streams.{sink_writer};
ghost use Rattle.cob_program_faults.specs.Ends.{EndsAmong};
ghost use Rattle.cob_program_list.specs.Ends.{MayEndLayout};
ghost use Rattle.cob_program_list.specs.Listed.{listed_entries};

use crate::copybook::{NamedBook, read_named_book};
use crate::ends::tell_listed;
use cob_convert::Status;
use cob_program_faults::CommandFault;
use cob_program_line::LayoutLine;
use cob_records::{DeviceFault, WriteSink, create_sink};
use cob_report_show::layout_text;
use std::io::{BufWriter, Eprint, Print, Write};
use std::rt::Files;

/// Lists the entries of a copybook with their condition-names, and hands all of the list to the device.
fn list_to_end<W: Write + Drop>(
    book: &NamedBook,
    sink: &mut WriteSink<BufWriter<W>>,
) -> Result<(), DeviceFault>
    ensures { OnOk result (writer_buffer (sink_writer sink.new) ≡ []) }
{
    match layout_text(&book.listed.layout, &book.names, sink) {
        Ok(()) => sink.flush(),
        Err(_) => Err(DeviceFault),
    }
}

/// What a list of entries comes to that was handed to the device, or was not.
fn listed(handed: Result<(), DeviceFault>) -> Result<(), CommandFault>
    ensures told { result ≡ listed_entries handed }
    ensures fault { IfErr result MayEndLayout }
{
    match handed {
        Ok(()) => Ok(()),
        Err(DeviceFault) => Err(CommandFault::Unprinted),
    }
}

/// Prints a line for each entry of a copybook on standard output, and behind it one for each of its condition-names.
///
/// # Errors
///
/// A file that is not opened or not read, a copybook that is refused, a line that is not printed, want of memory.
pub fn list_entries<R: AllocGlobal + Files + Print>(
    rt: &R,
    line: &LayoutLine<'_>,
) -> Result<(), CommandFault>
    ensures { IfErr result MayEndLayout }
{
    let book = read_named_book(rt, line.book)?;
    let Ok(mut sink) = create_sink(rt, "-") else {
        return Err(CommandFault::Memory);
    };
    listed(list_to_end(&book, &mut sink))
}

/// Lists the entries of a copybook, prints what is at fault, and answers how the program ends.
pub fn do_layout<R: AllocGlobal + Files + Print + Eprint>(rt: &R, line: &LayoutLine<'_>) -> Status
    ensures { EndsAmong MayEndLayout result }
{
    tell_listed(rt, list_entries(rt, line))
}
