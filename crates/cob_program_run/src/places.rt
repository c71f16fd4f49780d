//! Two outputs that come into their places together.

use crate::running_aside::PlacesFault;
use cob_program_ends::OutputNames;
use cob_program_faults::{OutputFault, put_in_place};
use cob_records::{FileSink, Opened, WriteSink};
use std::fs::OpenFile;
use std::io::{Print, Printer, Write};
use std::rt::Files;

/// Whether a part that was handed over whole was brought to its device.
fn is_synced<F: OpenFile, S>(opened: &Opened<F, S>) -> bool {
    match opened {
        Opened::Named(file) => file.sync_all().is_ok(),
        Opened::Standard(_) => true,
    }
}

/// Brings a part that was handed over whole to its device.
///
/// # Errors
///
/// Where the system could not.
fn synced<F: OpenFile + Write + Drop, S: Write + Drop>(
    sink: FileSink<F, S>,
) -> Result<FileSink<F, S>, OutputFault> {
    let writer = sink.into_inner();
    if is_synced(writer.get_ref()) {
        Ok(WriteSink::new(writer))
    } else {
        Err(OutputFault::NotSynced)
    }
}

/// Puts the rejected records in their place, and then the output, whose part is on its device.
fn put_rejects_first<'a, R: AllocGlobal + Files + Print>(
    rt: &'a R,
    sink: FileSink<R::File, Printer<'a, R>>,
    aside: FileSink<R::File, Printer<'a, R>>,
    parts: OutputNames<'_>,
    names: OutputNames<'_>,
) -> Result<(), PlacesFault> {
    if let Err(fault) = put_in_place(rt, aside, parts.rejects, names.rejects) {
        return Err(PlacesFault::Rejects(fault));
    }
    match put_in_place(rt, sink, parts.output, names.output) {
        Ok(()) => Ok(()),
        Err(fault) => Err(PlacesFault::Output(fault)),
    }
}

/// Brings both parts to their devices, and then gives them the names of their files, the rejected records first: so where the output is in its place,
/// they are in theirs. Both sinks were flushed, and all records are in them.
///
/// # Errors
///
/// The first of these that fails. The output is as it was before.
pub(crate) fn put_both_in_place<'a, R: AllocGlobal + Files + Print>(
    rt: &'a R,
    sink: FileSink<R::File, Printer<'a, R>>,
    aside: FileSink<R::File, Printer<'a, R>>,
    parts: OutputNames<'_>,
    names: OutputNames<'_>,
) -> Result<(), PlacesFault> {
    match synced(sink) {
        Ok(sink) => put_rejects_first(rt, sink, aside, parts, names),
        Err(fault) => Err(PlacesFault::Output(fault)),
    }
}
