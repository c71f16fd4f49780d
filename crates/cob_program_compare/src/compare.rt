//! The comparison of two files.

ghost use Rattle.std.specs.Prelude.{◌≡◌, ◌≤◌, [], length, map, None, IfOk, OnOk};
ghost use Rattle.std.specs.Io.Buffered.{writer_buffer};
ghost use Rattle.cob_records.specs.Forms.{HasBlockSize};
ghost use Rattle.cob_records.specs.Streams.{sink_writer};
ghost use Rattle.cob_report_show.specs.Elements.{named_in, named_item};
ghost use Rattle.cob_report_compare.specs.Keys.{AreKeyItems, most_keys};
ghost use Rattle.cob_report_compare.specs.Runs.{ComparesFiles, files_of};
ghost use Rattle.cob_program_compare.specs.Ends.{EndsCompare, comparison_fault, comparison_outcome, stop_by};

use crate::ends::end_of;
use crate::fault::ComparisonFault;
use crate::key::key_of;
use crate::names::entries_named;
use cob_convert::Status;
use cob_convert_stream::Cause;
use cob_layout::{Book, Layout, Role};
use cob_program_faults::{CommandFault, FileName, text_of};
use cob_program_line::{CompareLine, Measure};
use cob_records::{
    DeviceFault, OpenFault, RecordFault, Sink, Source, WriteSink, create_sink, open_source,
};
use cob_report_compare::{
    CompareFault, CompareOptions, CompareStop, FileSide, PairCounts, StopReason, compare_files,
};
use cob_report_show::{ListedItem, items_of};
use std::alloc::Global;
use std::io::{BufWriter, Eprint, Input, Print, Write};
use std::rt::Files;

/// Compares the records of two files, and hands all that is printed to the device, whatever the comparison came to.
fn compare_to_end<L: Source, R: Source, W: Write + Drop>(
    alloc: Global,
    layout: &Layout,
    options: CompareOptions,
    left: &mut L,
    right: &mut R,
    sink: &mut WriteSink<BufWriter<W>>,
) -> Result<Result<PairCounts, CompareFault>, DeviceFault>
    requires left_block { HasBlockSize options.left_form }
    requires right_block { HasBlockSize options.right_form }
    requires keys { AreKeyItems layout.now (map named_item options.keys.now) }
    requires few { length options.keys.now ≤ most_keys }
    // What was compared; what a device took is not told.
    ensures compares { IfOk result (λ answer. ComparesFiles (files_of layout.now options.entry)
        (L.coming left.old) (L.coming left.new) (R.coming right.old) (R.coming right.new)
        None None answer) }
    ensures flushed { OnOk result (writer_buffer (sink_writer sink.new) ≡ []) }
{
    let answer = compare_files(alloc, layout, options, left, right, sink);
    sink.flush()?;
    Ok(answer)
}

/// The fault of a record that stops a comparison for this cause: a line that is not printed is told by no other.
fn stop_by(cause: Cause, stop: CompareStop) -> ComparisonFault
    ensures { result ≡ stop_by cause stop }
{
    match cause {
        Cause::Record(RecordFault::WriteFailed { .. } | RecordFault::TookNothing { .. }) => {
            ComparisonFault::Command(CommandFault::Unprinted)
        }
        _ => ComparisonFault::Stopped(stop),
    }
}

/// The fault of a comparison.
fn fault_of(fault: CompareFault) -> ComparisonFault
    ensures { result ≡ comparison_fault fault }
{
    match fault {
        CompareFault::Memory => ComparisonFault::Command(CommandFault::Memory),
        CompareFault::Uncounted => ComparisonFault::Command(CommandFault::Unprinted),
        CompareFault::Stop(stop) => match stop.reason {
            StopReason::Record(reason) => stop_by(reason.cause, stop),
            StopReason::NoNumber { .. } => ComparisonFault::Stopped(stop),
            StopReason::Order { .. } => ComparisonFault::Stopped(stop),
        },
    }
}

/// What a comparison comes to whose lines were handed to the device, or were not.
fn outcome_of(
    handed: Result<Result<PairCounts, CompareFault>, DeviceFault>,
) -> Result<PairCounts, ComparisonFault>
    ensures { result ≡ comparison_outcome handed }
{
    match handed {
        Ok(Ok(counts)) => Ok(counts),
        Ok(Err(fault)) => Err(fault_of(fault)),
        Err(DeviceFault) => Err(ComparisonFault::Command(CommandFault::Unprinted)),
    }
}

/// The fault of a file that is not opened.
fn unopened(fault: OpenFault, side: FileSide) -> ComparisonFault {
    match fault {
        OpenFault::NotOpened => ComparisonFault::CannotOpen(side),
        OpenFault::Memory => ComparisonFault::Command(CommandFault::Memory),
    }
}

/// How the files of this line are compared, where these entries are ignored, and the key has these items.
fn options_of<'a>(
    line: &CompareLine<'_>,
    ignored: &'a [usize],
    keys: &'a [ListedItem],
) -> CompareOptions<'a>
    ensures left { result.left_form ≡ line.now.left_form }
    ensures right { result.right_form ≡ line.now.right_form }
    ensures keys { result.keys.now ≡ keys.now }
{
    CompareOptions {
        ignored,
        keys,
        by_bytes: line.measure == Measure::Bytes,
        most: line.most.unwrap_or(u64::MAX),
        left_form: line.left_form,
        right_form: line.right_form,
    }
}

/// The records of a copybook: their layout, and their named items.
#[derive(Drop)]
struct Described {
    layout: Layout,
    named: Vec<ListedItem>,
}

/// The records of a copybook.
fn described_in(alloc: Global, book: &Book) -> Result<Described, CommandFault>
    ensures { IfOk result (λ described. map named_item described.named.items ≡ named_in [] described.layout) }
{
    let layout = Layout::of(alloc, book)?;
    match items_of(alloc, book) {
        Ok(named) => Ok(Described { layout, named }),
        Err(full) => Err(CommandFault::from(full)),
    }
}

/// The records of the copybook that this text is.
fn described_by(alloc: Global, text: &[u8]) -> Result<Described, CommandFault>
    ensures { IfOk result (λ described. map named_item described.named.items ≡ named_in [] described.layout) }
{
    match Book::read(alloc, Role::In, text) {
        Ok(book) => described_in(alloc, &book),
        Err(fault) => Err(CommandFault::from(fault)),
    }
}

/// Compares the records of two sources, and prints what differs.
fn compare_sources<P: AllocGlobal + Files + Print, L: Source, R: Source>(
    rt: &P,
    layout: &Layout,
    options: CompareOptions<'_>,
    left: &mut L,
    right: &mut R,
) -> Result<PairCounts, ComparisonFault>
    requires left_block { HasBlockSize options.left_form }
    requires right_block { HasBlockSize options.right_form }
    requires keys { AreKeyItems layout.now (map named_item options.keys.now) }
    requires few { length options.keys.now ≤ most_keys }
{
    match create_sink(rt, "-") {
        Ok(mut sink) => outcome_of(compare_to_end(
            rt.alloc(),
            layout,
            options,
            left,
            right,
            &mut sink,
        )),
        Err(_) => Err(ComparisonFault::Command(CommandFault::Memory)),
    }
}

/// Compares the records of a source with those of the file that `--right` names, and prints what differs.
fn compare_with_right<P: AllocGlobal + Files + Input + Print, L: Source>(
    rt: &P,
    path: &str,
    layout: &Layout,
    options: CompareOptions<'_>,
    left: &mut L,
) -> Result<PairCounts, ComparisonFault>
    requires left_block { HasBlockSize options.left_form }
    requires right_block { HasBlockSize options.right_form }
    requires keys { AreKeyItems layout.now (map named_item options.keys.now) }
    requires few { length options.keys.now ≤ most_keys }
{
    match open_source(rt, path) {
        Ok(mut right) => compare_sources(rt, layout, options, left, &mut right),
        Err(fault) => Err(unopened(fault, FileSide::Right)),
    }
}

/// Compares the files that `--left` and `--right` name, of records of this layout and with a key of these items, prints what differs, and answers how many
/// pairs of records there are of each kind.
fn compare_by<R: AllocGlobal + Files + Input + Print + Eprint>(
    rt: &R,
    line: &CompareLine<'_>,
    layout: &Layout,
    keys: &[ListedItem],
    ignored: &[usize],
) -> Result<PairCounts, ComparisonFault>
    requires left_block { HasBlockSize line.now.left_form }
    requires right_block { HasBlockSize line.now.right_form }
    requires keys { AreKeyItems layout.now (map named_item keys.now) }
    requires few { length keys.now ≤ most_keys }
{
    let options = options_of(line, ignored, keys);
    match open_source(rt, line.left) {
        Ok(mut left) => compare_with_right(rt, line.right, layout, options, &mut left),
        Err(fault) => Err(unopened(fault, FileSide::Left)),
    }
}

/// Compares the files that a line names, of these records, prints what differs, and answers how many pairs of records there are of each kind.
fn compare_described<R: AllocGlobal + Files + Input + Print + Eprint>(
    rt: &R,
    line: &CompareLine<'_>,
    described: &Described,
) -> Result<PairCounts, ComparisonFault>
    requires left_block { HasBlockSize line.now.left_form }
    requires right_block { HasBlockSize line.now.right_form }
    requires named { map named_item described.now.named.items ≡ named_in [] described.now.layout }
{
    let layout = &described.layout;
    let keys = key_of(rt.alloc(), layout, &described.named, line.key)?;
    match entries_named(rt.alloc(), layout, line.ignored)? {
        Ok(ignored) => compare_by(rt, line, layout, &keys, &ignored),
        Err(rule) => Err(ComparisonFault::Ignore(rule)),
    }
}

/// Compares the files that a line names, prints what differs, and answers how many pairs of records there are of each kind.
///
/// # Errors
///
/// Two names of standard input; a file that is not opened or not read, a copybook that is refused, names that name no entry alone or no item of a key, a
/// record that stops the comparison, a line that is not printed, want of memory.
pub fn compare_records_of<R: AllocGlobal + Files + Input + Print + Eprint>(
    rt: &R,
    line: &CompareLine<'_>,
) -> Result<PairCounts, ComparisonFault>
    requires left_block { HasBlockSize line.now.left_form }
    requires right_block { HasBlockSize line.now.right_form }
{
    if line.left == "-" && line.right == "-" {
        return Err(ComparisonFault::OneStream);
    }
    let text = text_of(rt, line.book, FileName::Book)?;
    let described = described_by(rt.alloc(), &text)?;
    compare_described(rt, line, &described)
}

/// Compares the files that a line names, prints what differs or what is at fault, and answers how the program ends.
pub fn do_compare<R: AllocGlobal + Files + Input + Print + Eprint>(
    rt: &R,
    line: &CompareLine<'_>,
) -> Status
    requires left_block { HasBlockSize line.now.left_form }
    requires right_block { HasBlockSize line.now.right_form }
    ensures { EndsCompare result }
{
    end_of(rt, compare_records_of(rt, line))
}
