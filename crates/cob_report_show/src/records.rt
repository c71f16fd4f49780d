//! The records of a file.

ghost use Rattle.std.specs.Prelude.{◌≡◌, ◌≤◌, [], length, map, take, IfErr, IfOk, IfSome, IsFalse, IsTrue, Err, is_err, true, false};
ghost use Rattle.cob_convert_stream.specs.Sizes.{IsFitting};
ghost use Rattle.cob_convert_stream.specs.Reasons.{is_error_cause, is_read_cause, is_refused_for, is_write_cause};
ghost use Rattle.cob_copybook_tree.specs.Lengths.{greatest_number, sum_of};
ghost use Rattle.cob_layout.specs.Standing.{AreSomePlaces, IsRoomFor};
ghost use Rattle.cob_layout.specs.Storage.{current_length, greatest_length};
ghost use Rattle.cob_report_show.specs.Elements.{named_item, named_in, printed_record};
ghost use Rattle.cob_report_show.specs.Lines.{SendsRecord, number_line};
ghost use Rattle.cob_report_show.specs.Runs.{IsLegible, ReadsNext, Shows, count_reason};
ghost use Rattle.cob_report_show.specs.Sent.{SendsText};
ghost use Rattle.cob_records.specs.Device.{counted, Told, Took};
ghost use Rattle.cob_records.specs.Forms.{HasBlockSize};
ghost use Rattle.cob_records.specs.Frame.{IsRecord, is_write_error, is_write_fault};
ghost use Rattle.cob_report_show.specs.Records.{stopped_by, HoldsAny, HoldsRecord, IsStop, IsShowFault};
ghost use Rattle.cob_report_show.specs.declared.records.ShowFault.TheVariants.{Memory, Run};
ghost use Rattle.cob_move_data.specs.declared.operands.Side.TheVariants.{In};
ghost use Rattle.cob_convert_stream.specs.declared.fault.Cause.TheVariants.{Limit};

use crate::elements::{Contents, put_items};
use crate::named::{ListedItem, named_items};
use crate::text::{ListingLine, push_text, put};
use cob_convert_stream::{Cause, Reason, RunFault, Side, is_fitting};
use cob_layout::{Book, CountFault, Counts, Layout, places_end_in_length, records_are_sound};
use cob_records::{Form, RecordFault, Sink, Source, next_in_form};
use itoa::Buffer;
use std::alloc::{AllocError, Global};

/// Why not all records were shown.
#[derive(Clone, Copy, PartialEq, Eq)]
pub enum ShowFault {
    /// Memory was refused, before a record was read.
    Memory,
    /// A record stopped it.
    Run(RunFault),
}

impl From<AllocError> for ShowFault {
    ghost from_gives = { λ _ fault. fault ≡ Memory };

    fn from(_: AllocError) -> ShowFault {
        ShowFault::Memory
    }
}

/// How many records are shown at most.
pub const LIMIT: u64 = u64::MAX - 1;

/// What the records are that are shown.
#[derive(Clone, Copy)]
struct ShownAs<'a> {
    layout: &'a Layout,
    /// Their named elementary items.
    items: &'a [ListedItem],
    /// How they stand in their stream.
    form: Form,
}

/// The reason of a count that isn't valid, or whose item ends past the record.
fn count_reason(fault: CountFault) -> Reason
    ensures value { result ≡ count_reason fault }
    ensures stop { IsStop result.offset result.cause }
    ensures read { is_read_cause result.cause ≡ false }
    ensures wrote { is_write_cause result.cause ≡ false }
    ensures errors { is_error_cause result.cause ≡ false }
{
    if fault.short {
        return Reason::of_frame(RecordFault::Length);
    }
    Reason {
        side: Side::In,
        offset: fault.offset,
        cause: Cause::Count,
    }
}

/// Whether a record that came whole has the length that its counts say.
fn fits_counts(layout: &Layout, form: Form, places: &Counts, count: usize) -> bool
    requires stands { AreSomePlaces layout.now places.now }
    ensures must { IsTrue result
        → IsFitting form (current_length places.now.counts layout.now) count }
    ensures only { IsFalse result
        → IsFitting form (current_length places.now.counts layout.now) count → ⊥ }
{
    is_fitting(form, layout.length_in(places), count)
}

/// Reads the next record and its places, and says how many bytes it has, where there was one. It is as long as its counts say, and in form f
/// as at most. `left` is what the open block still holds.
pub fn read_record<R: Source>(
    layout: &Layout,
    form: Form,
    source: &mut R,
    bytes: &mut [u8],
    left: &mut u16,
    places: &mut Counts,
) -> Result<Option<usize>, Reason>
    requires block { HasBlockSize form }
    requires bytes { length bytes.old ≡ sum_of greatest_number layout.now }
    requires room { IsRoomFor layout.now places.old }
    ensures room { IsRoomFor layout.now places.new }
    ensures record { IfOk result (HoldsAny layout.now places.new bytes.new) }
    ensures whole { IfOk result (λ found. IfSome found
        (λ count. IsRecord form (greatest_length layout.now) (take count bytes.new))) }
    ensures legible { IfOk result (λ found. IfSome found
        (λ count. IsLegible form layout.now (take count bytes.new) places.new)) }
    ensures next { Told (R.coming source.old) (R.coming source.new)
        (ReadsNext form layout.now left.old bytes.new result left.new) }
    ensures stop { IfErr result (λ why. IsStop why.offset why.cause) }
    ensures wrote { IfErr result (λ why. is_write_cause why.cause ≡ false) }
    ensures errors { IfErr result (λ why. is_error_cause why.cause ≡ false) }
    ensures reads { R.failures source.new ≡ counted
        (is_refused_for is_read_cause result) (R.failures source.old) }
{
    let count = match next_in_form(source, form, layout.greatest(), bytes, left) {
        Ok(None) => return Ok(None),
        Ok(Some(count)) => count,
        Err(fault) => return Err(Reason::of_frame(fault)),
    };
    if let Err(fault) = layout.counts_of(&bytes[..count], places) {
        return Err(count_reason(fault));
    }
    if !fits_counts(layout, form, places, count) {
        return Err(Reason::of_frame(RecordFault::Length));
    }
    Ok(Some(count))
}

/// Writes the line with the number of a record.
fn put_record_number<W: Sink>(sink: &mut W, sent: &mut u64, number: u64) -> Result<(), RecordFault>
    ensures lines { Took (W.taken sink.old) (W.taken sink.new)
        (SendsText (number_line number) sent.old sent.new result) }
    ensures kind { IfErr result (λ fault. is_write_fault fault ≡ true) }
    ensures cause { W.failures sink.new ≡ counted (is_err result) (W.failures sink.old) }
    ensures errors { W.errors sink.new ≡ counted (is_write_error result) (W.errors sink.old) }
{
    let mut buffer = Buffer::new();
    let mut line = ListingLine::new();
    push_text(&mut line, b"record ");
    push_text(&mut line, buffer.format(number).as_bytes());
    line.push(b'\n');
    put(sink, sent, line.as_slice())
}

/// Writes the lines of a record, the one with its number first.
fn put_lines<W: Sink>(
    sink: &mut W,
    sent: &mut u64,
    number: u64,
    contents: Contents,
    items: &[ListedItem],
) -> Result<(), RecordFault>
    requires items { map named_item items.now ≡ named_in [] contents.layout.now }
    requires record { HoldsRecord contents.layout.now contents.places.now
        (length contents.bytes.now) }
    ensures lines { Took (W.taken sink.old) (W.taken sink.new)
        (SendsRecord (printed_record contents.entry) number sent.old sent.new result) }
    ensures kind { IfErr result (λ fault. is_write_fault fault ≡ true) }
    ensures cause { W.failures sink.new ≡ counted (is_err result) (W.failures sink.old) }
    ensures errors { W.errors sink.new ≡ counted (is_write_error result) (W.errors sink.old) }
{
    records_are_sound();
    places_end_in_length();
    let _ = contents.layout.greatest();
    put_record_number(sink, sent, number)?;
    put_items(sink, sent, contents, items)
}

/// The reason of records that are more than are shown.
pub fn limit_reason() -> Reason
    ensures { result ≡ record { side = In; offset = 0; cause = Limit } }
{
    Reason {
        side: Side::In,
        offset: 0,
        cause: Cause::Limit,
    }
}

/// The fault of a record that stopped it, for this reason.
pub fn stop_at(number: u64, reason: Reason, written: u64) -> ShowFault
    ensures { result ≡ Run record {
      number = number;
      side = reason.side;
      offset = reason.offset;
      cause = reason.cause;
      written = written;
    } }
{
    ShowFault::Run(reason.at(number, written))
}

/// Shows the records of a source, one after another, up to its end or the first stop.
fn show_records<R: Source, W: Sink>(
    shown: ShownAs,
    bytes: &mut [u8],
    places: &mut Counts,
    source: &mut R,
    sink: &mut W,
) -> Result<u64, ShowFault>
    requires block { HasBlockSize shown.form }
    requires items { map named_item shown.items.now ≡ named_in [] shown.layout.now }
    requires bytes { length bytes.old ≡ sum_of greatest_number shown.layout.now }
    requires room { IsRoomFor shown.layout.now places.old }
    ensures shows { Told (R.coming source.old) (R.coming source.new) (Shows
        shown.entry.form shown.entry.layout.now result (W.taken sink.old) (W.taken sink.new)) }
    ensures fault { IfErr result IsShowFault }
    ensures record { result ≡ Err Memory → ⊥ }
    ensures reads { R.failures source.new ≡ counted
        (stopped_by is_read_cause result) (R.failures source.old) }
    ensures writes { W.failures sink.new ≡ counted
        (stopped_by is_write_cause result) (W.failures sink.old) }
    ensures errors { W.errors sink.new ≡ counted
        (stopped_by is_error_cause result) (W.errors sink.old) }
{
    let mut written: u64 = 0;
    let mut left: u16 = 0;
    for done in 0..LIMIT {
        let count = match read_record(shown.layout, shown.form, source, bytes, &mut left, places) {
            Ok(None) => return Ok(done),
            Ok(Some(count)) => count,
            Err(reason) => return Err(stop_at(done + 1, reason, written)),
        };
        let contents = Contents {
            layout: shown.layout,
            places,
            bytes: &bytes[..count],
        };
        if let Err(fault) = put_lines(sink, &mut written, done + 1, contents, shown.items) {
            return Err(stop_at(done + 1, Reason::of_write(fault), written));
        }
    }
    Err(stop_at(LIMIT + 1, limit_reason(), written))
}

/// The named elementary items of a book.
///
/// # Errors
///
/// Where no memory is left.
pub fn items_of(alloc: Global, book: &Book) -> Result<Vec<ListedItem>, AllocError>
    ensures { IfOk result (λ items. map named_item items.items ≡ named_in [] book.now) }
{
    records_are_sound();
    named_items(alloc, book.root())
}

/// Reads records, and writes for each a line with its number, and then a line for each element of each named elementary item, in
/// the order of the entries, the last subscript the fastest: its name with its subscripts, its offset and its value. The answer is
/// the number of records. The layout has to be that of the book. What was written may wait in the sink: the caller flushes it.
///
/// A value is a number as text, or `?` and the bytes in hexadecimal digits where they represent no number; or it is characters in
/// quotation marks, where a byte that has no character, or is a quotation mark or a backslash, is `\x` and its two digits.
///
/// # Errors
///
/// [`ShowFault::Run`] for the first record that can't be read, whose counts are not all valid, or whose lines can't be written, with
/// the bytes that the sink took; of a record of the first two kinds nothing is written. [`ShowFault::Memory`].
pub fn show<R: Source, W: Sink>(
    alloc: Global,
    book: &Book,
    layout: &Layout,
    form: Form,
    source: &mut R,
    sink: &mut W,
) -> Result<u64, ShowFault>
    requires book { book.now ≡ layout.now }
    requires block { HasBlockSize form }
    // What came, what was written of it, and how it ended, where the source tells its bytes.
    ensures shows { Told (R.coming source.old) (R.coming source.new)
        (Shows form layout.now result (W.taken sink.old) (W.taken sink.new)) }
    // A stop names a record, and is one of a count, of a frame, or of the number of records.
    ensures fault { IfErr result IsShowFault }
    // Where memory is refused nothing was read or written.
    ensures memory { result ≡ Err Memory
        → (R.coming source.new ≡ R.coming source.old) × (W.taken sink.new ≡ W.taken sink.old) }
    // A read failed, a write failed or took nothing, and a write failed, exactly where the answer says so.
    ensures reads { R.failures source.new ≡ counted
        (stopped_by is_read_cause result) (R.failures source.old) }
    ensures writes { W.failures sink.new ≡ counted
        (stopped_by is_write_cause result) (W.failures sink.old) }
    ensures errors { W.errors sink.new ≡ counted
        (stopped_by is_error_cause result) (W.errors sink.old) }
{
    let mut bytes = vec![in alloc; 0u8; usize::from(layout.greatest())]?;
    let mut places = layout.new_counts(alloc)?;
    let items = items_of(alloc, book)?;
    let shown = ShownAs {
        layout,
        items: &items,
        form,
    };
    show_records(shown, &mut bytes, &mut places, source, sink)
}
