ghost use Rattle.std.specs.Prelude.{◌≡◌, [], IfErr, IfOk, None, OnOk};
ghost use Rattle.std.specs.Io.Buffered.{writer_buffer};
ghost use Rattle.cob_records.specs.Forms.{HasBlockSize};
ghost use Rattle.cob_records.specs.Streams.{sink_writer};
ghost use Rattle.cob_program_faults.specs.Texts.{StopsListing};
ghost use Rattle.cob_report_show.specs.Records.{IsShowFault};
ghost use Rattle.cob_program_faults.specs.Ends.{EndsAmong, EndsAs, status_of_outcome};
ghost use Rattle.cob_program_list.specs.Ends.{MayEndListing};
ghost use Rattle.cob_program_list.specs.Listed.{ListsChosen, ListsFrom, ListsOver, Lists, is_for_programs, listed_records, show_fault_told, told_counted_behind};

use crate::copybook::{Listed, read_record_book};
use cob_convert::Status;
use cob_convert_stream::RunFault;
use cob_program_ends::{WantedRecords, open_records, with_cause};
use cob_program_faults::{CommandFault, printed, tell_fault, tell_uneven, telling};
use cob_program_line::{Listing, ShowLine};
use cob_records::{DeviceFault, Form, Progress, Sink, Source, Telling, WriteSink, create_sink};
use cob_records_parts::{Choice, Chosen, Incoming, Stopped};
use cob_report_formats::{show_csv, show_json};
use cob_report_show::{ShowFault, show};
use std::alloc::Global;
use std::io::{BufWriter, Eprint, Input, Print, Write};
use std::rt::{Clock, Files};

/// What a listing of records comes to, in the form that is asked for.
fn listed_as<S: Source, K: Sink>(
    alloc: Global,
    listed: &Listed,
    form: Form,
    listing: Listing,
    source: &mut S,
    sink: &mut K,
) -> Result<u64, ShowFault>
    requires listed { listed.now.book ≡ listed.now.layout }
    requires block { HasBlockSize form }
    ensures shows { listing ≡ Listing.Text → Lists form listed.now.layout result
        (S.coming source.old) (S.coming source.new) (K.taken sink.old) (K.taken sink.new) }
    ensures fault { listing ≡ Listing.Text → IfErr result IsShowFault }
{
    let Listed { book, layout } = listed;
    match listing {
        Listing::Text => show(alloc, book, layout, form, source, sink),
        Listing::Json => show_json(alloc, layout, form, source, sink),
        Listing::Csv => show_csv(alloc, book, layout, form, source, sink),
    }
}

/// The fault of a listing of chosen records: where a read failed because a frame can't be read, that is why.
fn caused_by(stop: Option<Stopped>, fault: ShowFault) -> ShowFault
    ensures { result ≡ show_fault_told stop fault }
{
    match fault {
        ShowFault::Run(fault) => ShowFault::Run(with_cause(stop, fault)),
        ShowFault::Memory => ShowFault::Memory,
    }
}

/// What a listing of records comes to, which tells on standard error how far it is where that is asked for.
fn shown<R: AllocGlobal + Eprint + Clock, S: Source + Drop, K: Sink>(
    rt: &R,
    listed: &Listed,
    form: Form,
    listing: Listing,
    telling: Option<Telling>,
    mut source: S,
    sink: &mut K,
) -> Result<u64, ShowFault>
    requires listed { listed.now.book ≡ listed.now.layout }
    requires block { HasBlockSize form }
    ensures shows { listing ≡ Listing.Text → ListsFrom form listed.now.layout result
        (S.coming source) (K.taken sink.old) (K.taken sink.new) }
    ensures fault { listing ≡ Listing.Text → IfErr result IsShowFault }
{
    match telling {
        None => listed_as(rt.alloc(), listed, form, listing, &mut source, sink),
        Some(telling) => {
            let greatest = listed.layout.greatest();
            let mut told = Progress::new(source, rt, form, greatest, telling);
            let answer = listed_as(rt.alloc(), listed, form, listing, &mut told, sink);
            told.finish();
            answer
        }
    }
}

/// What a listing of chosen records comes to. Where one of these can't be read, that is why it stops.
fn shown_chosen<R: AllocGlobal + Eprint + Clock, S: Source + Drop, K: Sink>(
    rt: &R,
    listed: &Listed,
    form: Form,
    listing: Listing,
    telling: Option<Telling>,
    mut chosen: Chosen<S>,
    sink: &mut K,
) -> Result<u64, ShowFault>
    requires listed { listed.now.book ≡ listed.now.layout }
    requires block { HasBlockSize form }
    ensures shows { listing ≡ Listing.Text → ListsChosen S.coming form listed.now.layout result
        chosen (K.taken sink.old) (K.taken sink.new) }
{
    match shown(rt, listed, form, listing, telling, &mut chosen, sink) {
        Ok(done) => Ok(done),
        Err(fault) => Err(caused_by(chosen.stopped(), fault)),
    }
}

/// What a listing of all records that come comes to, or of those that are chosen.
fn shown_over<R: AllocGlobal + Eprint + Clock, S: Source + Drop, K: Sink>(
    rt: &R,
    listed: &Listed,
    form: Form,
    listing: Listing,
    telling: Option<Telling>,
    incoming: Incoming<S>,
    sink: &mut K,
) -> Result<u64, ShowFault>
    requires listed { listed.now.book ≡ listed.now.layout }
    requires block { HasBlockSize form }
    ensures shows { listing ≡ Listing.Text → ListsOver S.coming form listed.now.layout result
        incoming (K.taken sink.old) (K.taken sink.new) }
{
    match incoming {
        Incoming::All(source) => shown(rt, listed, form, listing, telling, source, sink),
        Incoming::Some(chosen) => shown_chosen(rt, listed, form, listing, telling, chosen, sink),
    }
}

/// Lists records, and hands all of the list to the device, whatever the listing came to.
fn show_to_end<R: AllocGlobal + Eprint + Clock, S: Source + Drop, W: Write + Drop>(
    rt: &R,
    listed: &Listed,
    form: Form,
    listing: Listing,
    telling: Option<Telling>,
    incoming: Incoming<S>,
    sink: &mut WriteSink<BufWriter<W>>,
) -> Result<Result<u64, ShowFault>, DeviceFault>
    requires listed { listed.now.book ≡ listed.now.layout }
    requires block { HasBlockSize form }
    // What was listed; what a device took is not told.
    ensures shows { listing ≡ Listing.Text → IfOk result (λ answer.
        ListsOver S.coming form listed.now.layout answer incoming None None) }
    ensures flushed { OnOk result (writer_buffer (sink_writer sink.new) ≡ []) }
{
    let answer = shown_over(rt, listed, form, listing, telling, incoming, sink);
    sink.flush()?;
    Ok(answer)
}

/// What a listing of records comes to that was handed to the device, or was not.
fn listed(handed: Result<Result<u64, ShowFault>, DeviceFault>) -> Result<u64, CommandFault>
    ensures listed { result ≡ listed_records handed }
    ensures stops { IfErr result StopsListing }
{
    match handed {
        Ok(answer) => Ok(answer?),
        Err(DeviceFault) => Err(CommandFault::Unprinted),
    }
}

/// What a listing comes to, its records counted behind so many that are passed over.
fn counted_behind(skip: u64, outcome: Result<u64, CommandFault>) -> Result<u64, CommandFault>
    ensures counted { result ≡ told_counted_behind skip outcome }
    ensures stops { IfErr outcome StopsListing → IfErr result StopsListing }
{
    match outcome {
        Err(CommandFault::Stopped(stopped)) => Err(CommandFault::Stopped(RunFault {
            number: stopped.number.saturating_add(skip),
            ..stopped
        })),
        other => other,
    }
}

/// Which records a listing chooses of its file.
fn choice_of(line: &ShowLine<'_>) -> Choice
    ensures skip { result.skip ≡ line.now.skip }
    ensures records { result.records ≡ line.now.records }
{
    Choice {
        skip: line.skip,
        records: line.records,
    }
}

/// Which records a listing reads, of at most this length.
fn wanted_by<'a>(line: &ShowLine<'a>, greatest: u16) -> WantedRecords<'a>
    ensures form { result.form ≡ line.now.form }
    ensures greatest { result.greatest ≡ greatest }
    ensures from { result.from ≡ 0 }
    ensures bytes { result.bytes ≡ None }
    ensures first { result.first ≡ 1 }
    ensures skip { result.choice.skip ≡ line.now.skip }
    ensures records { result.choice.records ≡ line.now.records }
{
    WantedRecords {
        input: line.input,
        form: line.form,
        greatest,
        from: 0,
        bytes: None,
        first: 1,
        choice: choice_of(line),
    }
}

/// How a listing tells how far it is, where that is asked for. How many bytes the chosen records have isn't known.
fn telling_chosen<R: Files>(rt: &R, line: &ShowLine<'_>) -> Option<Telling> {
    let telling = telling(rt, line.input, line.progress)?;
    if choice_of(line).is_all() {
        Some(telling)
    } else {
        Some(Telling {
            size: None,
            ..telling
        })
    }
}

/// Prints the values of the records of the file that `--in` names by this copybook on standard output, and answers how many records there were.
///
/// # Errors
///
/// A file that is not opened, a record that stops the listing, a line that is not printed, want of memory. The lines of the records before it are
/// printed.
fn list_by<R: AllocGlobal + Files + Input + Print + Eprint + Clock>(
    rt: &R,
    line: &ShowLine<'_>,
    book: &Listed,
) -> Result<u64, CommandFault>
    requires listed { book.now.book ≡ book.now.layout }
    requires block { HasBlockSize line.now.form }
    ensures { IfErr result MayEndListing }
{
    let greatest = book.layout.greatest();
    let incoming = open_records(rt, wanted_by(line, greatest))?;
    let Ok(mut sink) = create_sink(rt, "-") else {
        return Err(CommandFault::Memory);
    };
    tell_uneven(rt, line.input, line.form, greatest, 0, None);
    let telling = telling_chosen(rt, line);
    let (form, listing) = (line.form, line.listing);
    let handed = show_to_end(rt, book, form, listing, telling, incoming, &mut sink);
    counted_behind(line.skip, listed(handed))
}

/// Prints the values of the records of the file that `--in` names on standard output, and answers how many records there were.
///
/// # Errors
///
/// A file that is not opened or not read, a copybook that is refused, a record that stops the listing, a line that is not printed, want of
/// memory. The lines of the records before it are printed.
pub fn list_records<R: AllocGlobal + Files + Input + Print + Eprint + Clock>(
    rt: &R,
    line: &ShowLine<'_>,
) -> Result<u64, CommandFault>
    requires { HasBlockSize line.now.form }
    ensures { IfErr result MayEndListing }
{
    match read_record_book(rt, line.book, line.form, line.lrecl) {
        Ok(book) => list_by(rt, line, &book),
        Err(fault) => Err(fault),
    }
}

/// Whether a listing is for programs, which would read the number of records as one of them.
fn is_for_programs(listing: Listing) -> bool
    ensures { result ≡ is_for_programs listing }
{
    matches!(listing, Listing::Json | Listing::Csv)
}

/// Prints how many records were listed, on standard error where the listing is for programs, or the fault of the listing, and answers how it ends.
pub fn tell_shown<R: Print + Eprint>(
    rt: &R,
    listing: Listing,
    outcome: Result<u64, CommandFault>,
) -> Status
    ensures { EndsAs (status_of_outcome outcome) result }
{
    match outcome {
        Ok(done) if is_for_programs(listing) => {
            printed(eprintln!(rt; "done {done}"), Status::Done)
        }
        Ok(done) => printed(println!(rt; "done {done}"), Status::Done),
        Err(fault) => tell_fault(rt, fault),
    }
}

/// Lists the values of records, prints how many there were or what is at fault, and answers how the program ends.
pub fn do_show<R: AllocGlobal + Files + Input + Print + Eprint + Clock>(
    rt: &R,
    line: &ShowLine<'_>,
) -> Status
    requires { HasBlockSize line.now.form }
    ensures { EndsAmong MayEndListing result }
{
    tell_shown(rt, line.listing, list_records(rt, line))
}
