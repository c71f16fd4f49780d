//! A record by its number, what it becomes, and where the entries of both stand.

ghost use Rattle.std.specs.Prelude.{◌≡◌, ◌<◌, IfErr, IfOk, OnOk, length};
ghost use Rattle.cob_convert.specs.Run.{IsConverted};
ghost use Rattle.cob_convert_record.specs.Conversion.{in_length, out_length};
ghost use Rattle.cob_convert_record.specs.Rooms.{capacity_for};
ghost use Rattle.cob_records.specs.Device.{Told};
ghost use Rattle.cob_program_map.specs.Showing.{ArePlacesShown, FindsShown, FindsToShow, IsNotShown, IsShown};

use crate::record::{FoundRecord, converted_record};
use cob_convert_record::{Conversion, Room};
use cob_convert_stream::RunFault;
use cob_layout::{Counts, Layout};
use cob_records::Source;
use std::alloc::{AllocError, Global};

/// A record and what it becomes, with its number, and the places of both.
#[derive(Drop)]
pub struct Shown {
    /// Its number in its source, counted from 1.
    pub number: u64,
    /// Its bytes.
    pub input: Vec<u8>,
    /// The bytes of what it becomes.
    pub output: Vec<u8>,
    /// Where its entries stand.
    pub from: Counts,
    /// Where the entries of what it becomes stand.
    pub to: Counts,
}

/// Why no record is shown.
#[derive(Clone, Copy, PartialEq, Eq)]
pub enum NotShown {
    /// Memory was refused.
    Memory,
    /// The source has only so many records.
    Fewer(u64),
    /// A record up to the one with the number stops a run.
    Stops(RunFault),
}

impl From<AllocError> for NotShown {
    ghost use Rattle.std.specs.Prelude.{◌≡◌};
    ghost use Rattle.cob_program_map.specs.declared.shown.NotShown.TheVariants.{Memory};

    ghost from_gives = { λ _ why. why ≡ Memory };

    fn from(_: AllocError) -> NotShown {
        NotShown::Memory
    }
}

/// The places of a record that has these bytes. In form f its counts need not be valid: then each table has its greatest number of elements.
fn places_in(alloc: Global, layout: &Layout, bytes: &[u8]) -> Result<Counts, AllocError>
    ensures { IfOk result (ArePlacesShown layout.now bytes.now) }
{
    let mut places = layout.new_counts(alloc)?;
    match layout.counts_of(bytes, &mut places) {
        Ok(()) => Ok(places),
        Err(_) => layout.new_counts(alloc),
    }
}

/// The record with this number and what it becomes, with the places of both.
fn placed(
    alloc: Global,
    conversion: &Conversion,
    number: u64,
    input: Vec<u8>,
    output: Vec<u8>,
) -> Result<Shown, AllocError>
    requires { IsConverted conversion.now (input.items, output.items) }
    ensures shows { IfOk result (IsShown conversion.now number) }
    ensures same { IfOk result (λ shown. shown.input.items ≡ input.items) }
{
    let (from, to) = conversion.layouts();
    let from = places_in(alloc, from, &input)?;
    let to = places_in(alloc, to, &output)?;
    Ok(Shown {
        number,
        input,
        output,
        from,
        to,
    })
}

/// Reads the record with this number of a source, and makes of it what it becomes: both buffers then have no byte more.
///
/// # Errors
///
/// There are fewer records, or one up to it stops.
fn read_into<S: Source>(
    conversion: &Conversion,
    number: u64,
    input: &mut Vec<u8>,
    output: &mut Vec<u8>,
    room: &mut Room,
    source: &mut S,
) -> Result<(), NotShown>
    requires number { 0 < number }
    requires input { length input.old.items ≡ in_length conversion.now }
    requires output { length output.old.items ≡ out_length conversion.now }
    requires room { room.old ≡ capacity_for conversion.now.records }
    ensures converts { OnOk result
        (IsConverted conversion.now (input.new.items, output.new.items)) }
    ensures why { IfErr result (IsNotShown number) }
    ensures finds { Told (S.coming source.old) (S.coming source.new)
        (FindsToShow conversion.now number input.new.items result) }
{
    match converted_record(conversion, number, input, output, room, source) {
        Ok(FoundRecord::Record(lengths)) => {
            input.truncate(lengths.input);
            output.truncate(lengths.output);
            Ok(())
        }
        Ok(FoundRecord::Fewer(there)) => Err(NotShown::Fewer(there)),
        Err(fault) => Err(NotShown::Stops(fault)),
    }
}

/// A buffer of so many bytes.
fn buffer(alloc: Global, bytes: u16) -> Result<Vec<u8>, AllocError>
    ensures { IfOk result (λ buffer. length buffer.items ≡ bytes) }
{
    vec![in alloc; 0u8; usize::from(bytes)]
}

/// The record with this number of a source, which is read into these buffers, and what it becomes.
///
/// # Errors
///
/// There are fewer records, one up to it stops, want of memory.
fn shown_with<S: Source>(
    alloc: Global,
    conversion: &Conversion,
    number: u64,
    mut input: Vec<u8>,
    mut output: Vec<u8>,
    room: &mut Room,
    source: &mut S,
) -> Result<Shown, NotShown>
    requires number { 0 < number }
    requires input { length input.items ≡ in_length conversion.now }
    requires output { length output.items ≡ out_length conversion.now }
    requires room { room.old ≡ capacity_for conversion.now.records }
    ensures shows { IfOk result (IsShown conversion.now number) }
    ensures why { IfErr result (IsNotShown number) }
    ensures finds { Told (S.coming source.old) (S.coming source.new)
        (FindsShown conversion.now number result) }
{
    match read_into(conversion, number, &mut input, &mut output, room, source) {
        Ok(()) => Ok(placed(alloc, conversion, number, input, output)?),
        Err(why) => Err(why),
    }
}

/// The record with this number of a source, and what it becomes, with room for conversions.
///
/// # Errors
///
/// There are fewer records, one up to it stops, want of memory.
fn shown_in<S: Source>(
    alloc: Global,
    conversion: &Conversion,
    number: u64,
    room: &mut Room,
    source: &mut S,
) -> Result<Shown, NotShown>
    requires number { 0 < number }
    requires room { room.old ≡ capacity_for conversion.now.records }
    ensures shows { IfOk result (IsShown conversion.now number) }
    ensures why { IfErr result (IsNotShown number) }
    ensures finds { Told (S.coming source.old) (S.coming source.new)
        (FindsShown conversion.now number result) }
{
    let input = buffer(alloc, conversion.in_length())?;
    let output = buffer(alloc, conversion.out_length())?;
    shown_with(alloc, conversion, number, input, output, room, source)
}

/// Reads the record with this number of a source, counted from 1, and answers it with what it becomes and the places of both. Those before it are read by
/// their frames alone.
///
/// # Errors
///
/// There are fewer records; a frame that can't be read, a record that isn't one of the layout, the first move that stops, a count of the output that isn't
/// valid; want of memory.
pub fn shown_record<S: Source>(
    alloc: Global,
    conversion: &Conversion,
    number: u64,
    source: &mut S,
) -> Result<Shown, NotShown>
    requires { 0 < number }
    // It has this number, what stands beside it is what it becomes, and both stand in their places.
    ensures shows { IfOk result (IsShown conversion.now number) }
    ensures why { IfErr result (IsNotShown number) }
    // Where the source tells its bytes: it is the one with this number, or there are only so many, or one up to it stops.
    ensures finds { Told (S.coming source.old) (S.coming source.new)
        (FindsShown conversion.now number result) }
{
    let mut room = Room::new(alloc, conversion)?;
    shown_in(alloc, conversion, number, &mut room, source)
}
