//! Records as rows of CSV.

ghost use Rattle.std.specs.Prelude.{◌≡◌, ◌≤◌, ◌<◌, ◌+◌, length};
ghost use Rattle.cob_limits.specs.Limits.{most_dimensions};
ghost use Rattle.cob_records.specs.Forms.{HasBlockSize};

use crate::contents::{ReceivedRecord, times_at};
use crate::listing::{RecordLines, Unwritten, list, unshown};
use crate::outgoing::Outgoing;
use crate::values::{FormattedValue, shown_value};
use arrayvec::ArrayVec;
use cob_layout::{Item, Layout, Spot};
use cob_limits::MAX_SUBSCRIPTS;
use cob_records::{Form, Sink, Source};
use cob_report_show::{
    Book, ListedItem, ListingLine, ShowFault, digits_of, items_of, push_subscripts, push_text,
    shown_byte,
};
use csv::Writer;
use std::alloc::{AllocError, Global};

/// How many bytes the text of a cell may have before its room grows: four for each of the longest record.
const FIRST_ROOM: usize = 131_008;

/// Subscripts, those of the outermost table first.
type RowSubscripts = ArrayVec<u32, MAX_SUBSCRIPTS>;

/// The cells of rows that go to a sink.
type Cells<'a, W> = Writer<Outgoing<'a, W>>;

/// Why the last call of a writer failed.
fn failure<W: Sink>(cells: &Cells<'_, W>) -> Unwritten {
    match cells.get_ref().fault() {
        Some(fault) => Unwritten::Record(fault),
        None => Unwritten::Memory,
    }
}

/// Writes a cell with a text.
fn put_cell<W: Sink>(cells: &mut Cells<'_, W>, text: &[u8]) -> Result<(), Unwritten> {
    match cells.write_field(text) {
        Ok(()) => Ok(()),
        Err(_) => Err(failure(cells)),
    }
}

/// Ends a row, and hands it to the sink.
fn end_row<W: Sink>(cells: &mut Cells<'_, W>) -> Result<(), Unwritten> {
    if cells.end_record().is_err() || cells.flush().is_err() {
        return Err(failure(cells));
    }
    Ok(())
}

/// Puts the text of bytes that represent no number into a cell.
fn spell(text: &mut Vec<u8>, bytes: &[u8]) -> Result<(), AllocError> {
    text.push(b'?')?;
    for byte in bytes {
        text.extend_from_slice(digits_of(*byte).as_slice())?;
    }
    Ok(())
}

/// Puts the text of characters into a cell.
fn decode(text: &mut Vec<u8>, bytes: &[u8]) -> Result<(), AllocError> {
    for byte in bytes {
        text.extend_from_slice(shown_byte(*byte).as_slice())?;
    }
    Ok(())
}

/// Puts the value of an item of these bytes into a cell.
fn put_value(text: &mut Vec<u8>, item: &Item, bytes: &[u8]) -> Result<(), AllocError> {
    text.clear();
    match shown_value(item, bytes) {
        FormattedValue::Number(number) => text.extend_from_slice(number.as_slice()),
        FormattedValue::NoNumber => spell(text, bytes),
        FormattedValue::Characters => decode(text, bytes),
    }
}

/// These subscripts and a further one.
fn with_subscript(subscripts: &[u32], last: u32) -> RowSubscripts
    requires { length subscripts.now < most_dimensions }
    ensures { length result.items ≡ length subscripts.now + 1 }
{
    let mut all = ArrayVec::new();
    all.try_extend_from_slice(subscripts).unwrap();
    all.push(last);
    all
}

/// Writes the cell of an element's name with its subscripts.
fn put_name<W: Sink>(
    cells: &mut Cells<'_, W>,
    item: &ListedItem,
    subscripts: &[u32],
) -> Result<(), Unwritten>
    requires { length subscripts.now ≤ most_dimensions }
{
    let mut name = ListingLine::new();
    push_text(&mut name, item.name.as_bytes());
    push_subscripts(&mut name, subscripts);
    put_cell(cells, name.as_slice())
}

/// Writes the cells of the names of an item's elements, the last subscript the fastest: those under these subscripts, which are those of the tables
/// outside, and each one of the tables that are left.
fn put_names<W: Sink>(
    cells: &mut Cells<'_, W>,
    greatest: &[Spot],
    item: &ListedItem,
    tables: &[usize],
    subscripts: &[u32],
) -> Result<(), Unwritten>
    requires { length subscripts.now + length tables.now ≤ most_dimensions }
{
    let Some((table, inner)) = tables.split_first() else {
        return put_name(cells, item, subscripts);
    };
    for earlier in 0..times_at(greatest, *table) {
        let within = with_subscript(subscripts, earlier + 1);
        put_names(cells, greatest, item, inner, within.as_slice())?;
    }
    Ok(())
}

/// Writes the cells of elements that the record does not have: as many as the tables that are left have at most.
fn put_blanks<W: Sink>(
    cells: &mut Cells<'_, W>,
    greatest: &[Spot],
    tables: &[usize],
) -> Result<(), Unwritten> {
    let Some((table, inner)) = tables.split_first() else {
        return put_cell(cells, b"");
    };
    for _ in 0..times_at(greatest, *table) {
        put_blanks(cells, greatest, inner)?;
    }
    Ok(())
}

/// Writes the cells of the values of an item's elements, the last subscript the fastest: those in one element of each table outside, which stands so
/// many bytes behind the first, and in each one of the tables that are left. The room is for the text of a cell.
fn put_values<W: Sink>(
    cells: &mut Cells<'_, W>,
    room: &mut Vec<u8>,
    greatest: &[Spot],
    contents: ReceivedRecord,
    item: &ListedItem,
    tables: &[usize],
    behind: usize,
) -> Result<(), Unwritten> {
    let Some((table, inner)) = tables.split_first() else {
        put_value(room, &item.item, contents.field(item.number, behind))?;
        return put_cell(cells, room.as_slice());
    };
    let times = times_at(contents.spots, *table);
    for earlier in 0..times_at(greatest, *table) {
        if earlier < times {
            let next = contents.behind(behind, *table, earlier);
            put_values(cells, room, greatest, contents, item, inner, next)?;
        } else {
            put_blanks(cells, greatest, inner)?;
        }
    }
    Ok(())
}

/// Records as rows of CSV that go to a sink.
#[derive(Drop)]
struct Rows<'a, 'l, W: Sink> {
    cells: Cells<'a, W>,
    /// The text of a cell.
    room: Vec<u8>,
    /// The named elementary items of a record.
    items: Vec<ListedItem>,
    /// Where the entries stand where each table has its greatest number of elements.
    greatest: &'l [Spot],
}

impl<W: Sink> Rows<'_, '_, W> {
    /// Writes the row of the names.
    fn put_header(&mut self) -> Result<(), Unwritten> {
        for item in self.items.iter() {
            let tables = item.tables.as_slice();
            put_names(&mut self.cells, self.greatest, item, tables, &[])?;
        }
        end_row(&mut self.cells)
    }
}

impl<W: Sink> RecordLines for Rows<'_, '_, W> {
    fn put(&mut self, contents: ReceivedRecord<'_>) -> Result<(), Unwritten> {
        for item in self.items.iter() {
            let tables = item.tables.as_slice();
            put_values(
                &mut self.cells,
                &mut self.room,
                self.greatest,
                contents,
                item,
                tables,
                0,
            )?;
        }
        end_row(&mut self.cells)
    }

    fn sent(&self) -> u64 {
        self.cells.get_ref().sent()
    }
}

/// Writes the row of the names, and one for each record of a source.
fn list_rows<R: Source, W: Sink>(
    alloc: Global,
    layout: &Layout,
    form: Form,
    source: &mut R,
    rows: &mut Rows<'_, '_, W>,
) -> Result<u64, ShowFault>
    requires block { HasBlockSize form }
{
    if let Err(why) = rows.put_header() {
        return Err(unshown(1, why, rows.sent()));
    }
    list(alloc, layout, form, source, rows)
}

/// Reads records, and writes a row of CSV with the names of all elements, and for each record a row with their values. The answer is the number of
/// records. The layout has to be that of the book. What was written may wait in the sink: the caller flushes it.
///
/// A name stands with its subscripts, and a value stands, as [`show`](cob_report_show::show) prints them, in its order, but that characters have no
/// quotation marks round them. A table that varies has its greatest number of cells: those of elements that the record does not have are empty.
///
/// # Errors
///
/// [`ShowFault::Run`] for the first record that can't be read, whose counts are not all valid, or whose row can't be written, with the bytes that the
/// sink took, the row of the names being one of the first record; of a record of the first two kinds nothing is written. [`ShowFault::Memory`].
pub fn show_csv<R: Source, W: Sink>(
    alloc: Global,
    book: &Book,
    layout: &Layout,
    form: Form,
    source: &mut R,
    sink: &mut W,
) -> Result<u64, ShowFault>
    requires block { HasBlockSize form }
{
    let items = items_of(alloc, book)?;
    let room = Vec::with_capacity(alloc, FIRST_ROOM)?;
    let mut rows = Rows {
        cells: Writer::from_writer(Outgoing::new(sink)),
        room,
        items,
        greatest: layout.greatest_spots(),
    };
    list_rows(alloc, layout, form, source, &mut rows)
}
