//! Records as JSON objects.

ghost use Rattle.std.specs.Prelude.{◌≡◌, IfSome};
ghost use Rattle.cob_records.specs.Forms.{HasBlockSize};
ghost use Rattle.json.specs.Print.{IsNumber};

use crate::contents::{ReceivedRecord, times_at};
use crate::listing::{RecordLines, Unwritten, list};
use crate::members::{Content, members_of};
use crate::outgoing::put_text;
use crate::values::{FormattedValue, shown_value};
use cob_cp037::decode_byte;
use cob_layout::{Item, Layout};
use cob_records::{Form, Sink, Source};
use cob_report_show::{ShowFault, digits_of};
use json::{Writer, is_number};
use std::alloc::{AllocError, Global};
use std::{mem, str};

/// How many bytes a line may have before its room grows.
const FIRST_ROOM: usize = 65_536;

/// Puts the characters of bytes into a room, where each of them has one, and says whether.
fn decode(room: &mut String, bytes: &[u8]) -> Result<bool, AllocError> {
    room.clear();
    for byte in bytes {
        match decode_byte(*byte) {
            Some(character) => room.push(char::from(character))?,
            None => return Ok(false),
        }
    }
    Ok(true)
}

/// Puts the hexadecimal digits of bytes into a room.
fn spell(room: &mut String, bytes: &[u8]) -> Result<(), AllocError> {
    room.clear();
    for byte in bytes {
        let digits = digits_of(*byte);
        for digit in digits.as_slice() {
            room.push(char::from(*digit))?;
        }
    }
    Ok(())
}

/// Writes bytes that represent no value: an object with their hexadecimal digits.
fn put_bytes(out: &mut Writer, room: &mut String, bytes: &[u8]) -> Result<(), AllocError> {
    spell(room, bytes)?;
    out.begin_object()?;
    out.key("hex")?;
    out.string(room.as_str())?;
    out.end_object()
}

/// Writes characters, or bytes of which one has none.
fn put_characters(out: &mut Writer, room: &mut String, bytes: &[u8]) -> Result<(), AllocError> {
    if decode(room, bytes)? {
        out.string(room.as_str())
    } else {
        put_bytes(out, room, bytes)
    }
}

/// The text of a number, as JSON takes it.
fn number_of(text: &[u8]) -> Option<&str>
    ensures { IfSome result (λ number. IsNumber number.now) }
{
    match str::from_utf8(text) {
        Ok(number) if is_number(number) => Some(number),
        _ => None,
    }
}

/// Writes the value of an item of these bytes.
fn put_value(
    out: &mut Writer,
    room: &mut String,
    item: &Item,
    bytes: &[u8],
) -> Result<(), AllocError> {
    match shown_value(item, bytes) {
        FormattedValue::Number(text) => match number_of(text.as_slice()) {
            Some(number) => out.number(number),
            None => put_bytes(out, room, bytes),
        },
        FormattedValue::NoNumber => put_bytes(out, room, bytes),
        FormattedValue::Characters => put_characters(out, room, bytes),
    }
}

/// Writes what an element holds that stands so many bytes behind the first.
fn put_content(
    content: &Content,
    out: &mut Writer,
    room: &mut String,
    contents: ReceivedRecord,
    behind: usize,
) -> Result<(), AllocError> {
    match content {
        Content::Value { number, item } => {
            put_value(out, room, item, contents.field(*number, behind))
        }
        Content::Object(members) => {
            out.begin_object()?;
            for member in members.iter() {
                out.key(member.name.as_str())?;
                put_content(&member.content, out, room, contents, behind)?;
            }
            out.end_object()
        }
        Content::Array { table, element } => {
            out.begin_array()?;
            for earlier in 0..times_at(contents.spots, *table) {
                let next = contents.behind(behind, *table, earlier);
                put_content(element, out, room, contents, next)?;
            }
            out.end_array()
        }
    }
}

/// The line of a record, in the memory of the line before it.
fn line_of(
    line: Vec<u8>,
    record: &Content,
    room: &mut String,
    contents: ReceivedRecord,
) -> Result<Vec<u8>, AllocError> {
    let mut line = line;
    line.clear();
    let mut out = Writer::new(line);
    put_content(record, &mut out, room, contents, 0)?;
    let mut line = out.into_inner();
    line.push(b'\n')?;
    Ok(line)
}

/// Records as JSON objects, each on a line, that go to a sink.
#[derive(Drop)]
struct Objects<'a, W> {
    alloc: Global,
    sink: &'a mut W,
    sent: u64,
    /// The object of a record.
    record: Content,
    /// The line that was written last.
    line: Vec<u8>,
    /// The characters or the digits of a value.
    room: String,
}

impl<W: Sink> RecordLines for Objects<'_, W> {
    fn put(&mut self, contents: ReceivedRecord<'_>) -> Result<(), Unwritten> {
        let line = mem::replace(&mut self.line, Vec::new(self.alloc));
        self.line = line_of(line, &self.record, &mut self.room, contents)?;
        put_text(&mut *self.sink, &mut self.sent, self.line.as_slice())?;
        Ok(())
    }

    fn sent(&self) -> u64 {
        self.sent
    }
}

/// Reads records, and writes for each a line with a JSON object. The answer is the number of records. What was written may wait in the sink: the
/// caller flushes it.
///
/// The object holds the entries beneath the record, or the record itself where that is an item with a name. A group is an object, and a table an
/// array of as many elements as the record has. An entry without a name is left out: those beneath it that have one are members of the object around
/// it, each an array where that entry is a table. A redefinition is a member beside what it redefines. A number has all its digits; characters are
/// text; bytes that represent no value, and those of which one has no character, are an object with their hexadecimal digits as the member `hex`.
///
/// # Errors
///
/// [`ShowFault::Run`] for the first record that can't be read, whose counts are not all valid, or whose line can't be written, with the bytes that
/// the sink took; of a record of the first two kinds nothing is written. [`ShowFault::Memory`].
pub fn show_json<R: Source, W: Sink>(
    alloc: Global,
    layout: &Layout,
    form: Form,
    source: &mut R,
    sink: &mut W,
) -> Result<u64, ShowFault>
    requires block { HasBlockSize form }
{
    let members = members_of(alloc, layout.root())?;
    let line = Vec::with_capacity(alloc, FIRST_ROOM)?;
    let mut objects = Objects {
        alloc,
        sink,
        sent: 0,
        record: Content::Object(members),
        line,
        room: String::new(alloc),
    };
    list(alloc, layout, form, source, &mut objects)
}
