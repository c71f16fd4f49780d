//! What names the records that are told: their numbers, and their key.

ghost use Rattle.std.specs.Prelude.{◌≡◌, ◌≤◌, ◌<◌, ◌++◌, ◌∷◌, [], codes, length, map, is_err, true, IfErr, OnOk};
ghost use Rattle.cob_records.specs.Device.{counted, Took};
ghost use Rattle.cob_records.specs.Frame.{is_write_fault};
ghost use Rattle.cob_report_show.specs.Elements.{named_item};
ghost use Rattle.cob_report_compare.specs.Headings.{IsPlainHeading, heading_numbers, heading_text};
ghost use Rattle.cob_report_compare.specs.Keys.{key_size};
ghost use Rattle.cob_report_compare.specs.Lines.{AreKeysShown, number_text, numbers_text};

use crate::files::FileSide;
use crate::lines::{put_text, put_value};
use cob_records::{RecordFault, Sink};
use cob_report_show::{ListedItem, ListingLine, push_text};
use itoa::Buffer;

/// The numbers of the records that are told.
#[derive(Clone, Copy)]
pub(crate) enum Numbers {
    /// Those of a pair, on the left and on the right.
    Pair(u64, u64),
    /// That of a record which stands alone on this side.
    Alone(FileSide, u64),
}

/// What names records: their numbers, and the bytes of the items of their key.
#[derive(Clone, Copy)]
pub(crate) struct Heading<'a> {
    pub(crate) numbers: Numbers,
    pub(crate) keys: &'a [ListedItem],
    pub(crate) key: &'a [u8],
}

/// The numbers of two records, or one where they have one.
fn pair_numbers(left: u64, right: u64) -> ListingLine
    ensures text { result.items ≡ numbers_text left right }
    ensures some { 0 < length result.items }
    ensures most { length result.items ≤ 256 }
{
    let mut buffer = Buffer::new();
    let mut line = ListingLine::new();
    push_text(&mut line, b"record ");
    push_text(&mut line, buffer.format(left).as_bytes());
    if left != right {
        push_text(&mut line, b" | ");
        push_text(&mut line, buffer.format(right).as_bytes());
    }
    line
}

/// The number of a record that stands alone.
fn alone_number(side: FileSide, number: u64) -> ListingLine
    ensures text { result.items ≡ number_text side number }
    ensures some { 0 < length result.items }
    ensures most { length result.items ≤ 256 }
{
    let mut buffer = Buffer::new();
    let mut line = ListingLine::new();
    match side {
        FileSide::Left => push_text(&mut line, b"record "),
        FileSide::Right => push_text(&mut line, b"record | "),
    }
    push_text(&mut line, buffer.format(number).as_bytes());
    line
}

/// The numbers of records, as they are printed.
fn numbers_line(numbers: Numbers) -> ListingLine
    ensures text { result.items ≡ heading_numbers numbers }
    ensures some { 0 < length result.items }
    ensures most { length result.items ≤ 256 }
{
    match numbers {
        Numbers::Pair(left, right) => pair_numbers(left, right),
        Numbers::Alone(side, number) => alone_number(side, number),
    }
}

/// What stands before the value of an item of a key.
fn key_name(key: &ListedItem) -> ListingLine
    ensures text { result.items ≡ codes ", " ++ (named_item key.now).name ++ 32 ∷ [] }
    ensures some { 0 < length result.items }
    ensures most { length result.items ≤ 256 }
{
    let mut line = ListingLine::new();
    push_text(&mut line, b", ");
    push_text(&mut line, key.name.as_bytes());
    line.push(b' ');
    line
}

/// Prints the items of a key of these bytes, each with its value.
fn put_keys<W: Sink>(sink: &mut W, keys: &[ListedItem], key: &[u8]) -> Result<(), RecordFault>
    requires long { length key.now ≡ key_size (map named_item keys.now) }
    ensures text { OnOk result (Took (W.taken sink.old) (W.taken sink.new)
        (AreKeysShown (map named_item keys.now) key.now)) }
    ensures kind { IfErr result (λ fault. is_write_fault fault ≡ true) }
    ensures cause { W.failures sink.new ≡ counted (is_err result) (W.failures sink.old) }
{
    let Some((first, further)) = keys.split_first() else {
        return Ok(());
    };
    let (bytes, behind) = key.split_at(first.item.size() as usize);
    put_text(sink, key_name(first).as_slice())?;
    put_value(sink, &first.item, bytes)?;
    put_keys(sink, further, behind)
}

/// Prints what names records.
pub(crate) fn put_heading<W: Sink>(sink: &mut W, heading: &Heading) -> Result<(), RecordFault>
    requires { IsPlainHeading heading.now }
    ensures text { OnOk result (Took (W.taken sink.old) (W.taken sink.new)
        (heading_text heading.now)) }
    ensures kind { IfErr result (λ fault. is_write_fault fault ≡ true) }
    ensures cause { W.failures sink.new ≡ counted (is_err result) (W.failures sink.old) }
{
    put_text(sink, numbers_line(heading.numbers).as_slice())?;
    put_keys(sink, heading.keys, heading.key)
}
